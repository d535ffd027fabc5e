// The ten input fields of a file, in the line's order.
ghost use Rattle.std.specs.Prelude.{◌≡◌, not, ◌≤◌, T, length};
ghost use Rattle.std.specs.Float.Ieee.{is_nan};
ghost use Rattle.archive.specs.Layout.{inputs_size};
ghost use Rattle.archive.specs.Inputs.{slots_number, slots_from, input_numbers, inputs_in};

use super::bytes::nth_number;
use super::layout::INPUT_COUNT;
use config::Config;
use config::rate::rate_of;

// A run of a named topology, as it is asked for. A topology's three numbers stand apart, as in C and in a line.
#[derive(Clone, Copy)]
pub struct Inputs {
    pub topology: u64,
    pub first: u64,
    pub second: u64,
    pub config: Config,
}

// The number of absent round slots.
const ABSENT_SLOTS: u64 = u64::MAX;

// No From for the next two, whose types are std's, nor for the last two, which ask something of what they take.
fn slots_number(slots: Option<u64>) -> u64
    ensures { result ≡ slots_number slots }
{
    slots.unwrap_or(ABSENT_SLOTS)
}

fn slots_from(number: u64) -> Option<u64>
    ensures { result ≡ slots_from number }
{
    if number == ABSENT_SLOTS {
        None
    } else {
        Some(number)
    }
}

// The fields' numbers.
pub fn input_numbers(inputs: Inputs) -> [u64; INPUT_COUNT]
    requires { T (not (is_nan inputs.config.loss_rate)) }
    ensures { result ≡ input_numbers inputs }
{
    let config = inputs.config;
    let slots = config.round_slots;
    [
        inputs.topology,
        inputs.first,
        inputs.second,
        config.flood_repeats,
        slots_number(slots),
        f64::to_bits(config.loss_rate),
        config.seed,
        config.num_proposals,
        config.snapshot_interval,
        config.max_slots,
    ]
}

// What the fields of a section ask for.
pub fn inputs_in(section: &[u8]) -> Inputs
    requires { inputs_size ≤ length section.now }
    ensures { result ≡ inputs_in section.now }
{
    let config = Config {
        flood_repeats: nth_number(section, 3),
        round_slots: slots_from(nth_number(section, 4)),
        loss_rate: rate_of(nth_number(section, 5)),
        seed: nth_number(section, 6),
        num_proposals: nth_number(section, 7),
        snapshot_interval: nth_number(section, 8),
        max_slots: nth_number(section, 9),
    };
    Inputs {
        topology: nth_number(section, 0),
        first: nth_number(section, 1),
        second: nth_number(section, 2),
        config,
    }
}
