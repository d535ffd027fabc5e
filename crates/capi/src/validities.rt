// The entries for configurations that were filed earlier.
ghost use Rattle.std.specs.Prelude.{◌≡◌};
ghost use Rattle.config.specs.Refusals.{number_of};
ghost use Rattle.marshal.specs.Convert.{config_from};
ghost use Rattle.rules.specs.Networks.{of_rows, of_topology};
ghost use Rattle.validity.specs.Validity.{validity_for, validity_number};

use marshal::convert::config_from;
use rules::networks::Asked;
use validity::{number, validity_of};

// The validity of a configuration, of the topology with that number: 0 current, 16 outdated, else the refusal's number.
#[unsafe(no_mangle)]
pub extern "C" fn ctsim_validity_topology(
    topology: u64,
    first: u64,
    second: u64,
    repeats: u64,
    round_slots_given: u64,
    round_slots: u64,
    loss: f64,
    seed: u64,
    proposals: u64,
    interval: u64,
    limit: u64,
) -> u64
    ensures { result ≡ validity_number number_of (validity_for (of_topology topology first second)
        (config_from repeats round_slots_given round_slots loss seed proposals interval limit)) }
{
    let config = config_from(
        repeats,
        round_slots_given,
        round_slots,
        loss,
        seed,
        proposals,
        interval,
        limit,
    );
    let asked = Asked::Topology(topology, first, second);
    number(validity_of(asked, config))
}

// The validity of a configuration, of n nodes with these rows.
#[unsafe(no_mangle)]
pub extern "C" fn ctsim_validity_rows(
    rows: &[u32],
    n: u64,
    repeats: u64,
    round_slots_given: u64,
    round_slots: u64,
    loss: f64,
    seed: u64,
    proposals: u64,
    interval: u64,
    limit: u64,
) -> u64
    ensures { result ≡ validity_number number_of (validity_for (of_rows rows.now n)
        (config_from repeats round_slots_given round_slots loss seed proposals interval limit)) }
{
    let config = config_from(
        repeats,
        round_slots_given,
        round_slots,
        loss,
        seed,
        proposals,
        interval,
        limit,
    );
    number(validity_of(Asked::Rows(rows, n), config))
}
