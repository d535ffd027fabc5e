// The entries for sweeps of many seeds.
ghost use Rattle.std.specs.Prelude.{ℕ, ◌≡◌, List};
ghost use Rattle.marshal.specs.Convert.{config_from};
ghost use Rattle.rules.specs.Networks.{of_rows, of_topology};
ghost use Rattle.capi.specs.Capi.{no_seed, returned_sweep};

use super::SHORT;
use marshal::convert::config_from;
use marshal::numbers::write_number;
use rules::networks::Asked;
use sweep::sweep_seeds;

// The seed of a configuration whose seeds are a list.
const NO_SEED: u64 = 0;

// A sweep of these seeds, of the topology with that number, into `table`. The sum of the rounds into the first place of `rounds`.
#[tactic(auto, unfolding(crate::specs::Capi::returned_sweep))]
#[unsafe(no_mangle)]
pub extern "C" fn ctsim_sweep_topology(
    topology: u64,
    first: u64,
    second: u64,
    repeats: u64,
    round_slots_given: u64,
    round_slots: u64,
    loss: f64,
    proposals: u64,
    interval: u64,
    limit: u64,
    seeds: &[u64],
    table: &mut [u64],
    rounds: &mut [u64],
) -> u64
    ensures { ◌≡◌ {A = ℕ × List ℕ × List ℕ} (result, table.new, rounds.new)
        (returned_sweep (of_topology topology first second) (config_from repeats round_slots_given round_slots loss no_seed proposals interval limit)
        seeds.now table.old rounds.old) }
{
    if rounds.is_empty() {
        return SHORT;
    }
    let config = config_from(
        repeats,
        round_slots_given,
        round_slots,
        loss,
        NO_SEED,
        proposals,
        interval,
        limit,
    );
    let asked = Asked::Topology(topology, first, second);
    let answer = sweep_seeds(asked, config, seeds, table);
    write_number(answer, rounds)
}

// A sweep of these seeds, of n nodes with these rows.
#[tactic(auto, unfolding(crate::specs::Capi::returned_sweep))]
#[unsafe(no_mangle)]
pub extern "C" fn ctsim_sweep_rows(
    rows: &[u32],
    n: u64,
    repeats: u64,
    round_slots_given: u64,
    round_slots: u64,
    loss: f64,
    proposals: u64,
    interval: u64,
    limit: u64,
    seeds: &[u64],
    table: &mut [u64],
    rounds: &mut [u64],
) -> u64
    ensures { ◌≡◌ {A = ℕ × List ℕ × List ℕ} (result, table.new, rounds.new)
        (returned_sweep (of_rows rows.now n) (config_from repeats round_slots_given round_slots loss no_seed proposals interval limit)
        seeds.now table.old rounds.old) }
{
    if rounds.is_empty() {
        return SHORT;
    }
    let config = config_from(
        repeats,
        round_slots_given,
        round_slots,
        loss,
        NO_SEED,
        proposals,
        interval,
        limit,
    );
    let answer = sweep_seeds(Asked::Rows(rows, n), config, seeds, table);
    write_number(answer, rounds)
}
