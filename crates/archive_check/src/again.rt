// What a run leaves, compared with the sections of a file.
ghost use Rattle.std.specs.Prelude.{◌≡◌, ◌&&◌, ◌*◌, ◌≤◌, leb, length, replicate};
ghost use Rattle.config.specs.Limits.{max_nodes, max_terms, max_round_slots, snapshot_size, log_size, most_rounds};
ghost use Rattle.metrics.specs.Totals.{totals};
ghost use Rattle.protocol.specs.View.{no_terms};
ghost use Rattle.pipeline.specs.View.{AllKept, records_of, states_of, table_size};
ghost use Rattle.rules.specs.Accepted.{Accepted};
ghost use Rattle.rules.specs.RunBounds.{longest};
ghost use Rattle.rules.specs.Entries.{logs_with, record_numbers};
ghost use Rattle.rounds.specs.Going.{planned};
ghost use Rattle.sim.specs.Filling.{summary_from};
ghost use Rattle.archive.specs.Bytes.{numbers_bytes, same_bytes};
ghost use Rattle.archive.specs.Layout.{section_in};
ghost use Rattle.archive_check.specs.Again.{gives_again};
ghost use Rattle.archive_check.specs.Check.{stored_in};

use super::rounds_again::replay;
use archive::bytes::are_numbers;
use archive::layout::{Filed, SNAPSHOT_BYTES, Section};
use config::limits::{LOG_SIZE, MAX_ROUND_SLOTS, RECORD_SIZE, RECORDS_SIZE, SNAPSHOT_SIZE};
use metrics::summary::Summary;
use metrics::totals::totals_of;
use pipeline::carry::with_states;
use pipeline::records::History;
use protocol::state::PaxosState;
use rounds::run::{Plan, Stopped};
use sim::buffers::{write_logs, write_records};
use sim::outcome::summary_of;

// Rounds of at most so many slots have a smaller table of their snapshots, which takes less time to zero.
const FEW_SLOTS: u64 = 128;

const FEW_SHOTS: usize = SNAPSHOT_SIZE * (FEW_SLOTS as usize);

const ALL_SHOTS: usize = SNAPSHOT_SIZE * (MAX_ROUND_SLOTS as usize);

// Whether a section is the totals of a summary.
fn same_totals(section: &[u8], summary: Summary) -> bool
    ensures { result ≡ same_bytes section.now (numbers_bytes (totals summary)) }
{
    are_numbers(section, &totals_of(summary))
}

// Whether a section is the first `count` records of a history.
fn same_records(section: &[u8], history: &History, count: u64) -> bool
    requires { count ≤ max_terms }
    ensures { result ≡ same_bytes section.now (numbers_bytes (record_numbers (records_of count history.now))) }
{
    let mut numbers = [0u64; RECORDS_SIZE];
    write_records(history, count, &mut numbers);
    are_numbers(section, &numbers[..RECORD_SIZE * (count as usize)])
}

// Whether a section is the logs of the first n nodes, with zeros in the places that they don't use. The number stands beside the
// table, here and below, as the writer of the logs takes it.
#[tactic(auto, unfolding(archive::specs::Bytes::same_bytes))]
fn same_logs(section: &[u8], states: &[PaxosState], n: usize) -> bool
    requires { AllKept max_terms n states.now × (n ≤ max_nodes) }
    ensures { result ≡ same_bytes section.now (logs_with (replicate log_size 0) (states_of n states.now) n) }
{
    let mut logs = [0u8; LOG_SIZE];
    write_logs(states, n, &mut logs);
    section == logs.as_slice()
}

// Whether a run that has stopped has as many snapshots as the file, and its totals, records and logs.
fn same_rest(
    file: Filed,
    n: usize,
    states: &[PaxosState],
    history: &History,
    stopped: Stopped,
) -> bool
    requires { AllKept max_terms n states.now × (n ≤ max_nodes) × (stopped.rounds ≤ most_rounds max_terms)
        × (stopped.run.carry.recorded.count ≤ max_terms) }
    ensures { let bytes = file.entry.bytes.now in result ≡ leb (stored_in bytes) stopped.run.flood.snapshots
        && same_bytes (section_in bytes 1) (numbers_bytes (totals (summary_from n stopped)))
        && same_bytes (section_in bytes 2) (numbers_bytes (record_numbers (records_of stopped.run.carry.recorded.count history.now)))
        && same_bytes (section_in bytes 4) (logs_with (replicate log_size 0) (states_of n states.now) n) }
{
    let summary = summary_of(stopped, n);
    let stored = (file.length_of(Section::Snapshots) / SNAPSHOT_BYTES) as u64;
    stored <= summary.snapshots
        && same_totals(file.part(Section::Totals), summary)
        && same_records(file.part(Section::Records), history, summary.records)
        && same_logs(file.part(Section::Logs), states, n)
}

// Whether the run gives the file's other sections, over blank tables and with room for the snapshots of any round. No ghost field
// of `Plan` holds that it was accepted, which is asked here and below: the laws speak of plans of any network and configuration.
// That the states are blank is so of the table that `with_states` lends, and of no other.
fn again_over(plan: &Plan, file: Filed, states: &mut [PaxosState], shots: &mut [u64]) -> bool
    requires { Accepted (planned plan.now) × (states.old ≡ replicate (table_size plan.now.network.graph.nodes) no_terms)
        × (snapshot_size * longest (planned plan.now) ≤ length shots.old) }
    ensures { result ≡ gives_again (planned plan.now) file.entry.bytes.now }
{
    let mut history = History::EMPTY;
    let replayed = replay(plan, file, states, &mut history, shots);
    match replayed {
        None => false,
        Some(stopped) => same_rest(file, plan.network.graph.nodes, states, &history, stopped),
    }
}

// The same with a table of N places for the snapshots. Never inlined: so a call zeros the one table that it needs.
#[inline(never)]
fn with_shots<const N: usize>(plan: &Plan, file: Filed, states: &mut [PaxosState]) -> bool
    requires { Accepted (planned plan.now) × (states.old ≡ replicate (table_size plan.now.network.graph.nodes) no_terms)
        × (snapshot_size * longest (planned plan.now) ≤ N) × (N ≤ snapshot_size * max_round_slots) }
    ensures { result ≡ gives_again (planned plan.now) file.entry.bytes.now }
{
    let mut shots = [0u64; N];
    again_over(plan, file, states, &mut shots)
}

// The same over blank states.
fn again_with(plan: &Plan, file: Filed, states: &mut [PaxosState]) -> bool
    requires { Accepted (planned plan.now) × (states.old ≡ replicate (table_size plan.now.network.graph.nodes) no_terms) }
    ensures { result ≡ gives_again (planned plan.now) file.entry.bytes.now }
{
    let longest = plan.longest();
    if longest <= FEW_SLOTS {
        with_shots::<FEW_SHOTS>(plan, file, states)
    } else {
        with_shots::<ALL_SHOTS>(plan, file, states)
    }
}

// Whether the run of a graph gives the file's other sections.
pub fn gives_again(plan: &Plan, file: Filed) -> bool
    requires { Accepted (planned plan.now) }
    ensures { result ≡ gives_again (planned plan.now) file.entry.bytes.now }
{
    let mut again = |states: &mut [PaxosState]| again_with(plan, file, states);
    with_states(plan.network.graph.nodes, &mut again)
}
