// A run that no question refuses: its summary, and the buffers filled once it has stopped.
ghost use Rattle.std.specs.Prelude.{◌≡◌, ◌≤◌, ◌<◌, replicate};
ghost use Rattle.config.specs.Limits.{max_nodes, max_terms, most_rounds};
ghost use Rattle.protocol.specs.View.{no_terms};
ghost use Rattle.pipeline.specs.View.{table_size};
ghost use Rattle.rules.specs.Answers.{ran};
ghost use Rattle.rules.specs.Entries.{ran_with};
ghost use Rattle.rounds.specs.Going.{planned};
ghost use Rattle.sim.specs.Filling.{CanFill, Fills, summary_from};

use super::buffers::{write_logs, write_records};
use metrics::summary::Summary;
use pipeline::carry::with_states;
use pipeline::records::History;
use protocol::state::PaxosState;
use rounds::run::{Plan, Stopped, play};
use rules::answer::end_number;

// The summary of a run that has stopped. The covered nodes are those that took part (`SameCounts`).
pub fn summary_of(end: Stopped, n: usize) -> Summary
    requires { (n ≤ max_nodes) × (end.rounds ≤ most_rounds max_terms) }
    ensures { result ≡ summary_from n end }
{
    let x = end.run;
    let flood = x.flood;
    let carry = x.carry;
    Summary {
        nodes: n as u64,
        rounds: end.rounds,
        slots: flood.slot.0,
        ended: end_number(end.ended),
        listen: flood.slots_listen,
        flood: flood.slots_flood,
        sleep: flood.slots_sleep,
        attempts: flood.attempts,
        successes: flood.successes,
        flood_rounds: end.rounds,
        flood_nodes: (n as u64) * end.rounds,
        covered: x.took_part,
        took_part: x.took_part,
        nacks: carry.nacks,
        piggybacks: carry.piggybacks,
        records: carry.recorded.count,
        snapshots: flood.snapshots,
    }
}

// The run over a table of states that are still empty. The three buffers stay apart, as in `run`. The table keeps the states that
// the run ends with.
pub fn run_over(
    plan: &Plan,
    states: &mut [PaxosState],
    logs: &mut [u8],
    records: &mut [u64],
    snapshots: &mut [u64],
) -> Summary
    requires { CanFill plan.now logs.old records.old × (states.old ≡ replicate (table_size plan.now.network.graph.nodes) no_terms) }
    ensures { Fills plan.now logs.old records.old snapshots.old result
        states.new logs.new records.new snapshots.new }
{
    let most = plan.most_rounds();
    let mut history = History::EMPTY;
    let n = plan.network.graph.nodes;
    let stopped = play(plan, most, states, &mut history, snapshots);
    write_logs(states, n, logs);
    write_records(&history, stopped.run.carry.recorded.count, records);
    summary_of(stopped, n)
}

// The run of a graph. The three buffers stay apart, as in `run`.
pub fn run_pipeline(
    plan: &Plan,
    logs: &mut [u8],
    records: &mut [u64],
    snapshots: &mut [u64],
) -> Summary
    requires { CanFill plan.now logs.old records.old }
    ensures { ran result logs.new records.new snapshots.new
        ≡ ran_with (planned plan.now) logs.old records.old snapshots.old }
{
    let mut run = |states: &mut [PaxosState]| run_over(plan, states, logs, records, snapshots);
    with_states(plan.network.graph.nodes, &mut run)
}
