// A run that is filed, and one that is only counted.
ghost use Rattle.std.specs.Prelude.{◌≡◌, replicate};
ghost use Rattle.protocol.specs.View.{no_terms};
ghost use Rattle.pipeline.specs.View.{table_size};
ghost use Rattle.rules.specs.Accepted.{Accepted};
ghost use Rattle.rounds.specs.Going.{planned};
ghost use Rattle.archive_writer.specs.Working.{summary_in, CanFile, Files};

use super::put::put_file;
use archive::inputs::Inputs;
use config::limits::{LOG_SIZE, RECORDS_SIZE};
use metrics::summary::Summary;
use pipeline::carry::with_states;
use protocol::state::PaxosState;
use rounds::run::Plan;
use sim::buffers::write_logs;
use sim::outcome::{run_over, run_pipeline};

// The summary of a run of which no snapshot is stored, and whose other buffers are not kept.
pub fn count_run(plan: &Plan) -> Summary
    requires { Accepted (planned plan.now) }
    ensures { result ≡ summary_in (planned plan.now) }
{
    let mut logs = [0u8; LOG_SIZE];
    let mut records = [0u64; RECORDS_SIZE];
    let mut snapshots = [0u64; 0];
    run_pipeline(plan, &mut logs, &mut records, &mut snapshots)
}

// The run over a table of states that are still empty, and its file, whose logs are laid over zeros and not over the lent logs'
// old bytes. The file's length. The buffers stay apart, as for a run.
fn file_over(
    plan: &Plan,
    inputs: Inputs,
    states: &mut [PaxosState],
    logs: &mut [u8],
    records: &mut [u64],
    snapshots: &mut [u64],
    file: &mut [u8],
) -> usize
    requires { CanFile plan.now inputs logs.old records.old snapshots.old file.old × (states.old ≡ replicate (table_size plan.now.network.graph.nodes) no_terms) }
    ensures { Files plan.now inputs logs.old records.old snapshots.old file.old result
        logs.new records.new snapshots.new file.new }
{
    let summary = run_over(plan, states, logs, records, snapshots);
    let mut section = [0u8; LOG_SIZE];
    write_logs(states, plan.network.graph.nodes, &mut section);
    put_file(inputs, summary, records, snapshots, &section, file)
}

// The run of a graph, and its file. The file's length. The buffers stay apart, as for a run.
pub fn file_run(
    plan: &Plan,
    inputs: Inputs,
    logs: &mut [u8],
    records: &mut [u64],
    snapshots: &mut [u64],
    file: &mut [u8],
) -> usize
    requires { CanFile plan.now inputs logs.old records.old snapshots.old file.old }
    ensures { Files plan.now inputs logs.old records.old snapshots.old file.old result
        logs.new records.new snapshots.new file.new }
{
    let mut run = |states: &mut [PaxosState]| file_over(
        plan, inputs, states, logs, records, snapshots, file,
    );
    with_states(plan.network.graph.nodes, &mut run)
}
