// The writer of archive files: runs a named topology into a run's buffers, and files that run into lent bytes.
#![tactic(auto)]

mod put;
mod run;

ghost use Rattle.std.specs.Prelude.{◌≡◌, ◌*◌, ◌^◌, ◌<◌, leb};
ghost use Rattle.rules.specs.Networks.{network_for};
ghost use Rattle.archive.specs.Layout.{snapshot_bytes};
ghost use Rattle.rounds.specs.Going.{planned};
ghost use Rattle.archive_writer.specs.Filed.{network_in};
ghost use Rattle.archive_writer.specs.Filing.{filing, filing_for};
ghost use Rattle.archive_writer.specs.Working.{summary_in, length_with, CanCount};

use archive::inputs::Inputs;
use config::limits::{MAX_TERMS, SNAPSHOT_SIZE};
use config::refusal::Refusal;
use put::length_of;
use rounds::run::Plan;
use rules::networks::{Asked, Network, ask_network};
use rules::questions::ask_run;
use run::{count_run, file_run};

// The network that the inputs name. No `From<Inputs>` for `Asked`: they are types of two crates, and neither uses the other.
pub fn network_of(inputs: Inputs) -> Result<Network, Refusal>
    ensures { result ≡ network_for (network_in inputs) }
{
    ask_network(Asked::Topology(inputs.topology, inputs.first, inputs.second))
}

// Whether the run's file fits into so many bytes. Where they suffice for whatever the snapshots' buffer can bring, no run is
// needed to tell.
fn fits(plan: &Plan, room: usize, size: usize) -> bool
    requires { CanCount plan.now × (snapshot_bytes * room < 2 ^ 63) }
    ensures { result ≡ leb (length_with (summary_in (planned plan.now)) room) size }
{
    if length_of(MAX_TERMS, room) <= size {
        return true;
    }
    let counted = count_run(plan);
    let stored = room.min(counted.snapshots as usize);
    length_of(counted.records as usize, stored) <= size
}

// Files the run of the inputs, whose buffers are then as `sim::entries::run` leaves them, and says how many bytes the file
// has. A refusal leaves every buffer as it was. The buffers stay apart here and below, as for a run.
pub fn file_topology(
    inputs: Inputs,
    logs: &mut [u8],
    records: &mut [u64],
    snapshots: &mut [u64],
    file: &mut [u8],
) -> Result<usize, Refusal>
    ensures { filing result logs.new records.new snapshots.new file.new
        ≡ filing_for inputs logs.old records.old snapshots.old file.old }
{
    let config = inputs.config;
    let network = network_of(inputs)?;
    ask_run(config, logs.len(), records.len())?;
    let plan = Plan { network, config };
    let room = snapshots.len() / SNAPSHOT_SIZE;
    if !fits(&plan, room, file.len()) {
        return Err(Refusal::ShortFile);
    }
    Ok(file_run(&plan, inputs, logs, records, snapshots, file))
}
