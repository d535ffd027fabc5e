// The run that is asked for, of rows or of a topology.
ghost use Rattle.std.specs.Prelude.{◌≡◌};
ghost use Rattle.rules.specs.Answers.{outcome};
ghost use Rattle.rules.specs.Entries.{outcome_for};
ghost use Rattle.rules.specs.Networks.{asked_for};

use super::outcome::run_pipeline;
use config::Config;
use config::refusal::Refusal;
use metrics::summary::Summary;
use rounds::run::Plan;
use rules::networks::{Asked, ask_network};
use rules::questions::ask_run;

// A run of the network that is asked for: its questions, those of the configuration and of the buffers, then the run. A
// refusal leaves every buffer as it was. The three buffers stay apart here and below: C lends each, and in a struct a clause
// more would say that they are still those.
pub fn run(
    asked: Asked,
    config: Config,
    logs: &mut [u8],
    records: &mut [u64],
    snapshots: &mut [u64],
) -> Result<Summary, Refusal>
    ensures { outcome result logs.new records.new snapshots.new
        ≡ outcome_for (asked_for asked.entry) config logs.old records.old snapshots.old }
{
    let network = ask_network(asked)?;
    ask_run(config, logs.len(), records.len())?;
    let plan = Plan { network, config };
    Ok(run_pipeline(&plan, logs, records, snapshots))
}
