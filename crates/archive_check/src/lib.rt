// The check of an archive file: whether its first section, run afresh, gives the other four.
#![tactic(auto)]

mod again;
mod rounds_again;

ghost use Rattle.std.specs.Prelude.{◌≡◌};
ghost use Rattle.config.specs.Refusals.{unless};
ghost use Rattle.rules.specs.Questions.{refusal_for};
ghost use Rattle.rules.specs.Entries.{given_for};
ghost use Rattle.archive_writer.specs.Filed.{network_in};
ghost use Rattle.archive_check.specs.Again.{gives_again};
ghost use Rattle.archive_check.specs.Check.{check_of};

use again::gives_again;
use archive::inputs::{Inputs, inputs_in};
use archive::layout::Filed;
use archive::reader::inputs_of;
use archive_writer::network_of;
use config::refusal::Refusal;
use rounds::run::Plan;
use rules::questions::ask_config;

// Whether the run of the inputs gives the file's other sections, where the questions of the network and of the configuration
// let it pass.
fn runs_again(inputs: Inputs, file: Filed) -> Result<bool, Refusal>
    ensures { let q = network_in inputs in
        result ≡ unless (refusal_for q inputs.config) (gives_again (given_for q inputs.config) file.entry.bytes.now) }
{
    let config = inputs.config;
    let network = network_of(inputs)?;
    ask_config(config)?;
    let plan = Plan { network, config };
    Ok(gives_again(&plan, file))
}

// Checks a file: no, too, where a question refuses the run. One run, whatever the number of its snapshots, and no more memory
// for a longer file.
pub fn check_file(file: &[u8]) -> Result<bool, Refusal>
    ensures { result ≡ check_of file.now }
{
    let file = Filed::of(file)?;
    let inputs = inputs_in(inputs_of(file.bytes));
    Ok(runs_again(inputs, file).unwrap_or(false))
}
