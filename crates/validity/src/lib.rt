// Whether a configuration that was filed earlier would still be run. Its questions are asked, and nothing is run: no buffer
// is lent, and nothing is written.
#![tactic(auto)]

ghost use Rattle.std.specs.Prelude.{◌≡◌};
ghost use Rattle.rules.specs.Networks.{asked_for};
ghost use Rattle.rules.specs.Questions.{config_questions};
ghost use Rattle.validity.specs.Validity.{validity_of, validity_for, validity_number};

use config::Config;
use config::numbered::Numbered;
use config::refusal::Refusal;
use rules::networks::{Asked, ask_graph};
use rules::questions::{ask_config, ask_others};

// Current: it would be run. Outdated: its rounds are too short, and nothing else is wrong.
#[derive(Clone, Copy)]
pub enum Validity {
    Current,
    Outdated,
}

// The number that tells it: 0 current, 16 outdated, else the refusal's.
pub fn number<R: Numbered>(validity: Result<Validity, R>) -> u64
    ensures { result ≡ validity_number R.number validity }
{
    match validity {
        Ok(Validity::Current) => 0,
        Ok(Validity::Outdated) => Refusal::ShortRound.number(),
        Err(refusal) => refusal.number(),
    }
}

// The validity of a configuration on a network that its own questions let pass.
fn config_validity(config: Config) -> Result<Validity, Refusal>
    ensures { result ≡ validity_of (config_questions config) }
{
    let Err(refusal) = ask_config(config) else {
        return Ok(Validity::Current);
    };
    if refusal != Refusal::ShortRound {
        return Err(refusal);
    }
    ask_others(config)?;
    Ok(Validity::Outdated)
}

// The validity of a configuration for the network that is asked for: refused by the first question other than 16 that is
// answered "no".
pub fn validity_of(asked: Asked, config: Config) -> Result<Validity, Refusal>
    ensures { result ≡ validity_for (asked_for asked.entry) config }
{
    ask_graph(asked)?;
    config_validity(config)
}
