// The questions put to an input: the first "no" refuses it.
ghost use Rattle.std.specs.Prelude.{◌≡◌};
ghost use Rattle.rules.specs.Questions.{slots_allowed, slots_suffice, rate_allowed, round_questions, other_questions, config_questions, buffer_questions, run_questions, asked};

use config::Config;
use config::limits::{LOG_SIZE, MAX_REPEATS, MAX_ROUND_SLOTS, MAX_TERMS, RECORDS_SIZE};
use config::refusal::Refusal;
use network::questions::lies_in;

// Question 6: absent, or 0 to 4,096.
fn slots_allowed(slots: Option<u64>) -> bool
    ensures { result ≡ slots_allowed slots }
{
    slots.unwrap_or(0) <= MAX_ROUND_SLOTS
}

// Question 16: absent, or at least the repeats.
fn slots_suffice(repeats: u64, slots: Option<u64>) -> bool
    ensures { result ≡ slots_suffice repeats slots }
{
    repeats <= slots.unwrap_or(repeats)
}

// Question 7: at least 0 and below 1.
fn rate_allowed(rate: f64) -> bool
    ensures { result ≡ rate_allowed rate }
{
    (0.0 <= rate) & (rate < 1.0)
}

// Questions 5, 6 and, just after 6, 16: of the length of a round.
fn ask_round(config: Config) -> Result<(), Refusal>
    ensures { result ≡ asked (round_questions config) }
{
    if !lies_in(1, MAX_REPEATS, config.flood_repeats) {
        return Err(Refusal::RepeatCount);
    }
    if !slots_allowed(config.round_slots) {
        return Err(Refusal::RoundLength);
    }
    if !slots_suffice(config.flood_repeats, config.round_slots) {
        return Err(Refusal::ShortRound);
    }
    Ok(())
}

// Questions 7 to 9: of all else in the configuration.
pub fn ask_others(config: Config) -> Result<(), Refusal>
    ensures { result ≡ asked (other_questions config) }
{
    if !rate_allowed(config.loss_rate) {
        return Err(Refusal::LossRate);
    }
    if (MAX_TERMS as u64) < config.num_proposals {
        return Err(Refusal::ProposalCount);
    }
    if config.snapshot_interval < 1 {
        return Err(Refusal::ZeroInterval);
    }
    Ok(())
}

// Questions 5, 6, 16 and 7 to 9, of the configuration.
pub fn ask_config(config: Config) -> Result<(), Refusal>
    ensures { result ≡ asked (config_questions config) }
{
    ask_round(config)?;
    ask_others(config)
}

// Question 10, for log and record buffers of these lengths.
pub fn ask_buffers(logs: usize, records: usize) -> Result<(), Refusal>
    ensures { result ≡ asked (buffer_questions logs records) }
{
    if (LOG_SIZE <= logs) & (RECORDS_SIZE <= records) {
        return Ok(());
    }
    Err(Refusal::ShortBuffers)
}

// The questions of the configuration, then 10.
pub fn ask_run(config: Config, logs: usize, records: usize) -> Result<(), Refusal>
    ensures { result ≡ asked (run_questions config logs records) }
{
    ask_config(config)?;
    ask_buffers(logs, records)
}
