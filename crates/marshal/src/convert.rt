// The configuration that the numbers of a call make, the summary as numbers, and a ratio as a result.
ghost use Rattle.std.specs.Prelude.{ℕ, ◌≤◌, ◌≡◌, List, Float, length};
ghost use Rattle.std.proofs.lemmas.List.Edits.{sets};
ghost use Rattle.marshal.specs.Convert.{summary_size, slots_from, config_from, summary_numbers, summary_at, ratio_result, result_of, with_summary};

use super::numbers::done_result;
use config::Config;
use config::numbered::Numbered;
use metrics::summary::Summary;
use metrics::totals::{TOTAL_COUNT, totals_of};

// How many places a summary has.
pub const SUMMARY_SIZE: usize = 17;

// No refusal: the divisor is 0, and there is no ratio.
const NO_RATIO: u64 = 101;

// Round slots, or none where `round_slots_given` is 0. No From, here and below: C gives a value in several numbers.
fn slots_from(round_slots_given: u64, slots: u64) -> Option<u64>
    ensures { result ≡ slots_from round_slots_given slots }
{
    if round_slots_given == 0 {
        None
    } else {
        Some(slots)
    }
}

pub fn config_from(
    repeats: u64,
    round_slots_given: u64,
    round_slots: u64,
    loss: f64,
    seed: u64,
    proposals: u64,
    interval: u64,
    limit: u64,
) -> Config
    ensures { result ≡ config_from repeats round_slots_given round_slots loss seed proposals interval limit }
{
    Config {
        flood_repeats: repeats,
        round_slots: slots_from(round_slots_given, round_slots),
        loss_rate: loss,
        seed,
        num_proposals: proposals,
        snapshot_interval: interval,
        max_slots: limit,
    }
}

// The summary's numbers into the first places.
fn write_summary(s: Summary, out: &mut [u64])
    requires { summary_size ≤ length out.old }
    ensures { out.new ≡ sets out.old 0 (summary_numbers s) }
{
    out[..TOTAL_COUNT].copy_from_slice(&totals_of(s));
    out[TOTAL_COUNT] = s.records;
    out[TOTAL_COUNT + 1] = s.snapshots;
}

// The summary that was written to these places.
pub fn read_summary(s: &[u64]) -> Summary
    requires { summary_size ≤ length s.now }
    ensures { result ≡ summary_at s.now }
{
    Summary {
        nodes: s[0],
        rounds: s[1],
        slots: s[2],
        ended: s[3],
        listen: s[4],
        flood: s[5],
        sleep: s[6],
        attempts: s[7],
        successes: s[8],
        flood_rounds: s[9],
        flood_nodes: s[10],
        covered: s[11],
        took_part: s[12],
        nacks: s[13],
        piggybacks: s[14],
        records: s[15],
        snapshots: s[16],
    }
}

// The result of a ratio, which is written to the first place if there is one.
pub fn write_ratio<R: Numbered>(answer: Result<Option<f64>, R>, out: &mut [f64]) -> u64
    requires { 1 ≤ length out.old }
    ensures { ◌≡◌ {A = ℕ × List Float} (result, out.new) (ratio_result R.number answer out.old) }
{
    match answer {
        Ok(Some(x)) => {
            out[0] = x;
            0
        }
        Ok(None) => NO_RATIO,
        Err(refused) => refused.number(),
    }
}

// The result of a run's answer; the summary is written if there is one.
pub fn write_answer<R: Numbered>(answer: Result<Summary, R>, out: &mut [u64]) -> u64
    requires { summary_size ≤ length out.old }
    ensures { ◌≡◌ {A = ℕ × List ℕ} (result, out.new) (result_of R.number answer, with_summary answer out.old) }
{
    if let Ok(summary) = answer {
        write_summary(summary, out);
    }
    done_result(&answer)
}
