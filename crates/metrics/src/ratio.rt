// The ratio of two counts.
ghost use Rattle.std.specs.Prelude.{◌≡◌};
ghost use Rattle.metrics.specs.Ratio.{ratio_of};

use config::refusal::Refusal;

// 2^53: every count up to it is an f64.
const EXACT_COUNT: u64 = 9007199254740992;

// None for a zero divisor, else the quotient; refused where a count is above 2^53.
#[tactic(auto, using(crate::proofs::Quotients::count_cast), unfolding(crate::specs::Ratio::ratio_of, crate::specs::Ratio::quotient))]
pub fn ratio(part: u64, whole: u64) -> Result<Option<f64>, Refusal>
    ensures { result ≡ ratio_of part whole }
{
    if EXACT_COUNT < part || EXACT_COUNT < whole {
        return Err(Refusal::LargeCount);
    }
    if whole == 0 {
        return Ok(None);
    }
    Ok(Some((part as f64) / (whole as f64)))
}
