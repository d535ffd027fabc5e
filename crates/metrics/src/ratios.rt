// The two ratios of a run, after ctsim's metrics.rs.
ghost use Rattle.std.specs.Prelude.{◌≡◌};
ghost use Rattle.metrics.specs.Ratio.{ratio_of};

use super::ratio::ratio;
use super::summary::Summary;
use config::refusal::Refusal;

// Link-level packet delivery ratio: successes over attempts.
pub fn link_pdr(s: Summary) -> Result<Option<f64>, Refusal>
    ensures { result ≡ ratio_of s.successes s.attempts }
{
    ratio(s.successes, s.attempts)
}

// The fraction of nodes, over all rounds, that a flood covered.
pub fn flood_coverage(s: Summary) -> Result<Option<f64>, Refusal>
    ensures { result ≡ ratio_of s.covered s.flood_nodes }
{
    ratio(s.covered, s.flood_nodes)
}
