// The fifteen numbers of a summary that a listing and an archive file begin with.
ghost use Rattle.std.specs.Prelude.{◌≡◌};
ghost use Rattle.metrics.specs.Totals.{totals};

use super::summary::Summary;

pub const TOTAL_COUNT: usize = 15;

// In their order. No `From`: two of the summary's numbers are left out.
pub fn totals_of(s: Summary) -> [u64; TOTAL_COUNT]
    ensures { result ≡ totals s }
{
    [
        s.nodes,
        s.rounds,
        s.slots,
        s.ended,
        s.listen,
        s.flood,
        s.sleep,
        s.attempts,
        s.successes,
        s.flood_rounds,
        s.flood_nodes,
        s.covered,
        s.took_part,
        s.nacks,
        s.piggybacks,
    ]
}
