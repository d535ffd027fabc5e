// What the questions put to an input share.
ghost use Rattle.std.specs.Prelude.{◌≡◌};
ghost use Rattle.network.specs.Questions.{within};

// Whether lo ≤ x ≤ hi.
pub fn lies_in(lo: u64, hi: u64, x: u64) -> bool
    ensures { result ≡ within lo hi x }
{
    (lo..=hi).contains(&x)
}
