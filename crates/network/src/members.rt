// The members of a set, from the lowest up.
ghost use Rattle.std.specs.Prelude.{◌≡◌, MatchOption};
ghost use Rattle.std.specs.Iterator.{at_most};
ghost use Rattle.network.specs.Members.{TakesLowest};

// Those that have not been taken yet, as a set.
#[derive(Clone, Copy)]
pub struct Members {
    pub left: u64,
}

impl Iterator for Members {
    type Item = usize;

    ghost next_gives = { λ s r t. MatchOption r (s.left ≡ 0) (λ i. TakesLowest s.left i t.left) };

    ghost remaining = { λ s. at_most s.left };

    #[inline]
    fn next(&mut self) -> Option<usize> {
        if self.left == 0 {
            return None;
        }
        let lowest = self.left.trailing_zeros() as usize;
        self.left &= self.left - 1;
        Some(lowest)
    }
}

// All members of a set.
pub fn members_of(set: u64) -> Members
    ensures { result.left ≡ set }
{
    Members { left: set }
}
