// What may tell why an input is refused: a question, or a number alone.
ghost use Rattle.std.specs.Prelude.{ℕ, ◌≡◌};
ghost use Rattle.config.specs.Refusals.{number_of};

use super::refusal::Refusal;

// What has a number, which is all that a caller in C is told of a refusal.
pub trait Numbered: Copy {
    ghost number: { Self → ℕ };

    fn number(self) -> u64
        ensures { result ≡ number self };
}

impl Numbered for Refusal {
    ghost number = { number_of };

    fn number(self) -> u64 {
        Refusal::number(self)
    }
}

impl Numbered for u64 {
    ghost number = { λ n. n };

    fn number(self) -> u64 {
        self
    }
}
