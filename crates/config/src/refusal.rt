// Why an input is refused: the question that it was answered "no", under its number.
ghost use Rattle.std.specs.Prelude.{◌≡◌};
ghost use Rattle.config.specs.Refusals.{number_of};

use std::fmt;

// Each stands for one question. docs/RULES.md has them in the order in which they are put.
#[derive(Clone, Copy, Debug, PartialEq, Eq)]
pub enum Refusal {
    UnknownTopology = 1,
    NodeCount = 2,
    SecondNumber = 3,
    WrongRows = 4,
    RepeatCount = 5,
    RoundLength = 6,
    LossRate = 7,
    ProposalCount = 8,
    ZeroInterval = 9,
    ShortBuffers = 10,
    LargeCount = 11,
    UnreadableLine = 12,
    NoSuchRound = 13,
    NoText = 14,
    SweepTable = 15,
    ShortRound = 16,
    BrokenLayout = 17,
    ShortFile = 18,
    FieldsDiffer = 19,
}

impl Refusal {
    // The question's number.
    pub fn number(self) -> u64
        ensures { result ≡ number_of self }
    {
        self as u64
    }
}

impl fmt::Display for Refusal {
    fn fmt<W: fmt::Write>(&self, f: &mut fmt::Formatter<W>) -> fmt::Result {
        write!(f, "refused {}", self.number())
    }
}
