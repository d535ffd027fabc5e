// What is seen of a run: its rounds, and the end that it comes to.
ghost use Rattle.std.specs.Prelude.{◌≡◌};
ghost use Rattle.rules.specs.Answers.{end_number};

use phy::packet::Packet;

// One round: its packet, and the set of the nodes that took part.
#[derive(Clone, Copy)]
pub struct SeenRound {
    pub packet: Packet,
    pub part: u64,
}

// Why a run stops, under the end's number. All logs are complete; all proposals are recorded, and the time for
// recovery is over; the limit of rounds; the limit of slots.
#[derive(Clone, Copy, Debug, PartialEq, Eq)]
pub enum End {
    LogsComplete = 1,
    AllRecorded = 2,
    RoundLimit = 3,
    SlotLimit = 4,
}

// The number of an end, or 0 where there is none.
pub fn end_number(end: Option<End>) -> u64
    ensures { result ≡ end_number end }
{
    end.map_or(0, |end| end as u64)
}
