// The nodes' part of a round: the initiator's turn before the flood, the participants' turns after it, and the records of what
// they commit.
#![tactic(auto)]

pub mod carry;
pub mod records;
pub mod round;
