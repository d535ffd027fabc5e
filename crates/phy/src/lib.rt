// One flood of a packet by constructive interference: the node's radio, the slots of a round, and
// the snapshots taken on the way.
#![tactic(auto)]

pub mod ci;
pub mod in_place;
pub mod node;
pub mod packet;
pub mod slot;
pub mod snapshot;
