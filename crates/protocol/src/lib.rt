// The Paxos turns of one node: its state, and what it does as the initiator of a round and with the
// packet of a round that it took part in.
#![tactic(auto)]

pub mod bits;
pub mod paxos;
pub mod state;
pub mod turns;
