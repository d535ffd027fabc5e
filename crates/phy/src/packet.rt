// The packet that a round floods, after the source's PaxosPacket: a plain value where the source carries its
// JSON. The data of a term is `tx` and the term in decimal, so that its term stands for it.
use network::units::{NodeId, Term};

// A proposal that is sent once more because a node asked for it.
#[derive(Clone, Copy)]
pub struct Piggyback {
    pub term: Term,
    pub data: Option<Term>,
}

// `last_accepted_term` is the term up to which the sender accepted, and `nack_term` the one that it asks for.
// `flags_bitmap` is a set of nodes: bit i stands for node i.
#[derive(Clone, Copy)]
pub struct Packet {
    pub current_term: Term,
    pub last_accepted_term: Option<Term>,
    pub flags_bitmap: u64,
    pub nack_term: Option<Term>,
    pub sender: NodeId,
    pub proposal_data: Option<Term>,
    pub piggyback: Option<Piggyback>,
}
