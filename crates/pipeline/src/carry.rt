// What the rounds of a run carry, after ctsim's sim/pipeline.rs.
ghost use Rattle.std.specs.Prelude.{◌≡◌, ◌≤◌, List, replicate};
ghost use Rattle.std.specs.Fn.{CalledAtMut};
ghost use Rattle.config.specs.Limits.{max_nodes};
ghost use Rattle.protocol.specs.declared.state.PaxosState.{PaxosState};
ghost use Rattle.protocol.specs.View.{no_terms};
ghost use Rattle.pipeline.specs.View.{table_size};

use super::records::Recorded;
use config::limits::MAX_NODES;
use phy::packet::Piggyback;
use protocol::state::PaxosState;

// The nodes' Paxos states stand in a table with room for few nodes, for some, or for the most.
const FEW_NODES: usize = 4;

const SOME_NODES: usize = 12;

// What the rounds carry besides the flood, the table of states and the history: how many proposals
// were made, what is recorded, the piggyback for the next packet, and two counts.
#[derive(Clone, Copy)]
pub struct Carry {
    pub counter: u64,
    pub recorded: Recorded,
    pub piggyback: Option<Piggyback>,
    pub nacks: u64,
    pub piggybacks: u64,
}

// What f answers where it is lent a table of N empty states. Never inlined: so a call fills the one table that it needs, and what
// comes before it, as a question that refuses, takes no such memory.
#[inline(never)]
fn with_table<const N: usize, R, F: FnMut(&mut [PaxosState]) -> R>(f: &mut F) -> R
    requires { (N ≤ max_nodes) × ((states : _) → states.now ≡ replicate N no_terms → F.pre f.old states) }
    ensures { (left : List PaxosState) × CalledAtMut F.FnMut f.old (replicate N no_terms) result f.new left }
{
    let mut states = [PaxosState::EMPTY; N];
    f(&mut states)
}

// The same with a table for so many nodes. f is borrowed, and not given away: so the contract can say what it is after the call,
// and with that what it did with what it borrows. That its table is blank each f asks in turn: a type of blank tables would hold
// it only until f's first write.
pub fn with_states<R, F: FnMut(&mut [PaxosState]) -> R>(nodes: usize, f: &mut F) -> R
    requires { (states : _) → states.now ≡ replicate (table_size nodes) no_terms → F.pre f.old states }
    ensures { (left : List PaxosState) × CalledAtMut F.FnMut f.old (replicate (table_size nodes) no_terms) result f.new left }
{
    if nodes <= FEW_NODES {
        with_table::<FEW_NODES, R, F>(f)
    } else if nodes <= SOME_NODES {
        with_table::<SOME_NODES, R, F>(f)
    } else {
        with_table::<MAX_NODES, R, F>(f)
    }
}
