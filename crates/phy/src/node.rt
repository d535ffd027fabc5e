// A node's radio, after ctsim's node.rs: what it does in a round, the packet it holds, and how
// many slots it has spent in each state.
ghost use Rattle.std.specs.Prelude.{◌≡◌, ◌<◌, ◌+◌, ◌^◌};
ghost use Rattle.phy.specs.Node as Spec;

use super::packet::Packet;

// What a radio does in a slot.
#[derive(Clone, Copy)]
pub enum NodeState {
    Listen,
    Flood,
    Sleep,
}

// `payload` is the packet that the node holds, if it holds one.
#[derive(Clone, Copy)]
pub struct Node {
    pub state: NodeState,
    pub flood_remaining: u32,
    pub payload: Option<Packet>,
    pub slots_listen: u64,
    pub slots_flood: u64,
    pub slots_sleep: u64,
}

// `new`, `reset_round` and `tick` are of a value, as the definitions have them; the methods do the same to a lent node.

// A node before its first round.
pub fn new() -> Node
    ensures { result ≡ Spec.new }
{
    Node {
        state: NodeState::Listen,
        flood_remaining: 0,
        payload: None,
        slots_listen: 0,
        slots_flood: 0,
        slots_sleep: 0,
    }
}

// The node as a round begins: it listens, and keeps its packet and its counts.
pub fn reset_round(node: Node) -> Node
    ensures { result ≡ Spec.reset_round node }
{
    Node {
        state: NodeState::Listen,
        flood_remaining: 0,
        ..node
    }
}

// The node after one slot in its state.
pub fn tick(node: Node) -> Node
    requires { Spec.total node + 1 < 2 ^ 64 }
    ensures { result ≡ Spec.tick node }
{
    let state = node.state;
    let mut next = node;
    match state {
        NodeState::Listen => {
            next.slots_listen += 1;
        }
        NodeState::Flood => {
            next.slots_flood += 1;
        }
        NodeState::Sleep => {
            next.slots_sleep += 1;
        }
    }
    next
}

impl Node {
    // The node behind the reference as a round begins.
    pub fn reset_round(&mut self)
        ensures { self.new ≡ Spec.reset_round self.old }
    {
        *self = reset_round(*self);
    }

    // The node behind the reference after one slot in its state.
    pub fn tick(&mut self)
        requires { Spec.total self.old + 1 < 2 ^ 64 }
        ensures { self.new ≡ Spec.tick self.old }
    {
        *self = tick(*self);
    }
}
