// One node of all, altered in place. Every other node is what it was.
ghost use Rattle.std.specs.Prelude.{◌≡◌, ◌<◌, ◌+◌, ◌^◌, set};
ghost use Rattle.std.specs.Fn.{FnOnceReturnsAtMut};
ghost use Rattle.config.specs.Limits.{max_nodes};
ghost use Rattle.phy.specs.declared.node.Node.{Node};
ghost use Rattle.phy.specs.Node as Spec;
ghost use Rattle.phy.specs.Slot.{at, altered};

use super::node::Node;
use config::limits::MAX_NODES;

// The nodes once f was lent node i, and no other. That i is an index is asked here and below: a type for one would be made at
// each call from a number that is asked the same.
fn lent_at<F: FnOnce(&mut Node)>(nodes: [Node; MAX_NODES], i: usize, f: F) -> [Node; MAX_NODES]
    requires { (i < max_nodes) × ((node : _) → node.now ≡ at nodes i → F.pre f node) }
    ensures { (after : Node) × FnOnceReturnsAtMut F.FnOnce f (at nodes i) tt after × (result ≡ set nodes i after) }
{
    let mut next = nodes;
    f(&mut next[i]);
    next
}

// The nodes as a round begins for node i alone.
pub fn reset_round_at(nodes: [Node; MAX_NODES], i: usize) -> [Node; MAX_NODES]
    requires { i < max_nodes }
    ensures { result ≡ altered Spec.reset_round i nodes }
{
    lent_at(nodes, i, |node| node.reset_round())
}

// The nodes after one slot of node i alone.
pub fn tick_at(nodes: [Node; MAX_NODES], i: usize) -> [Node; MAX_NODES]
    requires { (i < max_nodes) × (Spec.total (at nodes i) + 1 < 2 ^ 64) }
    ensures { result ≡ altered Spec.tick i nodes }
{
    lent_at(nodes, i, |node| node.tick())
}
