// Graphs as rows: a row is a node's set of neighbours, bit j for node j. Inside, sets are 64 bits wide. A set is
// a word and no type: C, rows and packets give it as a number, and definitions reckon with it.
ghost use Rattle.std.specs.Prelude.{◌≡◌, ◌-◌, ◌^◌, ◌≤◌, ◌<◌, length, get_or};
ghost use Rattle.network.specs.Graph.{has, backed, row_backed, rows_right, widened};
ghost use Rattle.config.specs.Limits.{set_bits, max_nodes};

use crate::members::members_of;
use crate::units::NodeId;
use config::limits::{MAX_NODES, SET_BITS};

// Whether the set has this number, a node's or a term's.
#[tactic(auto, unfolding(crate::specs::Graph::has))]
pub fn has(set: u64, at: usize) -> bool
    requires { at < set_bits }
    ensures { result ≡ has set at }
{
    (set >> at) % 2 == 1
}

// The set of the nodes below n: a word with n ones.
pub fn full_set(n: usize) -> u64
    requires { n ≤ set_bits }
    ensures { result ≡ 2 ^ n - 1 }
{
    if n < SET_BITS { (1 << n) - 1 } else { u64::MAX }
}

// A graph as a run takes it: the rows as sets of 64 bits, and empty ones from the number of nodes on. There is no heap, so the
// rows are an array with the number beside it. No ghost field holds what methods here and in distance.rt ask for, `nodes ≤
// max_nodes` and `Checked rows nodes`: the definitions give a graph of any numbers and refuse it then, as `unless (first_no ..)
// (graph_as t n)`, so they have no proof for it.
#[derive(Clone, Copy)]
pub struct Graph {
    pub nodes: usize,
    pub rows: [u64; MAX_NODES],
}

// The rows as 64-bit sets; the other places are empty.
pub fn widen(rows: &[u32]) -> [u64; MAX_NODES]
    requires { length rows.now ≤ max_nodes }
    ensures { result ≡ widened rows.now (length rows.now) }
{
    let mut wide = [0u64; MAX_NODES];
    // By index, as in `copy_rows`.
    for (i, &row) in rows.iter().enumerate() {
        wide[i] = row as u64;
    }
    wide
}

impl Graph {
    // Whether node i is in the row of each node of its own row.
    fn backed(&self, i: NodeId) -> bool
        requires { (self.now.nodes ≤ max_nodes) × ((i.0 < self.now.nodes) × (get_or self.now.rows i.0 0 < 2 ^ self.now.nodes)) }
        ensures { result ≡ backed self.now.rows self.now.nodes i.0 }
    {
        for j in members_of(self.rows[i.0]) {
            if !has(self.rows[j], i.0) {
                return false;
            }
        }
        true
    }

    // Question 4 of one row, where each link is looked for at its other end.
    fn row_backed(&self, i: NodeId) -> bool
        requires { (self.now.nodes ≤ max_nodes) × (i.0 < self.now.nodes) }
        ensures { result ≡ row_backed self.now.rows self.now.nodes i.0 }
    {
        let set = self.rows[i.0];
        if full_set(self.nodes) < set {
            return false;
        }
        !has(set, i.0) && self.backed(i)
    }

    // Whether the rows have no bit at or above the number of nodes, no own bit, and j in i exactly when i in j.
    pub fn rows_right(&self) -> bool
        requires { self.now.nodes ≤ max_nodes }
        ensures { result ≡ rows_right self.now.rows self.now.nodes }
    {
        // By the node's number, which the other nodes' rows are asked for.
        for i in 0..self.nodes {
            if !self.row_backed(NodeId(i)) {
                return false;
            }
        }
        true
    }
}
