// Distances by sets of nodes, a layer a step.
ghost use Rattle.std.specs.Prelude.{◌≡◌, ◌&&◌, ◌≤◌, ◌<◌, ◌^◌};
ghost use Rattle.network.specs.Graph.{has, set_of, any, linked, Checked};
ghost use Rattle.config.specs.Limits.{max_nodes};
ghost use Rattle.network.specs.Distance.{eccentricity, diameter, measured};

use crate::graph::{Graph, full_set};
use crate::members::members_of;
use crate::topology::checked_graph;
use crate::units::NodeId;
use config::refusal::Refusal;

impl Graph {
    // The nodes that a link joins to one of `latest`: the union of the rows of its nodes.
    fn linked_to(&self, latest: u64) -> u64
        requires { (self.now.nodes ≤ max_nodes) × (Checked self.now.rows self.now.nodes × (latest < 2 ^ self.now.nodes)) }
        ensures { result ≡ set_of self.now.nodes (λ j. any self.now.nodes (λ i. has latest i && linked self.now.rows i j)) }
    {
        let mut found = 0;
        for t in members_of(latest) {
            found |= self.rows[t];
        }
        found
    }

    // The greatest finite distance from a: the number of steps in which the set of nodes reached still grows. A step looks
    // only at the nodes reached last: the rows of the others are in the set already.
    pub fn eccentricity(&self, a: NodeId) -> usize
        requires { (self.now.nodes ≤ max_nodes) × (Checked self.now.rows self.now.nodes × (a.0 < self.now.nodes)) }
        ensures { result ≡ eccentricity self.now.rows self.now.nodes a.0 }
    {
        let mut reached: u64 = 1 << a.0;
        let mut latest = reached;
        let mut k = 0;
        let all = full_set(self.nodes);
        // No index is counted: k is the answer, and how many steps there are is not known before.
        while reached != all {
            let next = reached | self.linked_to(latest);
            if next == reached {
                return k;
            }
            latest = next - reached;
            reached = next;
            k += 1;
        }
        k
    }

    // The greatest finite distance. No distance reaches the number of nodes, so none is greater than one less.
    pub fn diameter(&self) -> usize
        requires { (self.now.nodes ≤ max_nodes) × Checked self.now.rows self.now.nodes }
        ensures { result ≡ diameter self.now.rows self.now.nodes }
    {
        let mut greatest = 0usize;
        // By the node's number, which the distances start from.
        for a in 0..self.nodes {
            let far = self.eccentricity(NodeId(a));
            if far + 1 == self.nodes {
                return far;
            }
            greatest = greatest.max(far);
        }
        greatest
    }
}

// The diameter of n nodes with the given rows, as `checked_graph` is given them, after questions 2 and 4.
pub fn measure(rows: &[u32], n: u64) -> Result<usize, Refusal>
    ensures { result ≡ measured rows.now n }
{
    // By reference: a graph that goes up by `?` is copied twice.
    match &checked_graph(rows, n) {
        Ok(graph) => Ok(graph.diameter()),
        Err(refusal) => Err(*refusal),
    }
}
