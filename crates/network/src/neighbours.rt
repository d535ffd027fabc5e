// The row of a node of a topology, as a union of sets of its neighbours.
ghost use Rattle.std.specs.Prelude.{◌≡◌, not, ◌&&◌, ◌||◌, ◌+◌, ◌≤◌, ◌<◌, eqb, ltb};
ghost use Rattle.config.specs.Limits.{max_nodes, max_branching};
ghost use Rattle.network.specs.Graph.{set_of};
ghost use Rattle.network.specs.Topology.{beside, first_and_last, child, linked_in, topology_row};
ghost use Rattle.network.specs.Builders.{right_or_below, Sized};

use crate::graph::full_set;
use crate::topology::Topology;

// Node `at` of so many.
#[derive(Clone, Copy)]
pub struct Place {
    pub nodes: usize,
    pub at: usize,
    pub ghost few: { nodes ≤ max_nodes },
    pub ghost inside: { at < nodes },
}

impl Place {
    // Node j alone, where there is one.
    fn only(self, j: usize) -> u64
        ensures { result ≡ set_of self.nodes (eqb j) }
    {
        if j < self.nodes { 1 << j } else { 0 }
    }

    // The node k back.
    fn back(self, k: usize) -> u64
        ensures { result ≡ set_of self.nodes (λ j. eqb (j + k) self.at) }
    {
        if k <= self.at {
            self.only(self.at - k)
        } else {
            0
        }
    }

    // The nodes before and after it.
    fn beside(self) -> u64
        ensures { result ≡ set_of self.nodes (beside self.at) }
    {
        self.only(self.at + 1) | self.back(1)
    }

    // All nodes but this one.
    fn others(self) -> u64
        ensures { result ≡ set_of self.nodes (λ j. not (eqb self.at j)) }
    {
        full_set(self.nodes) - (1 << self.at)
    }

    // Node 0, and of node 0 all others.
    fn star(self) -> u64
        ensures { result ≡ set_of self.nodes (linked_in Topology.Star self.nodes self.at) }
    {
        if self.at == 0 {
            self.others()
        } else {
            self.only(0)
        }
    }

    // In rows of c, the nodes to the right and below.
    fn right_and_below(self, c: usize) -> u64
        requires { (0 < c) × (c ≤ max_nodes) }
        ensures { result ≡ set_of self.nodes (right_or_below c self.at) }
    {
        let below = self.only(self.at + c);
        if self.at % c + 1 < c {
            self.only(self.at + 1) | below
        } else {
            below
        }
    }

    // The nodes to the left and above.
    fn left_and_above(self, c: usize) -> u64
        requires { (0 < c) × (c ≤ max_nodes) }
        ensures { result ≡ set_of self.nodes (λ j. right_or_below c j self.at) }
    {
        let above = self.back(c);
        if 0 < self.at % c {
            self.back(1) | above
        } else {
            above
        }
    }

    // The node to which the link goes that closes a ring, at its first and its last node.
    fn closing(self) -> u64
        ensures { result ≡ set_of self.nodes (λ j. ltb 2 self.nodes && (first_and_last self.nodes self.at j || first_and_last self.nodes j self.at)) }
    {
        if self.nodes <= 2 {
            return 0;
        }
        if self.at == 0 {
            return self.only(self.nodes - 1);
        }
        if self.at + 1 == self.nodes {
            self.only(0)
        } else {
            0
        }
    }

    // Its children in a tree with branching factor b.
    fn children(self, b: usize) -> u64
        requires { b ≤ max_branching }
        ensures { result ≡ set_of self.nodes (child b self.at) }
    {
        let first = self.at * b + 1;
        let end = first + b;
        if self.nodes <= first {
            return 0;
        }
        if end < self.nodes {
            return full_set(end) - full_set(first);
        }
        full_set(self.nodes) - full_set(first)
    }

    // The node whose child it is.
    fn parent(self, b: usize) -> u64
        ensures { result ≡ set_of self.nodes (λ j. child b j self.at) }
    {
        if b == 0 {
            return 0;
        }
        if self.at == 0 {
            0
        } else {
            self.only((self.at - 1) / b)
        }
    }

    // Its row.
    pub fn row(self, t: Topology) -> u64
        requires { Sized t }
        ensures { result ≡ topology_row t self.nodes self.at }
    {
        match t {
            Topology::FullMesh => self.others(),
            Topology::Line => self.beside(),
            Topology::Star => self.star(),
            Topology::Grid(c) => self.right_and_below(c) | self.left_and_above(c),
            Topology::Ring => self.beside() | self.closing(),
            Topology::Tree(b) => self.children(b) | self.parent(b),
        }
    }
}
