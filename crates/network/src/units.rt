// Three of the counts of rule 1.2, after ctsim's event.rs. Each is a type of its own, so that none
// can be passed where another is meant.

// A node's number, from 0.
#[derive(Clone, Copy, PartialEq, Eq, PartialOrd, Ord)]
pub struct NodeId(pub usize);

// A proposal's number, from 0. Of any number: C's and a text's numbers are made Terms before they are asked, so contracts ask
// `< max_terms`.
#[derive(Clone, Copy, PartialEq, Eq, PartialOrd, Ord)]
pub struct Term(pub u64);

// A slot's number, from 0: the unit of time.
#[derive(Clone, Copy)]
pub struct Slot(pub u64);
