// Units and graphs: what the flood and the run rest on.
#![tactic(auto)]

pub mod distance;
pub mod graph;
pub mod members;
mod neighbours;
pub mod questions;
pub mod topology;
pub mod units;
