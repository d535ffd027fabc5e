// What a run is by the rules: what is seen of it, the questions put to an input, the run's definition and the
// theorems on it.
#![tactic(auto)]

pub mod answer;
pub mod networks;
pub mod questions;
