// What a run counts, after ctsim's metrics.rs, and the ratios of two counts.
#![tactic(auto)]

pub mod ratio;
pub mod ratios;
pub mod summary;
pub mod totals;
