// The run of the pipeline: what it answers, what it leaves in the lent buffers, and its entry.
#![tactic(auto)]

pub mod buffers;
pub mod entries;
pub mod outcome;
