// The rounds of a run, up to its end.
#![tactic(auto)]

pub mod run;
mod survey;
