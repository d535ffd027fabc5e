// The line that the program reads, and the configuration that it asks for.
#![tactic(auto)]

pub mod configured;
pub mod read;
