// The listing that the program prints.
#![tactic(auto)]

mod words;
pub mod write;
