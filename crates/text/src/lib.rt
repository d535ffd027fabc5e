// Texts as bytes: numbers read and written, words and numbers laid behind each other.
#![tactic(auto)]

pub mod numeral;
pub mod overlay;
