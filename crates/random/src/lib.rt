// The draws of a seed: ChaCha, a draw's fraction, and whether a reception succeeds.
#![tactic(auto)]

pub mod chacha;
pub mod draws;
pub mod reception;
pub mod seed;
pub mod word;
