// Values as the numbers that a call has in C: the configuration, a summary, a ratio, a packet and its text, a sweep, an
// archive file.
#![tactic(auto)]

pub mod convert;
pub mod files;
pub mod numbers;
pub mod packets;
pub mod previews;
pub mod texts;
