// The archive file: its bytes, its layout, its input fields, and a reader that walks its sections.
#![tactic(auto)]

pub mod bytes;
pub mod inputs;
pub mod layout;
pub mod reader;
