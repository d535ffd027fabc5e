// The program: reads one line, and writes what `program` answers to it. `main` can carry no contract:
// that it hands over what was read, and writes what it was given, is for a reader to see.
#![tactic(auto)]

use listing::write::LISTING_SIZE;
use streams::{give_answer, take_input};

// How much is read. A readable line is far shorter, so a line that is longer is unreadable whatever
// follows.
const INPUT_SIZE: usize = 4096;

fn main(rt: HostRuntime) {
    let mut input = [0u8; INPUT_SIZE];
    let Some(n) = take_input(&rt, "ctsim", &mut input, |got| got.contains(&b'\n')) else {
        return;
    };
    let mut out = [0u8; LISTING_SIZE];
    let size = program::answer(&input[..n], &mut out);
    give_answer(&rt, "ctsim", &out[..size]);
}
