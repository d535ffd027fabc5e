// The program: reads an archive file, and writes what the check says of it. `main` can carry no contract: that it
// hands over what was read, and writes what it was given, is for a reader to see.
#![tactic(auto)]

ghost use Rattle.text.specs.Overlay.{Written};
ghost use Rattle.listing.specs.Listing.{refusal_most};
ghost use Rattle.archive_check.specs.Check.{check_of};
ghost use Rattle.ctsim_check.specs.Verdict.{verdict_text};

use archive_check::check_file;
use listing::write::write_refusal;
use streams::{give_answer, take_input};
use text::overlay::write_word;

// The longest file that is taken: about 104,000 snapshots.
const FILE_MOST: usize = 4194304;

// One byte more is read, where there is one.
const INPUT_SIZE: usize = FILE_MOST + 1;

// No answer has more bytes: `refusal_most`.
const ANSWER_SIZE: usize = 31;

// Lays what the check says of a file over the start of a buffer, and says how many bytes that has.
fn answer(file: &[u8], out: &mut [u8]) -> usize
    ensures { Written refusal_most (verdict_text (check_of file.now)) out.old out.new result }
{
    match check_file(file) {
        Ok(true) => write_word(b"yes\n", out),
        Ok(false) => write_word(b"no\n", out),
        Err(refusal) => write_refusal(refusal.number(), out),
    }
}

// Checks the file on standard input, which is read into a lent buffer. A file that fills it is too long.
fn check_input(rt: &HostRuntime, input: &mut [u8]) {
    let Some(n) = take_input(rt, "ctsim-check", input, |_| false) else {
        return;
    };
    if input.len() <= n {
        let _ = eprintln!(rt; "ctsim-check: more than {FILE_MOST} bytes were read");
        return;
    }
    let mut out = [0u8; ANSWER_SIZE];
    let size = answer(&input[..n], &mut out);
    give_answer(rt, "ctsim-check", &out[..size]);
}

fn main(rt: HostRuntime) {
    let mut input = [0u8; INPUT_SIZE];
    check_input(&rt, &mut input);
}
