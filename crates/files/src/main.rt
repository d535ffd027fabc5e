// Answers every line of its input about archive files as `oracle/` does: `file ROOM LENGTH LINE` with the file of
// LINE's run, with room for so many snapshots and in so many lent bytes, `check HOW N ROOM LINE` with what the check
// and the reader say of such a file once it is damaged, and `supersede HOW N ROOM HOW N ROOM LIMIT LINE` with which
// of two such files, of LINE and of LINE with another slot limit, supersedes, and with the part that is handed out.
// The lines are about each topology and each end, about the edges of 18 and of the questions before it, about a bit
// of each field and section, about each rule of the layout, and about slot limits before, at and behind a run's end.
// `stdout` is what `oracle/`'s program `answer` prints for `stdin`.
#![tactic(auto)]

mod checks_shown;
mod damages;
mod files_shown;
mod made;
mod pairs_shown;

use checks_shown::show_check;
use files_shown::show_file;
use line::read::field;
use pairs_shown::show_pair;
use std::io;
use streams::answer_lines;
use streams::unfailing::Unfailing;

const INPUT_SIZE: usize = 65536;

// The length of a line's first word, if it is `file` or `check`.
const FILE_WORD: usize = 4;

const CHECK_WORD: usize = 5;

fn answer(rt: &impl Print, line: &[u8]) -> io::Result<()> {
    match field(line, 0).len() {
        FILE_WORD => show_file(rt, line)?,
        CHECK_WORD => show_check(rt, line)?,
        _ => show_pair(rt, line)?,
    }
    println!(rt; "")
}

// A write that fails ends nothing, and nobody is told: what is printed is compared.
fn main(rt: HostRuntime) {
    let to = Unfailing(&rt);
    let _ = answer_lines(&rt, &mut [0u8; INPUT_SIZE], |line| answer(&to, line));
}
