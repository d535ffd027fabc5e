// Prints what is said of a damaged file: `yes`, `no` or the refusal, and where the layout is kept, its sections.
use super::made::{FILE_SIZE, make_file, read_making};
use archive::layout::{SECTION_COUNT, put_parts};
use archive_check::check_file;
use config::refusal::Refusal;
use line::read::{field, field_start, read_line};
use std::io;

// Offset and length of each section.
const PARTS: usize = 2 * SECTION_COUNT;

fn put_verdict(rt: &impl Print, verdict: Result<bool, Refusal>) -> io::Result<()> {
    match verdict {
        Ok(true) => print!(rt; "yes"),
        Ok(false) => print!(rt; "no"),
        Err(refusal) => print!(rt; "{refusal}"),
    }
}

fn put_sections(rt: &impl Print, parts: &[u64; PARTS]) -> io::Result<()> {
    print!(rt; " sections")?;
    for part in parts {
        print!(rt; " {part}")?;
    }
    Ok(())
}

fn show_checked(rt: &impl Print, file: &[u8]) -> io::Result<()> {
    put_verdict(rt, check_file(file))?;
    let mut parts = [0u64; PARTS];
    match put_parts(file, &mut parts) {
        Ok(()) => put_sections(rt, &parts),
        Err(_) => Ok(()),
    }
}

// Makes the file of `check HOW N ROOM LINE`.
fn make_checked(line: &[u8], file: &mut [u8]) -> Result<usize, Refusal> {
    let making = read_making(field(line, 1), field(line, 2), field(line, 3))?;
    let at = field_start(line, 4);
    make_file(read_line(&line[at..])?, making, file)
}

// The answer to `check HOW N ROOM LINE`.
pub fn show_check(rt: &impl Print, line: &[u8]) -> io::Result<()> {
    let mut file = [0u8; FILE_SIZE];
    match make_checked(line, &mut file) {
        Ok(size) => show_checked(rt, &file[..size.min(FILE_SIZE)]),
        Err(refusal) => print!(rt; "{refusal}"),
    }
}
