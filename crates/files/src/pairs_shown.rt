// Prints which of two files supersedes, with the part of it that is handed out, or the refusal.
use super::files_shown::put_bytes;
use super::made::{FILE_SIZE, make_file, read_making, read_number};
use archive_supersede::{Place, Superseding, supersede, which_supersedes};
use config::refusal::Refusal;
use line::read::{Line, field, field_start, read_line};
use std::io;

fn put_part(rt: &impl Print, place: Place, part: &[u8]) -> io::Result<()> {
    print!(rt; " {} {}", place.offset, place.length)?;
    if part.is_empty() {
        return Ok(());
    }
    print!(rt; " ")?;
    put_bytes(rt, part)
}

fn show_superseding(rt: &impl Print, first: &[u8], second: &[u8]) -> io::Result<()> {
    let part = supersede(first, second);
    match which_supersedes(first, second) {
        Ok(Superseding::First(place)) => {
            print!(rt; "first")?;
            put_part(rt, place, part)
        }
        Ok(Superseding::Second(place)) => {
            print!(rt; "second")?;
            put_part(rt, place, part)
        }
        Err(refusal) => print!(rt; "{refusal} part {}", part.len()),
    }
}

// Makes the files of `supersede HOW N ROOM HOW N ROOM LIMIT LINE`: of LINE, and of LINE with the other limit.
fn make_pair(line: &[u8], first: &mut [u8], second: &mut [u8]) -> Result<(usize, usize), Refusal> {
    let making = read_making(field(line, 1), field(line, 2), field(line, 3))?;
    let other_making = read_making(field(line, 4), field(line, 5), field(line, 6))?;
    let limit = read_number(field(line, 7))?;
    let at = field_start(line, 8);
    let asked = read_line(&line[at..])?;
    let other = Line { limit, ..asked };
    let size = make_file(asked, making, first)?;
    let other_size = make_file(other, other_making, second)?;
    Ok((size, other_size))
}

// The answer to `supersede HOW N ROOM HOW N ROOM LIMIT LINE`.
pub fn show_pair(rt: &impl Print, line: &[u8]) -> io::Result<()> {
    let mut first = [0u8; FILE_SIZE];
    let mut second = [0u8; FILE_SIZE];
    match make_pair(line, &mut first, &mut second) {
        Ok((size, other_size)) => show_superseding(
            rt,
            &first[..size.min(FILE_SIZE)],
            &second[..other_size.min(FILE_SIZE)],
        ),
        Err(refusal) => print!(rt; "{refusal}"),
    }
}
