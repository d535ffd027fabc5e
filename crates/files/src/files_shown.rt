// Prints the file of a run: its length and its bytes, or the refusal.
ghost use Rattle.std.specs.Prelude.{◌≤◌, length};

use super::made::{FILE_SIZE, MARK, at_most, file_line, read_number};
use config::refusal::Refusal;
use line::read::{field, field_start, read_line};
use std::io;

// So many zeros in a row, or more, are printed as their number.
const LEAST_RUN: usize = 4;

// How many zeros stand before the first other byte.
fn zeros(bytes: &[u8]) -> usize
    ensures { result ≤ length bytes.now }
{
    bytes
        .iter()
        .position(|&byte| byte != 0)
        .unwrap_or(bytes.len())
}

pub fn put_bytes(rt: &impl Print, bytes: &[u8]) -> io::Result<()> {
    let mut rest = bytes;
    // A step takes one byte or a run of zeros, so how many steps there are is not known before.
    while let [first, behind @ ..] = rest {
        let count = zeros(rest);
        if count < LEAST_RUN {
            print!(rt; "{first:02x}")?;
            rest = behind;
        } else {
            print!(rt; "z{count}.")?;
            rest = &rest[count..];
        }
    }
    Ok(())
}

fn put_file(rt: &impl Print, file: &[u8]) -> io::Result<()> {
    print!(rt; "file {} ", file.len())?;
    put_bytes(rt, file)
}

// Files what `file ROOM LENGTH LINE` asks for, into so many bytes.
fn file_asked(line: &[u8], file: &mut [u8; FILE_SIZE]) -> Result<usize, Refusal> {
    let room = read_number(field(line, 1))?;
    let length = read_number(field(line, 2))?;
    let at = field_start(line, 3);
    let asked = read_line(&line[at..])?;
    let size = at_most(length, FILE_SIZE);
    file_line(asked, room, &mut file[..size])
}

// The answer to `file ROOM LENGTH LINE`.
pub fn show_file(rt: &impl Print, line: &[u8]) -> io::Result<()> {
    let mut file = [MARK; FILE_SIZE];
    match file_asked(line, &mut file) {
        Ok(size) => put_file(rt, &file[..size.min(FILE_SIZE)]),
        Err(refusal) => print!(rt; "{refusal}"),
    }
}
