// The file that a line asks for, and the words that several answers have.
ghost use Rattle.std.specs.Prelude.{◌≤◌};

use super::damages::{Damage, MOST_GROWTH, damaged};
use archive::inputs::Inputs;
use archive_writer::file_topology;
use config::Config;
use config::limits::{LOG_SIZE, RECORDS_SIZE, SNAPSHOT_SIZE};
use config::refusal::Refusal;
use line::read::Line;
use text::numeral::decimal;

// Room for more snapshots counts as room for so many: the lines' runs take fewer.
const MOST_ROOM: usize = 64;

const SNAPSHOTS_SIZE: usize = SNAPSHOT_SIZE * MOST_ROOM;

// More bytes than any file of so many snapshots has.
pub const FILE_SIZE: usize = 8192;

// What the buffers hold before a run. It is not 0, so that zeros of a file are the writer's.
pub const MARK: u8 = 0xa5;

// Also in `replay`: programs share the libraries alone, and none of them is about this.
pub fn at_most(a: u64, b: usize) -> usize
    ensures { result ≤ b }
{
    a.min(b as u64) as usize
}

pub fn read_number(text: &[u8]) -> Result<u64, Refusal> {
    decimal(text).ok_or(Refusal::UnreadableLine)
}

// Files the run of a line, with room for so many snapshots.
pub fn file_line(line: Line, room: u64, file: &mut [u8]) -> Result<usize, Refusal> {
    let mut logs = [MARK; LOG_SIZE];
    let mut records = [u64::from(MARK); RECORDS_SIZE];
    let mut snapshots = [u64::from(MARK); SNAPSHOTS_SIZE];
    // No `From<Line>` for `Inputs`: they are types of two crates, and neither uses the other.
    let inputs = Inputs {
        topology: line.topology,
        first: line.first,
        second: line.second,
        config: Config::from(line),
    };
    let size = SNAPSHOT_SIZE * at_most(room, MOST_ROOM);
    file_topology(
        inputs,
        &mut logs,
        &mut records,
        &mut snapshots[..size],
        file,
    )
}

// How a file is made: with room for so many snapshots, and damaged then.
#[derive(Clone, Copy)]
pub struct Making {
    pub room: u64,
    pub damage: Damage,
}

// No table of functions: two of the words have a bound of their own on N.
fn damage_of(how: &[u8], n: u64) -> Option<Damage> {
    match how {
        b"flip" => Some(Damage::Flip(n)),
        b"cut" => Some(Damage::Cut(n)),
        b"set" => Some(Damage::Set(n)),
        b"grow" if n <= MOST_GROWTH => Some(Damage::Grow(n)),
        b"whole" if n == 0 => Some(Damage::Whole),
        _ => None,
    }
}

// What HOW, N and ROOM ask for.
pub fn read_making(how: &[u8], n: &[u8], room: &[u8]) -> Result<Making, Refusal> {
    let n = read_number(n)?;
    let room = read_number(room)?;
    let damage = damage_of(how, n).ok_or(Refusal::UnreadableLine)?;
    Ok(Making { room, damage })
}

// Makes the file of a line's run, and says how many bytes it then has.
pub fn make_file(line: Line, making: Making, file: &mut [u8]) -> Result<usize, Refusal> {
    let size = file_line(line, making.room, file)?;
    if 0 < size && size <= file.len() {
        return Ok(damaged(file, size, making.damage));
    }
    Ok(size)
}
