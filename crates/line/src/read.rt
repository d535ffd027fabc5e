// The program's line: ten fields, separated by single spaces.
ghost use Rattle.std.specs.Prelude.{◌≡◌, [], ◌≤◌, length, drop, get_or};
ghost use Rattle.line.specs.Line.{bytes_before, fields, is_dash, read_fields, read_line, round_slots_of, space};

use config::refusal::Refusal;
use text::numeral::{decimal, hexadecimal};

// A line that is readable has so many.
const LINE_FIELDS: usize = 10;

// What the line asks for. The loss rate is the bits of its f64.
#[derive(Clone, Copy)]
pub struct Line {
    pub topology: u64,
    pub first: u64,
    pub second: u64,
    pub repeats: u64,
    pub round_slots: Option<u64>,
    pub loss: u64,
    pub seed: u64,
    pub proposals: u64,
    pub interval: u64,
    pub limit: u64,
}

// The bytes before the first `stop`.
pub fn part_before(s: &[u8], stop: u8) -> &[u8]
    ensures { result.now ≡ bytes_before stop s.now }
{
    s.split(|&byte| byte == stop).next().unwrap_or(&[])
}

// How many fields a line has.
fn field_count(line: &[u8]) -> usize
    ensures { result ≡ length (fields line.now) }
{
    line.split(|&byte| byte == b' ').count()
}

// Where field k starts, or the line's end: behind the fields before it, each with the space behind it. What stands from there
// on may itself have spaces, so it is not a field.
pub fn field_start(line: &[u8], k: usize) -> usize
    ensures { (result ≤ length line.now) × (bytes_before space (drop result line.now) ≡ get_or (fields line.now) k []) }
{
    let before: usize = line
        .split(|&byte| byte == b' ')
        .take(k)
        .map(|field| field.len() + 1)
        .sum();
    before.min(line.len())
}

// Field k of a line.
pub fn field(line: &[u8], k: usize) -> &[u8]
    ensures { result.now ≡ get_or (fields line.now) k [] }
{
    line.split(|&byte| byte == b' ').nth(k).unwrap_or(&[])
}

// Whether a text is `-`.
#[tactic(auto, unfolding(crate::specs::Line::is_dash))]
fn is_dash(text: &[u8]) -> bool
    ensures { result ≡ is_dash text.now }
{
    matches!(text, [b'-'])
}

// The round slots: `-` where they are absent, else a decimal.
#[tactic(auto, unfolding(crate::specs::Line::round_slots_of))]
fn round_slots(text: &[u8]) -> Option<Option<u64>>
    ensures { result ≡ round_slots_of text.now }
{
    if is_dash(text) {
        return Some(None);
    }
    decimal(text).map(Some)
}

// What the ten fields of a line stand for.
#[tactic(auto, unfolding(crate::specs::Line::read_fields, crate::specs::Line::four_decimals))]
fn read_fields(line: &[u8]) -> Option<Line>
    ensures { result ≡ read_fields (fields line.now) }
{
    Some(Line {
        topology: decimal(field(line, 0))?,
        first: decimal(field(line, 1))?,
        second: decimal(field(line, 2))?,
        repeats: decimal(field(line, 3))?,
        round_slots: round_slots(field(line, 4))?,
        loss: hexadecimal(field(line, 5))?,
        seed: decimal(field(line, 6))?,
        proposals: decimal(field(line, 7))?,
        interval: decimal(field(line, 8))?,
        limit: decimal(field(line, 9))?,
    })
}

// Reads the line that ends at the first newline or the end of the input.
#[tactic(auto, unfolding(crate::specs::Line::read_line))]
pub fn read_line(input: &[u8]) -> Result<Line, Refusal>
    ensures { result ≡ read_line input.now }
{
    let line = part_before(input, b'\n');
    if field_count(line) != LINE_FIELDS {
        return Err(Refusal::UnreadableLine);
    }
    read_fields(line).ok_or(Refusal::UnreadableLine)
}
