// Which of two filed runs supersedes the other: of two files that agree in every input field but the slot limit, the one
// with the larger limit.
#![tactic(auto)]

ghost use Rattle.std.specs.Prelude.{◌≡◌, ◌+◌, ◌≤◌, length};
ghost use Rattle.archive.specs.Bytes.{same_bytes};
ghost use Rattle.archive_supersede.specs.Supersede.{limit_in, other_fields, records_place, which_supersedes, returned, part_of, superseding_part};

use archive::bytes::{NUMBER_SIZE, nth_number};
use archive::layout::{Filed, INPUT_COUNT, Section};
use config::refusal::Refusal;

// A part of a file: where it begins, and how many bytes it has.
#[derive(Clone, Copy)]
pub struct Place {
    pub offset: usize,
    pub length: usize,
}

// Which file supersedes, with the place of its records.
#[derive(Clone, Copy)]
pub enum Superseding {
    First(Place),
    Second(Place),
}

// The slot limit is the last of the input fields. It stands behind the others.
const LIMIT_FIELD: usize = INPUT_COUNT - 1;

const LIMIT_AT: usize = NUMBER_SIZE * LIMIT_FIELD;

fn limit_in(file: Filed) -> u64
    ensures { result ≡ limit_in file.entry.bytes.now }
{
    nth_number(file.part(Section::Inputs), LIMIT_FIELD)
}

// Whether two files agree in every input field but the slot limit.
#[tactic(auto, unfolding(archive::specs::Bytes::same_bytes))]
fn same_other_fields(first: Filed, second: Filed) -> bool
    ensures { result ≡ same_bytes (other_fields first.entry.bytes.now) (other_fields second.entry.bytes.now) }
{
    let first = first.part(Section::Inputs);
    let second = second.part(Section::Inputs);
    &first[..LIMIT_AT] == &second[..LIMIT_AT]
}

fn records_place(file: Filed) -> Place
    ensures { result ≡ records_place file.entry.bytes.now }
{
    Place {
        offset: file.offset_of(Section::Records),
        length: file.length_of(Section::Records),
    }
}

// Which of two files supersedes the other.
pub fn which_supersedes(first: &[u8], second: &[u8]) -> Result<Superseding, Refusal>
    ensures { result ≡ which_supersedes first.now second.now }
{
    let first = Filed::of(first)?;
    let second = Filed::of(second)?;
    if !same_other_fields(first, second) {
        return Err(Refusal::FieldsDiffer);
    }
    if limit_in(first) < limit_in(second) {
        Ok(Superseding::Second(records_place(second)))
    } else {
        Ok(Superseding::First(records_place(first)))
    }
}

// The part of a file at a place.
fn part_at<'a>(file: &'a [u8], place: Place) -> &'a [u8]
    requires { place.offset + place.length ≤ length file.now }
    ensures { returned result ≡ part_of file.entry place }
{
    let start = place.offset;
    let end = start + place.length;
    &file[start..end]
}

// The records of the file that supersedes: a part of one of the two files. A refused pair gives an empty part of the first.
pub fn supersede<'a>(first: &'a [u8], second: &'a [u8]) -> &'a [u8]
    ensures { returned result ≡ superseding_part first.entry second.entry }
{
    match which_supersedes(first, second) {
        Ok(Superseding::First(place)) => part_at(first, place),
        Ok(Superseding::Second(place)) => part_at(second, place),
        Err(_) => &first[0..0],
    }
}
