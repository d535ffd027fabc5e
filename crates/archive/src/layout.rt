// The layout of an archive file: the first byte, the directory, and the five sections that it names.
ghost use Rattle.std.specs.Prelude.{◌≡◌, List, ℕ, ◌+◌, ◌≤◌, true, false, length, MatchOption, MatchResult};
ghost use Rattle.archive.specs.Bytes.{number_in};
ghost use Rattle.archive.specs.Layout.{Answer, section_count, section_number, offset_size, pair_at, first_offset, offset_in, length_in, in_order, lengths_fit, layout, layout_of, section_in, handed_out, parts_size, parts_told};

use super::bytes::{NUMBER_SIZE, number_of};
use config::limits::{LOG_SIZE, RECORD_SIZE, SNAPSHOT_SIZE};
use config::refusal::Refusal;
use metrics::totals::TOTAL_COUNT;

pub const MARKER: u8 = 5;

// A pair of the directory: offset and length, of so many bytes each.
pub const OFFSET_SIZE: usize = 4;

const PAIR_SIZE: usize = 2 * OFFSET_SIZE;

pub const SECTION_COUNT: usize = 5;

pub const FIRST_OFFSET: usize = 1 + PAIR_SIZE * SECTION_COUNT;

// How many input fields a file has.
pub const INPUT_COUNT: usize = 10;

// The bytes of the input fields, of the totals, of a record and of a snapshot.
pub const INPUTS_SIZE: usize = NUMBER_SIZE * INPUT_COUNT;

pub const TOTALS_SIZE: usize = NUMBER_SIZE * TOTAL_COUNT;

pub const RECORD_BYTES: usize = NUMBER_SIZE * RECORD_SIZE;

pub const SNAPSHOT_BYTES: usize = NUMBER_SIZE * SNAPSHOT_SIZE;

// The sections, in the file's order.
#[derive(Clone, Copy, PartialEq, Eq, Debug)]
pub enum Section {
    Inputs,
    Totals,
    Records,
    Snapshots,
    Logs,
}

impl Section {
    // All of them, each at its number.
    const ALL: [Section; SECTION_COUNT] = [
        Section::Inputs,
        Section::Totals,
        Section::Records,
        Section::Snapshots,
        Section::Logs,
    ];

    // Where the directory has its pair.
    pub fn pair_at(self) -> usize
        ensures { result ≡ pair_at (section_number self) }
    {
        1 + PAIR_SIZE * (self as usize)
    }

    // The section with a number, if one has it.
    fn at(i: usize) -> Option<Section>
        ensures { MatchOption result (section_count ≤ i) (λ s. section_number s ≡ i) }
    {
        Section::ALL.get(i).copied()
    }
}

// What the directory says at a place.
fn told_at(file: &[u8], at: usize) -> usize
    requires { at + offset_size ≤ length file.now }
    ensures { result ≡ number_in offset_size at file.now }
{
    number_of(&file[at..at + OFFSET_SIZE]) as usize
}

// Where a section begins, by its pair. Down to `lengths_fit` a file need not keep the layout, so it is no `Filed`, and a type
// for one that has a directory would serve `keeps_layout` alone.
pub fn offset_in(file: &[u8], section: Section) -> usize
    requires { first_offset ≤ length file.now }
    ensures { result ≡ offset_in file.now (section_number section) }
{
    told_at(file, section.pair_at())
}

// How many bytes a section has, by its pair.
pub fn length_in(file: &[u8], section: Section) -> usize
    requires { first_offset ≤ length file.now }
    ensures { result ≡ length_in file.now (section_number section) }
{
    told_at(file, section.pair_at() + OFFSET_SIZE)
}

// Whether each section starts where the one before ends, from behind the directory to the file's end.
fn in_order(file: &[u8]) -> bool
    requires { first_offset ≤ length file.now }
    ensures { result ≡ in_order file.now }
{
    let mut end = FIRST_OFFSET;
    for &section in &Section::ALL {
        if offset_in(file, section) != end {
            return false;
        }
        end += length_in(file, section);
    }
    end == file.len()
}

// Whether the sections have the lengths that belong to them.
#[tactic(auto, unfolding(crate::specs::Layout::lengths_fit))]
fn lengths_fit(file: &[u8]) -> bool
    requires { first_offset ≤ length file.now }
    ensures { result ≡ lengths_fit file.now }
{
    length_in(file, Section::Inputs) == INPUTS_SIZE
        && length_in(file, Section::Totals) == TOTALS_SIZE
        && length_in(file, Section::Records) % RECORD_BYTES == 0
        && length_in(file, Section::Snapshots) % SNAPSHOT_BYTES == 0
        && length_in(file, Section::Logs) == LOG_SIZE
}

#[tactic(auto, unfolding(crate::specs::Layout::layout))]
fn keeps_layout(file: &[u8]) -> bool
    ensures { result ≡ layout file.now }
{
    FIRST_OFFSET <= file.len() && file[0] == MARKER && in_order(file) && lengths_fit(file)
}

// A file that keeps the layout.
#[derive(Clone, Copy)]
pub struct Filed<'a> {
    pub bytes: &'a [u8],
    pub ghost kept: { layout bytes.now ≡ true },
}

impl<'a> Filed<'a> {
    // Asks a file for the layout.
    pub fn of(file: &'a [u8]) -> Result<Filed<'a>, Refusal>
        ensures { MatchResult result (λ f. f.bytes ≡ file.entry)
            (λ r. (layout file.now ≡ false) × (r ≡ Refusal.BrokenLayout)) }
    {
        if keeps_layout(file) {
            Ok(Filed { bytes: file })
        } else {
            Err(Refusal::BrokenLayout)
        }
    }

    // Where a section begins.
    pub fn offset_of(self, section: Section) -> usize
        ensures { result ≡ offset_in self.entry.bytes.now (section_number section) }
    {
        offset_in(self.bytes, section)
    }

    // How many bytes a section has.
    pub fn length_of(self, section: Section) -> usize
        ensures { result ≡ length_in self.entry.bytes.now (section_number section) }
    {
        length_in(self.bytes, section)
    }

    // The part of the file that a section is.
    pub fn part(self, section: Section) -> &'a [u8]
        ensures { result.now ≡ section_in self.entry.bytes.now (section_number section) }
    {
        let start = self.offset_of(section);
        let end = start + self.length_of(section);
        &self.bytes[start..end]
    }
}

pub fn layout_of(file: &[u8]) -> Result<(), Refusal>
    ensures { result ≡ layout_of file.now }
{
    Filed::of(file)?;
    Ok(())
}

// The part of the file that section i is. Nothing behind the last section, nor of a file that breaks the layout. By its number,
// as a reader goes on behind the last; a `Section` would ask more of callers.
pub fn section_of(file: &[u8], i: usize) -> &[u8]
    ensures { result.now ≡ handed_out file.now i }
{
    let Some(section) = Section::at(i) else {
        return &file[..0];
    };
    match Filed::of(file) {
        Ok(filed) => filed.part(section),
        Err(_) => &file[..0],
    }
}

// Offset and length of each section, into the first ten places of `parts`. A refusal leaves them as they were.
pub fn put_parts(file: &[u8], parts: &mut [u64]) -> Result<(), Refusal>
    requires { parts_size ≤ length parts.old }
    ensures { ◌≡◌ {A = Answer × List ℕ} (result, parts.new) (parts_told file.now parts.old) }
{
    let filed = Filed::of(file)?;
    // By index, as section i has the places 2i and 2i + 1.
    for (i, &section) in Section::ALL.iter().enumerate() {
        parts[2 * i] = filed.offset_of(section) as u64;
        parts[2 * i + 1] = filed.length_of(section) as u64;
    }
    Ok(())
}
