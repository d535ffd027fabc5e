// A reader of an archive file: it holds the file and walks its sections, and hands out a part of the file for each.
ghost use Rattle.std.specs.Prelude.{◌≡◌};
ghost use Rattle.archive.specs.Layout.{layout_of, handed_out, behind};

use super::layout::{SECTION_COUNT, layout_of, section_of};
use config::refusal::Refusal;

// The file, and the number of the section at hand. By its number, as a reader goes on behind the last section.
#[derive(Clone, Copy)]
pub struct Reader<'a> {
    pub file: &'a [u8],
    pub at: usize,
}

// A reader at the first section. No methods, here and below: the project's scope asks for a struct and thin functions.
pub fn open<'a>(file: &'a [u8]) -> Reader<'a>
    ensures { (result.file ≡ file.entry) × (result.at ≡ 0) }
{
    Reader { file, at: 0 }
}

// Whether the file keeps the layout.
pub fn layout<'a>(r: Reader<'a>) -> Result<(), Refusal>
    ensures { result ≡ layout_of r.entry.file.now }
{
    layout_of(r.file)
}

// The section at hand.
pub fn section<'a>(r: Reader<'a>) -> &'a [u8]
    ensures { result.now ≡ handed_out r.entry.file.now r.entry.at }
{
    section_of(r.file, r.at)
}

// The number of the section behind this one; behind the last there is none.
fn place_behind(at: usize) -> usize
    ensures { result ≡ behind at }
{
    if at < SECTION_COUNT { at + 1 } else { at }
}

// The same file, at the section behind.
pub fn next<'a>(r: Reader<'a>) -> Reader<'a>
    ensures { (result.file ≡ r.entry.file) × (result.at ≡ behind r.entry.at) }
{
    let at = place_behind(r.at);
    Reader { file: r.file, at }
}

// The input fields of a file: what a reader hands out first.
pub fn inputs_of(file: &[u8]) -> &[u8]
    ensures { result.now ≡ handed_out file.now 0 }
{
    section(open(file))
}
