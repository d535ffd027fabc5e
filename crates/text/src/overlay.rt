// Text laid over a lent buffer: bytes, words and numbers behind each other.
ghost use Rattle.std.specs.Prelude.{◌≡◌, [], ◌∷◌, ◌≤◌, length, slice_set};
ghost use Rattle.std.proofs.lemmas.List.Edits.{sets};
ghost use Rattle.text.specs.Overlay.{Lays, Room, Written};
ghost use Rattle.text.specs.Text.{number_most, spelled};

use crate::numeral::MAX_DIGITS;

// Text that is laid over a lent buffer. What lies past its end is dropped, and the place goes on.
// `Room`, that the place stays below 2^64, is no ghost field: each writer needs room for as many bytes as its text may have,
// here and in `wire` and `listing`.
#[derive(Drop)]
pub struct Overlay<'a> {
    pub out: &'a mut [u8],
    pub at: usize,
}

// A byte at a place of a buffer, if the buffer reaches so far.
// By the buffer's length: std's `get_mut` doesn't promise that a buffer without such a place stays as it is.
fn store(out: &mut [u8], at: usize, byte: u8)
    ensures { out.new ≡ slice_set out.old at byte }
{
    if at < out.len() {
        out[at] = byte;
    }
}

impl Overlay<'_> {
    // One byte.
    pub fn put(&mut self, byte: u8)
        requires { Room self.old.at 1 }
        ensures { Lays 1 (byte ∷ []) self.old self.new }
    {
        store(self.out, self.at, byte);
        self.at += 1;
    }

    // A word that the buffer may end in.
    #[inline(never)]
    fn put_bytes(&mut self, word: &[u8])
        requires { Room self.old.at (length word.now) }
        ensures { Lays (length word.now) word.now self.old self.new }
    {
        // A place of its own: with the struct's place each byte would wait for the one before.
        // It is counted on, as an index would need the start added to it for each byte.
        let mut at = self.at;
        for &byte in word {
            store(self.out, at, byte);
            at += 1;
        }
        self.at = at;
    }

    // A word. One that fits is copied whole, which takes less time than byte by byte.
    #[inline(always)]
    pub fn put_word(&mut self, word: &[u8])
        requires { Room self.old.at (length word.now) }
        ensures { Lays (length word.now) word.now self.old self.new }
    {
        let at = self.at;
        let end = at + word.len();
        if self.out.len() < end {
            self.put_bytes(word);
            return;
        }
        self.out[at..end].copy_from_slice(word);
        self.at = end;
    }

    // A number in decimal.
    pub fn put_number(&mut self, n: u64)
        requires { Room self.old.at number_most }
        ensures { Lays number_most (spelled n) self.old self.new }
    {
        if n < 10 {
            self.put(b'0' + n as u8);
            return;
        }
        // From the last digit on, as how many there are is not known before. A call for each digit takes longer.
        let mut digits = [0u8; MAX_DIGITS];
        let mut first = MAX_DIGITS - 1;
        let mut rest = n;
        while 10 <= rest {
            digits[first] = b'0' + (rest % 10) as u8;
            first -= 1;
            rest /= 10;
        }
        digits[first] = b'0' + rest as u8;
        self.put_word(&digits[first..]);
    }
}

// A word over the start of a buffer, and how many bytes it has.
#[tactic(auto, using(crate::proofs::Overlays::whole))]
pub fn write_word(word: &[u8], out: &mut [u8]) -> usize
    ensures { Written (length word.now) word.now out.old out.new result }
{
    let mut over = Overlay { out, at: 0 };
    over.put_word(word);
    over.at
}

// A text to the start of a buffer that it fits in.
#[tactic(auto, using(crate::proofs::Overlays::front_sets))]
pub fn copy(text: &[u8], out: &mut [u8])
    requires { length text.now ≤ length out.old }
    ensures { out.new ≡ sets out.old 0 text.now }
{
    out[..text.len()].copy_from_slice(text);
}
