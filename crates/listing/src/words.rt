// A word or a space with a number behind it, laid over a lent buffer.
ghost use Rattle.std.specs.Prelude.{[], ◌∷◌, ◌++◌, ◌≤◌, length};
ghost use Rattle.text.specs.Overlay.{Lays, Room};
ghost use Rattle.text.specs.Text.{spelled};
ghost use Rattle.listing.specs.Listing.{labelled_most, spaced_most, word_most};

use text::overlay::Overlay;

// A short word with a number behind it.
pub fn put_labelled(over: &mut Overlay, word: &[u8], n: u64)
    requires { (length word.now ≤ word_most) × Room over.old.at labelled_most }
    ensures { Lays labelled_most (word.now ++ spelled n) over.old over.new }
{
    over.put_word(word);
    over.put_number(n);
}

// A space with a number behind it.
pub fn put_spaced(over: &mut Overlay, n: u64)
    requires { Room over.old.at spaced_most }
    ensures { Lays spaced_most ((32 ∷ []) ++ spelled n) over.old over.new }
{
    over.put(b' ');
    over.put_number(n);
}
