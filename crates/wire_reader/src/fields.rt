// A packet's text read from the front: each reader answers the value that stands there, and the rest of the text behind it.
ghost use Rattle.std.specs.Prelude.{◌≡◌, cond, ◌+◌, ◌<◌, ◌^◌, leb, Some, None, IfSome, option_copied};
ghost use Rattle.config.specs.Limits.{max_nodes, max_terms, min_nodes};
ghost use Rattle.wire_reader.specs.Reader as Spec;
ghost use Rattle.wire_reader.specs.View.{seen};

use config::limits::{MAX_NODES, MAX_TERMS, MIN_NODES};
use network::units::{NodeId, Term};
use phy::packet::Piggyback;
use text::numeral::digit;
use text::overlay::Overlay;
use wire::put::{DATA_SIZE, put_data};

// A term is below this.
const TERMS: u64 = MAX_TERMS as u64;

// A packet's fields up to the sender, and its number of flags.
#[derive(Clone, Copy)]
pub struct Header {
    pub current_term: Term,
    pub last_accepted_term: Option<Term>,
    pub flags_bitmap: u64,
    pub flags: u64,
    pub nack_term: Option<Term>,
    pub sender: NodeId,
}

// A packet's fields behind the sender.
#[derive(Clone, Copy)]
pub struct Body {
    pub proposal_data: Option<Term>,
    pub piggyback: Option<Piggyback>,
}

// What stands behind a word, if the word is at the front. Inlined, as a call for each word takes longer.
#[inline(always)]
fn word<'a>(word: &[u8], text: &'a [u8]) -> Option<&'a [u8]>
    ensures { option_copied result ≡ Spec.behind word.now text.now }
{
    text.strip_prefix(word)
}

// A digit of base 10.
fn decimal_digit(text: &[u8]) -> Option<(u64, &[u8])>
    ensures reads { seen result ≡ Spec.decimal_digit text.now }
    ensures small { IfSome result (λ d. d.0 < 10) }
{
    let (byte, rest) = text.split_first()?;
    let d = digit(*byte)?;
    (d < 10).then_some((d, rest))
}

// A number below the bound that has been read. By cases, as by std's `then_some` the reading of a packet takes a tenth longer.
#[tactic(auto, unfolding(crate::specs::Reader::below))]
fn below(bound: u64, n: u64, rest: &[u8]) -> Option<(u64, &[u8])>
    ensures { seen result ≡ Spec.below bound n rest.now }
{
    if n < bound { Some((n, rest)) } else { None }
}

// A number below the bound, of one digit or two.
fn number(bound: u64, text: &[u8]) -> Option<(u64, &[u8])>
    ensures { seen result ≡ Spec.number bound text.now }
{
    let (first, rest) = decimal_digit(text)?;
    if first == 0 {
        return below(bound, 0, rest);
    }
    match decimal_digit(rest) {
        None => below(bound, first, rest),
        Some((second, behind)) => below(bound, 10 * first + second, behind),
    }
}

// A last accepted term or `null`.
fn last_accepted(text: &[u8]) -> Option<(Option<Term>, &[u8])>
    ensures { seen result ≡ Spec.last_accepted text.now }
{
    if let Some(rest) = word(b"null", text) {
        return Some((None, rest));
    }
    let (t, rest) = number(TERMS, text)?;
    Some((Some(Term(t)), rest))
}

fn flag(text: &[u8]) -> Option<(bool, &[u8])>
    ensures { seen result ≡ Spec.flag text.now }
{
    if let Some(rest) = word(b"true", text) {
        return Some((true, rest));
    }
    let rest = word(b"false", text)?;
    Some((false, rest))
}

// The set with node i in it if its flag is true.
fn with_flag(set: u64, i: usize, flag: bool) -> u64
    requires { (i < max_nodes) × (set < 2 ^ i) }
    ensures { result ≡ set + cond flag (2 ^ i) 0 }
{
    if flag { set + (1 << i) } else { set }
}

// The set of n flags, if there are at least two.
fn counted(set: u64, n: u64, rest: &[u8]) -> Option<((u64, u64), &[u8])>
    ensures { seen result ≡ cond (leb min_nodes n) (Some ((set, n), rest.now)) None }
{
    (MIN_NODES <= n).then_some(((set, n), rest))
}

// Flags up to the closing bracket.
fn flags_in(text: &[u8]) -> Option<((u64, u64), &[u8])>
    ensures { seen result ≡ Spec.◌>>=◌ (Spec.flags_in max_nodes) Spec.counted text.now }
{
    let mut set = 0u64;
    let mut rest = text;
    // By the node's number: how many flags there are is known at the bracket alone.
    for i in 0..MAX_NODES {
        let (f, end) = flag(rest)?;
        set = with_flag(set, i, f);
        if let Some(behind) = word(b"]", end) {
            return counted(set, i as u64 + 1, behind);
        }
        rest = word(b",", end)?;
    }
    None
}

// 2 to 32 flags in brackets.
fn flags(text: &[u8]) -> Option<((u64, u64), &[u8])>
    ensures { seen result ≡ Spec.flags text.now }
{
    flags_in(word(b"[", text)?)
}

// Data, empty or that of the term.
fn data(term: Term, text: &[u8]) -> Option<(Option<Term>, &[u8])>
    requires { term.0 < max_terms }
    ensures { seen result ≡ Spec.data_of term text.now }
{
    if let Some(rest) = word(b"[]", text) {
        return Some((None, rest));
    }
    let mut own = [0u8; DATA_SIZE];
    let mut over = Overlay {
        out: &mut own,
        at: 0,
    };
    put_data(&mut over, Some(term));
    let size = over.at;
    let rest = word(&own[..size], text)?;
    Some((Some(term), rest))
}

// 0 is none.
fn nack(n: u64) -> Option<Term>
    ensures { result ≡ Spec.nack n }
{
    (n != 0).then_some(Term(n))
}

// A piggyback's term and data, or `null` and no data.
fn piggyback(text: &[u8]) -> Option<(Option<Piggyback>, &[u8])>
    ensures { seen result ≡ Spec.piggyback text.now }
{
    if let Some(rest) = word(b"null,\"piggyback_data\":[]", text) {
        return Some((None, rest));
    }
    let (t, middle) = number(TERMS, text)?;
    let (d, rest) = data(Term(t), word(b",\"piggyback_data\":", middle)?)?;
    let again = Piggyback {
        term: Term(t),
        data: d,
    };
    Some((Some(again), rest))
}

// The fields up to the sender.
pub fn read_header(text: &[u8]) -> Option<(Header, &[u8])>
    ensures reads { seen result ≡ Spec.header text.now }
    ensures small { IfSome result (λ h. h.0.current_term.0 < max_terms) }
{
    let (current, rest) = number(TERMS, word(b"{\"current_term\":", text)?)?;
    let (last, rest) = last_accepted(word(b",\"last_accepted_term\":", rest)?)?;
    let ((set, n), rest) = flags(word(b",\"flags_bitmap\":", rest)?)?;
    let (asked, rest) = number(TERMS, word(b",\"nack_term\":", rest)?)?;
    let (sender, rest) = number(n, word(b",\"sender\":", rest)?)?;
    let header = Header {
        current_term: Term(current),
        last_accepted_term: last,
        flags_bitmap: set,
        flags: n,
        nack_term: nack(asked),
        sender: NodeId(sender as usize),
    };
    Some((header, rest))
}

// The fields behind the sender, and the closing brace.
pub fn read_body(current: Term, text: &[u8]) -> Option<(Body, &[u8])>
    requires { current.0 < max_terms }
    ensures { seen result ≡ Spec.body current text.now }
{
    let (own, rest) = data(current, word(b",\"proposal_data\":", text)?)?;
    let (again, rest) = piggyback(word(b",\"piggyback_term\":", rest)?)?;
    let rest = word(b"}", rest)?;
    let body = Body {
        proposal_data: own,
        piggyback: again,
    };
    Some((body, rest))
}
