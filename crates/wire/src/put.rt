// A packet's text laid over a buffer.
ghost use Rattle.std.specs.Prelude.{◌≡◌, true, ◌+◌, ◌*◌, ◌≤◌, ◌<◌};
ghost use Rattle.config.specs.Limits.{max_nodes};
ghost use Rattle.text.specs.Overlay.{Lays, Room};
ghost use Rattle.text.specs.Text.{number_most, spelled};
ghost use Rattle.wire.specs.Grammar.{body_most, body_text, data_most, data_text, digit_most, flag_most, flags_most, flags_text};
ghost use Rattle.wire.specs.Grammar.{has_text, header_most, header_text, last_accepted_fits, last_accepted_text, nack_number};
ghost use Rattle.wire.specs.Grammar.{null_most, packet_text, piggyback_fits, piggyback_most, piggyback_text};
ghost use Rattle.wire.specs.Grammar.{small_most, terms_fit, text_most};
ghost use Rattle.wire.specs.View.{data_below, digits_text, digit_text, marked_flag};

use network::graph::has;
use network::units::Term;
use phy::packet::{Packet, Piggyback};
use text::overlay::Overlay;

// No text has more bytes: `text_most` adds them up.
pub const TEXT_SIZE: usize = 366;

// No data's text has more bytes.
pub const DATA_SIZE: usize = 15;

// A number below 100.
fn put_small(over: &mut Overlay, n: u64)
    requires { (n < 100) × Room over.old.at number_most }
    ensures { Lays small_most (spelled n) over.old over.new }
{
    over.put_number(n);
}

fn put_last_accepted(over: &mut Overlay, last: Option<Term>)
    requires { (last_accepted_fits last ≡ true) × Room over.old.at number_most }
    ensures { Lays null_most (last_accepted_text last) over.old over.new }
{
    match last {
        None => over.put_word(b"null"),
        Some(t) => put_small(over, t.0),
    }
}

// The term of a NACK, or 0 where there is none.
fn nack_number(nack: Option<Term>) -> u64
    ensures { result ≡ nack_number nack }
{
    nack.map_or(0, |t| t.0)
}

// Flag i, behind the bracket or a comma.
fn put_flag(over: &mut Overlay, set: u64, i: usize)
    requires { (i < max_nodes) × Room over.old.at flag_most }
    ensures { Lays flag_most (marked_flag set i) over.old over.new }
{
    let mark = if i == 0 { b'[' } else { b',' };
    over.put(mark);
    if has(set, i) {
        over.put_word(b"true");
    } else {
        over.put_word(b"false");
    }
}

// The flags of the nodes below n.
fn put_flags(over: &mut Overlay, set: u64, n: usize)
    requires { (1 ≤ n) × (n ≤ max_nodes) × Room over.old.at flags_most }
    ensures { Lays flags_most (flags_text n set) over.old over.new }
{
    // By the node's number, which a set is asked for.
    for i in 0..n {
        put_flag(over, set, i);
    }
    over.put(b']');
}

// A digit as a byte of data, behind a comma.
fn put_digit(over: &mut Overlay, d: u64)
    requires { (d < 10) × Room over.old.at (1 + number_most) }
    ensures { Lays digit_most (digit_text d) over.old over.new }
{
    over.put(b',');
    put_small(over, b'0' as u64 + d);
}

// The digits of a term below 100.
fn put_digits(over: &mut Overlay, t: u64)
    requires { (t < 100) × Room over.old.at (digit_most + 1 + number_most) }
    ensures { Lays (small_most * digit_most) (digits_text t) over.old over.new }
{
    if t < 10 {
        put_digit(over, t);
    } else {
        put_digit(over, t / 10);
        put_digit(over, t % 10);
    }
}

// Data: nothing, or `tx` and the term in decimal.
pub fn put_data(over: &mut Overlay, data: Option<Term>)
    requires { (data_below «data» ≡ true) × Room over.old.at (data_most + number_most) }
    ensures { Lays data_most (data_text «data») over.old over.new }
{
    match data {
        None => over.put_word(b"[]"),
        Some(t) => {
            over.put_word(b"[116,120");
            put_digits(over, t.0);
            over.put(b']');
        }
    }
}

fn put_piggyback(over: &mut Overlay, piggyback: Option<Piggyback>)
    requires { (piggyback_fits piggyback ≡ true) × Room over.old.at (piggyback_most + number_most) }
    ensures { Lays piggyback_most (piggyback_text piggyback) over.old over.new }
{
    match piggyback {
        None => over.put_word(b"null,\"piggyback_data\":[]"),
        Some(again) => {
            put_small(over, again.term.0);
            over.put_word(b",\"piggyback_data\":");
            put_data(over, again.data);
        }
    }
}

// The fields up to the sender.
fn put_header(over: &mut Overlay, packet: Packet, flags: usize)
    requires { (has_text flags packet ≡ true) × Room over.old.at (header_most + number_most) }
    ensures { Lays header_most (header_text flags packet) over.old over.new }
{
    over.put_word(b"{\"current_term\":");
    put_small(over, packet.current_term.0);
    over.put_word(b",\"last_accepted_term\":");
    put_last_accepted(over, packet.last_accepted_term);
    over.put_word(b",\"flags_bitmap\":");
    put_flags(over, packet.flags_bitmap, flags);
    over.put_word(b",\"nack_term\":");
    put_small(over, nack_number(packet.nack_term));
    over.put_word(b",\"sender\":");
    put_small(over, packet.sender.0 as u64);
}

// The fields behind the sender, and the closing brace.
fn put_body(over: &mut Overlay, packet: Packet)
    requires { (terms_fit packet ≡ true) × Room over.old.at (body_most + number_most) }
    ensures { Lays body_most (body_text packet) over.old over.new }
{
    over.put_word(b",\"proposal_data\":");
    put_data(over, packet.proposal_data);
    over.put_word(b",\"piggyback_term\":");
    put_piggyback(over, packet.piggyback);
    over.put(b'}');
}

// The text of a packet that has one, with so many flags.
pub fn put_packet(over: &mut Overlay, packet: Packet, flags: usize)
    requires { (has_text flags packet ≡ true) × Room over.old.at (text_most + number_most) }
    ensures { Lays text_most (packet_text flags packet) over.old over.new }
{
    put_header(over, packet, flags);
    put_body(over, packet);
}
