// A packet as numbers, and numbers as a packet.
ghost use Rattle.std.specs.Prelude.{[], ◌∷◌, ◌≤◌, ◌≡◌, length};
ghost use Rattle.std.proofs.lemmas.List.Edits.{sets};
ghost use Rattle.phy.specs.Packets.{piggyback_data, piggyback_term, term_in};
ghost use Rattle.marshal.specs.Packets.{formed, formed_term, packet_at, packet_numbers, packet_size, piggyback_from, term_from, term_numbers};

use network::units::{NodeId, Term};
use phy::packet::{Packet, Piggyback};

// How many places a packet has.
pub const PACKET_SIZE: usize = 13;

// Whether a term is given, 1 or 0, and the term, 0 where it is not. No From, here and below: C gives a value in two numbers.
fn term_numbers(term: Option<Term>) -> (u64, u64)
    ensures { result.0 ∷ result.1 ∷ [] ≡ term_numbers (term_in term) }
{
    match term {
        Some(t) => (1, t.0),
        None => (0, 0),
    }
}

fn piggyback_term(piggyback: Option<Piggyback>) -> Option<Term>
    ensures { term_in result ≡ piggyback_term piggyback }
{
    piggyback.map(|again| again.term)
}

fn piggyback_data(piggyback: Option<Piggyback>) -> Option<Term>
    ensures { result ≡ piggyback_data piggyback }
{
    piggyback.and_then(|again| again.data)
}

// A packet's numbers into the first places, each at the place that the C interface gives it.
pub fn put_numbers(p: Packet, out: &mut [u64])
    requires { packet_size ≤ length out.old }
    ensures { out.new ≡ sets out.old 0 (packet_numbers p) }
{
    let (nack_given, nack) = term_numbers(p.nack_term);
    let (last_given, last) = term_numbers(p.last_accepted_term);
    let (data_given, data) = term_numbers(p.proposal_data);
    let (again_given, again) = term_numbers(piggyback_term(p.piggyback));
    let (again_data_given, again_data) = term_numbers(piggyback_data(p.piggyback));
    out[0] = p.sender.0 as u64;
    out[1] = p.current_term.0;
    out[2] = p.flags_bitmap;
    out[3] = nack_given;
    out[4] = nack;
    out[5] = last_given;
    out[6] = last;
    out[7] = data_given;
    out[8] = data;
    out[9] = again_given;
    out[10] = again;
    out[11] = again_data_given;
    out[12] = again_data;
}

// Whether two numbers are a term that may be missing.
#[tactic(auto, unfolding(crate::specs::Packets::formed_term))]
fn formed_term(given: u64, term: u64) -> bool
    ensures { result ≡ formed_term given term }
{
    given <= 1 && (given == 1 || term == 0)
}

// Whether the first places are the numbers of a packet.
#[tactic(auto, unfolding(crate::specs::Packets::formed))]
pub fn formed(s: &[u64]) -> bool
    requires { packet_size ≤ length s.now }
    ensures { result ≡ formed s.now }
{
    formed_term(s[3], s[4])
        && formed_term(s[5], s[6])
        && formed_term(s[7], s[8])
        && formed_term(s[9], s[10])
        && formed_term(s[11], s[12])
        && s[11] <= s[9]
}

// The term, if it is given.
fn term_from(given: u64, t: u64) -> Option<Term>
    ensures { result ≡ term_from given t }
{
    if given == 0 { None } else { Some(Term(t)) }
}

fn piggyback_from(given: u64, t: u64, data: Option<Term>) -> Option<Piggyback>
    ensures { result ≡ piggyback_from given t «data» }
{
    if given == 0 {
        None
    } else {
        Some(Piggyback {
            term: Term(t),
            data,
        })
    }
}

// The packet that the first places hold.
pub fn read_numbers(s: &[u64]) -> Packet
    requires { packet_size ≤ length s.now }
    ensures { result ≡ packet_at s.now }
{
    Packet {
        current_term: Term(s[1]),
        last_accepted_term: term_from(s[5], s[6]),
        flags_bitmap: s[2],
        nack_term: term_from(s[3], s[4]),
        sender: NodeId(s[0] as usize),
        proposal_data: term_from(s[7], s[8]),
        piggyback: piggyback_from(s[9], s[10], term_from(s[11], s[12])),
    }
}
