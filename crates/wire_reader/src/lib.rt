// Reads the JSON that ctsim's `serialize_packet` makes, and no other text.
#![tactic(auto)]

mod fields;

ghost use Rattle.std.specs.Prelude.{◌≡◌};
ghost use Rattle.wire_reader.specs.Reader as Spec;
ghost use Rattle.wire_reader.specs.Reading.{reading};
ghost use Rattle.wire_reader.specs.View.{seen};

use config::refusal::Refusal;
use fields::{Body, Header, read_body, read_header};
use phy::packet::Packet;

// The packet with these fields.
fn packet_of(header: Header, body: Body) -> Packet
    ensures { result ≡ Spec.packet_of header body }
{
    Packet {
        current_term: header.current_term,
        last_accepted_term: header.last_accepted_term,
        flags_bitmap: header.flags_bitmap,
        nack_term: header.nack_term,
        sender: header.sender,
        proposal_data: body.proposal_data,
        piggyback: body.piggyback,
    }
}

// The packet at the front of a text and its number of flags, and the rest behind it.
fn packet(text: &[u8]) -> Option<((Packet, u64), &[u8])>
    ensures { seen result ≡ Spec.packet text.now }
{
    let (header, middle) = read_header(text)?;
    let (body, rest) = read_body(header.current_term, middle)?;
    Some(((packet_of(header, body), header.flags), rest))
}

// Reads a packet's text, which begins and ends with the buffer: the packet and its number of flags.
#[tactic(auto, unfolding(crate::specs::Reading::reading))]
pub fn read_packet(text: &[u8]) -> Result<(Packet, u64), Refusal>
    ensures { result ≡ reading text.now }
{
    match packet(text) {
        Some((read, rest)) if rest.is_empty() => Ok(read),
        _ => Err(Refusal::NoText),
    }
}
