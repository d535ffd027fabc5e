// Packets as text: the JSON that ctsim's `serialize_packet` makes. A packet goes with its number of flags.
#![tactic(auto)]

mod fits;
pub mod put;

ghost use Rattle.std.specs.Prelude.{◌≡◌, List, Result, ℕ};
ghost use Rattle.config.specs.declared.refusal.Refusal.{Refusal};
ghost use Rattle.wire.specs.Writing.{writing};

use config::refusal::Refusal;
use fits::has_text;
use phy::packet::Packet;
use put::{TEXT_SIZE, put_packet};
use text::overlay::{Overlay, copy};

// Writes a packet's text to the start of a buffer. A refusal writes nothing.
pub fn write_packet(packet: Packet, flags: u64, out: &mut [u8]) -> Result<usize, Refusal>
    ensures { ◌≡◌ {A = Result ℕ Refusal × List ℕ} (result, out.new) (writing packet flags out.old) }
{
    if !has_text(packet, flags) {
        return Err(Refusal::NoText);
    }
    let mut text = [0u8; TEXT_SIZE];
    let mut over = Overlay {
        out: &mut text,
        at: 0,
    };
    put_packet(&mut over, packet, flags as usize);
    let size = over.at;
    if out.len() < size {
        return Err(Refusal::NoText);
    }
    copy(&text[..size], out);
    Ok(size)
}
