// The results of writing and of reading a packet's text.
ghost use Rattle.std.specs.Prelude.{ℕ, ◌≤◌, ◌≡◌, List, Result, length};
ghost use Rattle.config.specs.declared.refusal.Refusal.{Refusal};
ghost use Rattle.marshal.specs.Packets.{packet_size};
ghost use Rattle.marshal.specs.Texts.{reading_result, written, written_from};

use super::numbers::{done_result, write_count};
use super::packets::{formed, put_numbers, read_numbers};
use config::numbered::Numbered;
use config::refusal::Refusal;
use phy::packet::Packet;
use wire::write_packet;

// Writes the text of the packet that the numbers are; numbers that are no packet's have no text.
#[tactic(auto, unfolding(crate::specs::Texts::written))]
pub fn put_text(numbers: &[u64], flags: u64, text: &mut [u8]) -> Result<usize, Refusal>
    requires { packet_size ≤ length numbers.now }
    ensures { ◌≡◌ {A = Result ℕ Refusal × List ℕ} (result, text.new) (written numbers.now flags text.old) }
{
    if !formed(numbers) {
        return Err(Refusal::NoText);
    }
    write_packet(read_numbers(numbers), flags, text)
}

// The result of writing, where the length of the text is written too if there is one.
pub fn write_text(numbers: &[u64], flags: u64, text: &mut [u8], written: &mut [u64]) -> u64
    requires { (packet_size ≤ length numbers.now) × (1 ≤ length written.old) }
    ensures { ◌≡◌ {A = ℕ × List ℕ × List ℕ} (result, text.new, written.new)
        (written_from numbers.now flags text.old written.old) }
{
    write_count(put_text(numbers, flags, text), written)
}

// The result of reading; the packet and its number of flags are written if there is one.
pub fn write_reading<R: Numbered>(
    answer: Result<(Packet, u64), R>,
    packet: &mut [u64],
    flags: &mut [u64],
) -> u64
    requires { (packet_size ≤ length packet.old) × (1 ≤ length flags.old) }
    ensures { ◌≡◌ {A = ℕ × List ℕ × List ℕ} (result, packet.new, flags.new)
        (reading_result R.number answer packet.old flags.old) }
{
    if let Ok((p, n)) = answer {
        put_numbers(p, packet);
        flags[0] = n;
    }
    done_result(&answer)
}
