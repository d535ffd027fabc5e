// The result of a look ahead.
ghost use Rattle.std.specs.Prelude.{ℕ, ◌≤◌, ◌≡◌, List, length};
ghost use Rattle.marshal.specs.Packets.{packet_size};
ghost use Rattle.marshal.specs.Previews.{preview_result};

use super::numbers::done_result;
use super::packets::put_numbers;
use config::numbered::Numbered;
use rules::answer::SeenRound;

// The result of a look ahead; the packet and the set of nodes are written if there is one.
pub fn write_preview<R: Numbered>(
    answer: Result<SeenRound, R>,
    packet: &mut [u64],
    part: &mut [u64],
) -> u64
    requires { (packet_size ≤ length packet.old) × (1 ≤ length part.old) }
    ensures { ◌≡◌ {A = ℕ × List ℕ × List ℕ} (result, packet.new, part.new)
        (preview_result R.number answer packet.old part.old) }
{
    if let Ok(seen) = answer {
        put_numbers(seen.packet, packet);
        part[0] = seen.part;
    }
    done_result(&answer)
}
