// The rounds of a run, each compared with the snapshots that a file has of it.
ghost use Rattle.std.specs.Prelude.{◌-◌, ◌*◌, ◌/◌, ◌≤◌, ◌≡◌, length, take, drop};
ghost use Rattle.config.specs.Limits.{snapshot_size};
ghost use Rattle.rounds.specs.Going.{contents, SameTables};
ghost use Rattle.archive.specs.Bytes.{numbers_bytes, same_bytes};
ghost use Rattle.archive.specs.Layout.{snapshot_bytes, section_in};
ghost use Rattle.archive_check.specs.Check.{stored_in};
ghost use Rattle.archive_check.specs.Working.{taken, CanReplay, Replays, MayReplay, ReplaysOver};

use archive::bytes::are_numbers;
use archive::layout::{Filed, SNAPSHOT_BYTES, Section};
use config::limits::{ENOUGH_ROUNDS, SNAPSHOT_SIZE};
use pipeline::records::History;
use protocol::state::PaxosState;
use rounds::run::{Plan, Stopped, Workspace, new_run};
use rules::answer::End;

// Whether the snapshots from the number `from` up to `to`, which stand at the start of `shots`, are those of a section, as far
// as it has them.
fn same_snapshots(section: &[u8], from: u64, to: u64, shots: &[u64]) -> bool
    requires { (from ≤ to) × (snapshot_size * (to - from) ≤ length shots.now) }
    ensures { let n = taken (length section.now / snapshot_bytes) from to in
        result ≡ same_bytes (take (snapshot_bytes * n) (drop (snapshot_bytes * from) section.now)) (numbers_bytes (take (snapshot_size * n) shots.now)) }
{
    let stored = (section.len() / SNAPSHOT_BYTES) as u64;
    let end = stored.min(to);
    if end <= from {
        return true;
    }
    let first = SNAPSHOT_BYTES * (from as usize);
    let count = (end - from) as usize;
    let part = &section[first..first + SNAPSHOT_BYTES * count];
    are_numbers(part, &shots[..SNAPSHOT_SIZE * count])
}

// The same of the snapshots that the rounds have written, and of the file's.
fn same_taken(file: Filed, from: u64, to: u64, work: &Workspace) -> bool
    requires { (from ≤ to) × (snapshot_size * (to - from) ≤ length work.now.snapshots.now) }
    ensures { let bytes = file.entry.bytes.now in let n = taken (stored_in bytes) from to in
        result ≡ same_bytes (take (snapshot_bytes * n) (drop (snapshot_bytes * from) (section_in bytes 3)))
        (numbers_bytes (take (snapshot_size * n) work.now.snapshots.now)) }
{
    same_snapshots(file.part(Section::Snapshots), from, to, work.snapshots)
}

// The rounds up to an end: how the run stopped, where each snapshot that the file has of it is the run's own. After each round,
// what it took is compared with the file, and the next one stores from the start of its snapshots again. So the run is changed
// between rounds, which the loop of `play_rounds` would have to lend to a closure.
fn play_again(plan: &Plan, file: Filed, work: &mut Workspace) -> Option<Stopped>
    requires { CanReplay plan.now (contents work.old) }
    ensures replays { Replays plan.now file.entry.bytes.now result (contents work.new) }
    ensures tables { SameTables work.old work.new }
{
    // `most_rounds`, spelled out, as the laws of the loop are about the sum.
    let most = plan.config.num_proposals + ENOUGH_ROUNDS;
    let limit = plan.config.max_slots;
    let mut x = new_run(plan.network.graph.nodes);
    // By the round's number, which the round is played for.
    for k in 0..most {
        if limit <= x.flood.slot.0 {
            return Some(Stopped {
                run: x,
                rounds: k,
                last: None,
                ended: Some(End::SlotLimit),
            });
        }
        let before = x.flood.snapshots;
        let next = work.next_round(plan, k, x);
        x = next.played.run;
        let after = x.flood.snapshots;
        if !same_taken(file, before, after, work) {
            return None;
        }
        x.flood.first_stored = after;
        if next.ended.is_some() {
            return Some(Stopped {
                run: x,
                rounds: k + 1,
                last: None,
                ended: next.ended,
            });
        }
    }
    None
}

// The same over states and a history that are blank, with these places for the snapshots of a round.
pub fn replay(
    plan: &Plan,
    file: Filed,
    states: &mut [PaxosState],
    history: &mut History,
    shots: &mut [u64],
) -> Option<Stopped>
    requires { MayReplay plan.now states.old history.old shots.old }
    ensures { ReplaysOver plan.now file.entry.bytes.now result states.new history.new }
{
    let mut work = Workspace::new(plan.config.seed, states, history, shots);
    play_again(plan, file, &mut work)
}
