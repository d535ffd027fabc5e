// One flood by constructive interference, after ctsim's phy/ci.rs. It goes the same way whatever its
// packet says, so no packet is handed in; that the covered nodes are those that took part is a law of the
// run.
ghost use Rattle.std.specs.Prelude.{◌≡◌, not, ◌||◌, ◌+◌, ◌≤◌, ◌<◌, eqb};
ghost use Rattle.config.specs.Limits.{set_bits, max_nodes, max_repeats, count_bound};
ghost use Rattle.network.specs.Graph.{has, set_of};
ghost use Rattle.phy.specs.Limits.{queue_size};
ghost use Rattle.phy.specs.Round.{length_limit};
ghost use Rattle.phy.specs.View.{tables, Sound, Meets, Slotted, place_after};
ghost use Rattle.phy.specs.View.{CanBegin, Begins, Emptied, CanFlood, Rounded};

use super::slot::{Awake, QUEUE_SIZE, Radios, Settings, slot};
use config::limits::{LEAST_LENGTH, MAX_NODES};
use network::graph::full_set;
use network::units::NodeId;
use random::draws::Stream;

// How many slots a round has at most.
pub fn length_limit(round_slots: Option<u64>, diameter: u64, repeats: u64) -> u64
    requires { (diameter ≤ set_bits) × (repeats ≤ max_repeats) }
    ensures { result ≡ length_limit round_slots diameter repeats }
{
    round_slots.unwrap_or(LEAST_LENGTH.max((diameter + 2) * repeats))
}

// Where a run stands after a round, and the set of the nodes that took part.
#[derive(Clone, Copy)]
pub struct Round {
    pub flood: Radios,
    pub part: u64,
}

// As a round begins, all nodes listen but the initiator, which floods. It stands at the last place of the
// queue, with all its repeats.
fn begin_round(
    settings: Settings,
    initiator: NodeId,
    x: Radios,
    queue: &mut [u64; QUEUE_SIZE],
) -> Radios
    requires { CanBegin settings initiator.0 }
    ensures { Begins settings initiator.0 x queue.old result queue.new }
{
    let first = initiator.0;
    let own = 1u64 << first;
    let last = settings.repeats as usize - 1;
    queue[last] = own;
    let awake = Awake {
        listening: full_set(settings.nodes) - own,
        flooding: own,
    };
    Radios { awake, ..x }
}

// The place after this one in a queue of so many.
fn next_place(place: usize, repeats: u32) -> usize
    requires { place < repeats }
    ensures { result ≡ place_after repeats place 1 }
{
    let next = place + 1;
    let all = repeats as usize;
    if next < all { next } else { next - all }
}

// The slots of a round, up to the limit or until nobody floods. The queue is lent for a run and its place begins at 0 in each
// round, so the two are apart.
fn slots(
    settings: Settings,
    rows: &[u64; MAX_NODES],
    longest: u64,
    flood: Radios,
    queue: &mut [u64; QUEUE_SIZE],
    stream: &mut Stream,
    snapshots: &mut [u64],
) -> Radios
    requires { Sound settings flood × (flood.slot.0 + longest < count_bound)
        × Meets settings 0 flood (tables queue.old stream.old snapshots.old) }
    ensures { Slotted settings rows.now longest flood
        (tables queue.old stream.old snapshots.old)
        result (tables queue.new stream.new snapshots.new) }
{
    let mut x = flood;
    let mut place = 0usize;
    // So many slots, or fewer: nothing is gone through.
    for done in 0..longest {
        x = slot(settings, rows, x, queue, place, stream, snapshots);
        if x.awake.flooding == 0 {
            return x;
        }
        place = next_place(place, settings.repeats);
    }
    x
}

// The nodes that took part: the initiator, and those that are not awake.
fn participants(n: usize, initiator: NodeId, awake: u64) -> u64
    requires { (n ≤ max_nodes) × (initiator.0 < n) }
    ensures { result ≡ set_of n (λ k. eqb k initiator.0 || not (has awake k)) }
{
    let all = full_set(n);
    (all - (all & awake)) | (1u64 << initiator.0)
}

// The first places of the queue are empty.
fn empty_queue(queue: &mut [u64; QUEUE_SIZE], count: usize)
    requires { count ≤ queue_size }
    ensures { Emptied count queue.old queue.new }
{
    queue[..count].fill(0);
}

// One round: a packet flooded by the initiator.
pub fn flood_identical_round(
    settings: Settings,
    rows: &[u64; MAX_NODES],
    longest: u64,
    initiator: NodeId,
    flood: Radios,
    queue: &mut [u64; QUEUE_SIZE],
    stream: &mut Stream,
    snapshots: &mut [u64],
) -> Round
    requires { CanFlood settings longest initiator.0 flood (tables queue.old stream.old snapshots.old) }
    ensures { Rounded settings rows.now longest initiator.0 flood
        (tables queue.old stream.old snapshots.old)
        result (tables queue.new stream.new snapshots.new) }
{
    empty_queue(queue, settings.repeats as usize);
    let x = begin_round(settings, initiator, flood, queue);
    let ended = slots(settings, rows, longest, x, queue, stream, snapshots);
    let awake = ended.awake.listening | ended.awake.flooding;
    Round {
        flood: ended,
        part: participants(settings.nodes, initiator, awake),
    }
}
