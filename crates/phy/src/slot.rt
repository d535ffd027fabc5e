// One slot of a flood.
ghost use Rattle.std.specs.Prelude.{◌≡◌, [], ◌∷◌, ◌+◌, ◌*◌, ◌^◌, ◌≤◌, ◌<◌};
ghost use Rattle.std.specs.Int.Count.{ones};
ghost use Rattle.config.specs.Limits.{set_bits, count_bound};
ghost use Rattle.network.specs.Graph.{has as hasNode};
ghost use Rattle.phy.specs.Limits.{queue_size};
ghost use Rattle.phy.specs.Slot.{among};
ghost use Rattle.phy.specs.View.{TriedOn, CanTry, receivers_of, Advances, tables, Sound, Meets, Stepped, shown_of};

use super::snapshot::{Schedule, Shown, take_snapshots};
use config::limits::{MAX_NODES, MAX_REPEATS};
use network::members::members_of;
use network::units::{NodeId, Slot};
use random::draws::Stream;
use random::reception::receive;

// The queue of the flooding nodes has a place for each repeat.
pub const QUEUE_SIZE: usize = MAX_REPEATS as usize;

// What a round is given: how many nodes there are, the repeats, the snapshot interval, the progress
// that snapshots show, and the loss rate.
#[derive(Clone, Copy)]
pub struct Settings {
    pub nodes: usize,
    pub repeats: u32,
    pub interval: u64,
    pub progress: u64,
    pub rate: f64,
}

// The sets of the nodes that listen and of those that flood.
#[derive(Clone, Copy)]
pub struct Awake {
    pub listening: u64,
    pub flooding: u64,
}

// The run's attempts and successes so far, and the set of nodes that heard in this slot.
#[derive(Clone, Copy)]
pub struct Tried {
    pub attempts: u64,
    pub successes: u64,
    pub reached: u64,
}

// Where the radios of a run stand: the nodes that are awake, and the slots that all nodes have spent in each
// state. Of the snapshots, those from the number `first_stored` on go into a lent slice. The stream of the
// draws is lent.
#[derive(Clone, Copy)]
pub struct Radios {
    pub awake: Awake,
    pub slots_listen: u64,
    pub slots_flood: u64,
    pub slots_sleep: u64,
    pub attempts: u64,
    pub successes: u64,
    pub slot: Slot,
    // The two are apart, as `Stands` and `Sound` ask each by itself; a slot makes a `Schedule` where snapshots are taken.
    pub next_snapshot: Slot,
    pub snapshots: u64,
    pub first_stored: u64,
}

// One attempt at node j.
fn attempt(j: NodeId, rate: f64, stream: &mut Stream, t: Tried) -> Tried
    requires { (j.0 < set_bits) × (t.attempts + 1 < 2 ^ 64) × (t.successes + 1 < 2 ^ 64) }
    ensures { TriedOn rate 1 (j.0 ∷ []) t stream.old result stream.new }
{
    let at = j.0;
    if receive(rate, stream, t.attempts) {
        return Tried {
            attempts: t.attempts + 1,
            successes: t.successes + 1,
            reached: t.reached | (1 << at),
        };
    }
    Tried {
        attempts: t.attempts + 1,
        ..t
    }
}

// One attempt at each node of a set, ascending.
fn attempts_at(set: u64, rate: f64, stream: &mut Stream, t: Tried) -> Tried
    requires { (t.attempts + set_bits < 2 ^ 64) × (t.successes + set_bits < 2 ^ 64) }
    ensures { TriedOn rate set_bits (among set_bits (hasNode «set»)) t stream.old result stream.new }
{
    let mut tried = t;
    for j in members_of(set) {
        tried = attempt(NodeId(j), rate, stream, tried);
    }
    tried
}

// Each flooding node tries its listening neighbours. Only the contract asks n, for how many attempts there may be: a ghost
// value is picked from the call's other arguments, and they do not tell it.
fn attempts(
    rows: &[u64; MAX_NODES],
    n: usize,
    awake: Awake,
    rate: f64,
    stream: &mut Stream,
    t: Tried,
) -> Tried
    requires { CanTry n awake t }
    ensures { TriedOn rate (set_bits * n) (receivers_of rows.now n awake) t stream.old result stream.new }
{
    let Awake {
        listening,
        flooding,
    } = awake;
    if listening == 0 {
        return t;
    }
    let mut tried = t;
    for i in members_of(flooding) {
        tried = attempts_at(rows[i] & listening, rate, stream, tried);
    }
    tried
}

// The nodes after a slot's transmissions, of which the nodes of a set heard one. The nodes at this
// place of the queue have no repeats left, and the listeners that heard take their place.
fn advance(queue: &mut [u64; QUEUE_SIZE], place: usize, awake: Awake, reached: u64) -> Awake
    requires { place < queue_size }
    ensures { Advances place reached awake queue.old result queue.new }
{
    let heard = awake.listening & reached;
    let done = awake.flooding & queue[place];
    queue[place] = heard;
    Awake {
        listening: awake.listening - heard,
        flooding: (awake.flooding - done) | heard,
    }
}

// What a snapshot shows of the nodes: those that neither listen nor flood sleep.
fn shown(n: usize, progress: u64, awake: Awake) -> Shown
    requires { ones awake.listening + ones awake.flooding ≤ n }
    ensures { result ≡ shown_of n progress awake }
{
    let listening = awake.listening.count_ones() as u64;
    let flooding = awake.flooding.count_ones() as u64;
    Shown {
        progress,
        listening,
        flooding,
        sleeping: n as u64 - listening - flooding,
    }
}

// One slot: snapshots, attempts, and what follows for each node. What it is lent is apart here and in ci.rt: in a
// struct of lent parts each contract would need a clause more, that they are still those, as `SameTables` of a run.
// Rows and no `Graph`: the settings have the number of nodes, as `Setup` of the definitions has beside its rows.
pub fn slot(
    settings: Settings,
    rows: &[u64; MAX_NODES],
    x: Radios,
    queue: &mut [u64; QUEUE_SIZE],
    place: usize,
    stream: &mut Stream,
    snapshots: &mut [u64],
) -> Radios
    requires { Sound settings x × (x.slot.0 < count_bound) × Meets settings place x (tables queue.old stream.old snapshots.old) }
    ensures { Stepped settings rows.now place x
        (tables queue.old stream.old snapshots.old)
        result (tables queue.new stream.new snapshots.new) }
{
    let this = x.slot;
    let seen = shown(settings.nodes, settings.progress, x.awake);
    let due = Schedule {
        next: x.next_snapshot,
        count: x.snapshots,
    };
    let first = x.first_stored;
    let taken = take_snapshots(this, settings.interval, seen, due, first, snapshots);
    let untried = Tried {
        attempts: x.attempts,
        successes: x.successes,
        reached: 0,
    };
    let rate = settings.rate;
    let tried = attempts(rows, settings.nodes, x.awake, rate, stream, untried);
    let awake = advance(queue, place, x.awake, tried.reached);
    Radios {
        awake,
        slots_listen: x.slots_listen + seen.listening,
        slots_flood: x.slots_flood + seen.flooding,
        slots_sleep: x.slots_sleep + seen.sleeping,
        attempts: tried.attempts,
        successes: tried.successes,
        slot: Slot(this.0 + 1),
        next_snapshot: taken.next,
        snapshots: taken.count,
        ..x
    }
}
