// Snapshots: five numbers each, stored one after the other in a lent slice while they fit whole, and
// counted beyond that.
ghost use Rattle.std.specs.Prelude.{◌≡◌, ◌*◌, ◌^◌, ◌≤◌, ◌<◌};
ghost use Rattle.phy.specs.View.{shot_of, Stores, TakesDue};

use config::limits::SNAPSHOT_SIZE;
use network::units::Slot;

// What a snapshot shows beside its slot: the progress, and how many nodes listen, flood and sleep.
#[derive(Clone, Copy)]
pub struct Shown {
    pub progress: u64,
    pub listening: u64,
    pub flooding: u64,
    pub sleeping: u64,
}

// The slot of the next snapshot, and how many were taken.
#[derive(Clone, Copy)]
pub struct Schedule {
    pub next: Slot,
    pub count: u64,
}

// Stores a snapshot behind `count` others, if it fits whole.
fn take_snapshot(slot: Slot, shown: Shown, count: u64, snapshots: &mut [u64])
    ensures { Stores count (shot_of shown slot.0) snapshots.old snapshots.new }
{
    let room = (snapshots.len() / SNAPSHOT_SIZE) as u64;
    if count < room {
        let at = SNAPSHOT_SIZE * (count as usize);
        snapshots[at..at + SNAPSHOT_SIZE].copy_from_slice(&[
            slot.0,
            shown.progress,
            shown.listening,
            shown.flooding,
            shown.sleeping,
        ]);
    }
}

// Takes the snapshots that are due by this slot. Those from the number `first` on are stored, from the slice's start on.
pub fn take_snapshots(
    slot: Slot,
    interval: u64,
    shown: Shown,
    schedule: Schedule,
    first: u64,
    snapshots: &mut [u64],
) -> Schedule
    requires { (1 ≤ interval) × (slot.0 < 2 ^ 62) × (schedule.next.0 ≡ schedule.count * interval) × (first ≤ schedule.count) }
    ensures { TakesDue interval slot.0 shown first schedule snapshots.old result snapshots.new }
{
    let this = slot.0;
    let mut next = schedule.next.0;
    let mut count = schedule.count;
    // Two counts go on from where the schedule stands, and are what it answers: a range would give back neither.
    while next <= this {
        take_snapshot(Slot(next), shown, count - first, snapshots);
        next += interval;
        count += 1;
    }
    Schedule {
        next: Slot(next),
        count,
    }
}
