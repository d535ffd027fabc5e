// Runs with buffers of several lengths, and refused runs.
use super::marks::{MARK, kept};
use config::Config;
use config::limits::{LOG_SIZE, RECORDS_SIZE};
use config::refusal::Refusal;
use metrics::summary::Summary;
use rules::networks::Asked;
use sim::entries::run;
use std::io;

// What a buffer of numbers holds beforehand.
const NUMBER: u64 = MARK as u64;

// The configuration of the printed run (rule 14.3's first), but for the round slots.
fn config_with(round_slots: Option<u64>) -> Config {
    Config {
        flood_repeats: 1,
        round_slots,
        loss_rate: 0.0,
        seed: 7,
        num_proposals: 1,
        snapshot_interval: 2,
        max_slots: 1000,
    }
}

fn printed_config() -> Config {
    config_with(None)
}

fn with_slots(n: u64) -> Config {
    config_with(Some(n))
}

fn with_interval(n: u64) -> Config {
    Config {
        snapshot_interval: n,
        ..printed_config()
    }
}

// Nodes, rounds, slots, end, listen, flood, sleep, records and snapshots of a run.
fn print_summary(rt: &impl Print, s: Summary) -> io::Result<()> {
    print!(rt; " ran {} {} {} {}", s.nodes, s.rounds, s.slots, s.ended)?;
    print!(rt;
        " {} {} {} {} {}",
        s.listen, s.flood, s.sleep, s.records, s.snapshots
    )
}

fn print_answer(rt: &impl Print, answer: Result<Summary, Refusal>) -> io::Result<()> {
    match answer {
        Ok(summary) => print_summary(rt, summary),
        Err(refusal) => print!(rt; " {refusal}"),
    }
}

// The buffers stay apart, here and below, as for a run.
fn print_kept(rt: &impl Print, logs: &[u8], records: &[u64], snapshots: &[u64]) -> io::Result<()> {
    println!(rt;
        " kept {} {} {}",
        kept(logs),
        kept(records),
        kept(snapshots)
    )
}

// Runs a topology with buffers of exactly what is asked for, and three snapshots' room.
fn show(rt: &impl Print, name: &str, asked: Asked, config: Config) -> io::Result<()> {
    let mut logs = [MARK; LOG_SIZE];
    let mut records = [NUMBER; RECORDS_SIZE];
    let mut snapshots = [NUMBER; 15];
    let answer = run(asked, config, &mut logs, &mut records, &mut snapshots);
    print!(rt; "{name}:")?;
    print_answer(rt, answer)?;
    print_kept(rt, &logs, &records, &snapshots)
}

// Rounds of one slot, in which only the node that starts takes part, so that the run ends by its index. With two repeats not
// even that node reaches sleep, and the run is refused.
fn rounds_of_one_slot(rt: &impl Print) -> io::Result<()> {
    let line = Asked::Topology(2, 2, 0);
    let once = Config {
        max_slots: 5000,
        ..with_slots(1)
    };
    let twice = Config {
        flood_repeats: 2,
        ..once
    };
    show(rt, "line 2, rounds of one slot", line, once)?;
    show(rt, "line 2, two repeats, rounds of one slot", line, twice)
}

// Refused runs keep every mark.
fn refusals(rt: &impl Print) -> io::Result<()> {
    let line = Asked::Topology(2, 3, 0);
    show(rt, "topology 0", Asked::Topology(0, 3, 0), printed_config())?;
    show(rt, "one node", Asked::Topology(2, 1, 0), printed_config())?;
    show(
        rt,
        "line, second number 1",
        Asked::Topology(2, 3, 1),
        printed_config(),
    )?;
    show(rt, "round slots 4097", line, with_slots(4097))?;
    show(rt, "interval 0", line, with_interval(0))
}

// The printed run with log and record buffers of these lengths.
fn show_buffers(
    rt: &impl Print,
    name: &str,
    logs: &mut [u8],
    records: &mut [u64],
    config: Config,
) -> io::Result<()> {
    let mut snapshots = [NUMBER; 15];
    let answer = run(
        Asked::Topology(2, 3, 0),
        config,
        logs,
        records,
        &mut snapshots,
    );
    print!(rt; "{name}:")?;
    print_answer(rt, answer)?;
    print_kept(rt, logs, records, &snapshots)
}

fn short_buffers(rt: &impl Print) -> io::Result<()> {
    let mut logs = [MARK; LOG_SIZE - 1];
    let mut enough = [NUMBER; RECORDS_SIZE];
    show_buffers(
        rt,
        "logs one short",
        &mut logs,
        &mut enough,
        printed_config(),
    )?;
    let mut room = [MARK; LOG_SIZE];
    let mut records = [NUMBER; RECORDS_SIZE - 1];
    show_buffers(
        rt,
        "records one short",
        &mut room,
        &mut records,
        printed_config(),
    )?;
    show_buffers(rt, "no place", &mut [], &mut [], printed_config())?;
    show_buffers(
        rt,
        "one short, interval 0",
        &mut logs,
        &mut records,
        with_interval(0),
    )
}

fn long_buffers(rt: &impl Print) -> io::Result<()> {
    let mut logs = [MARK; LOG_SIZE];
    let mut records = [NUMBER; RECORDS_SIZE];
    show_buffers(
        rt,
        "exactly full",
        &mut logs,
        &mut records,
        printed_config(),
    )?;
    let mut more = [MARK; LOG_SIZE + 20];
    let mut many = [NUMBER; RECORDS_SIZE + 8];
    show_buffers(rt, "longer", &mut more, &mut many, printed_config())
}

// The printed run with a snapshot buffer of this length.
fn show_snapshots(rt: &impl Print, snapshots: &mut [u64]) -> io::Result<()> {
    let mut logs = [MARK; LOG_SIZE];
    let mut records = [NUMBER; RECORDS_SIZE];
    let asked = Asked::Topology(2, 3, 0);
    let answer = run(asked, printed_config(), &mut logs, &mut records, snapshots);
    print!(rt; "snapshots in {} numbers:", snapshots.len())?;
    print_answer(rt, answer)?;
    print_kept(rt, &logs, &records, snapshots)
}

fn snapshots(rt: &impl Print) -> io::Result<()> {
    let mut numbers = [NUMBER; 20];
    for n in [0, 4, 5, 9, 10, 14, 15, 20] {
        numbers.fill(NUMBER);
        show_snapshots(rt, &mut numbers[..n])?;
    }
    Ok(())
}

// All of them.
pub fn run_all(rt: &impl Print) -> io::Result<()> {
    rounds_of_one_slot(rt)?;
    refusals(rt)?;
    short_buffers(rt)?;
    long_buffers(rt)?;
    snapshots(rt)
}
