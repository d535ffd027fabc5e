// Reads lines, readable ones and hostile ones, and prints what was read; then a listing and a
// refusal, whole and into buffers that are too short.
#![tactic(auto)]

use line::read::{Line, read_line};
use listing::write::{write_listing, write_refusal};
use metrics::summary::Summary;
use std::io;
use streams::unfailing::Unfailing;

fn print_line(rt: &impl Print, l: Line) -> io::Result<()> {
    print!(rt;
        "read {} {} {} {}",
        l.topology, l.first, l.second, l.repeats
    )?;
    match l.round_slots {
        None => print!(rt; " -")?,
        Some(n) => print!(rt; " {n}")?,
    }
    println!(rt;
        " {} {} {} {} {}",
        l.loss, l.seed, l.proposals, l.interval, l.limit
    )
}

// The first n bytes of a buffer, or all of it.
fn print_first(rt: &impl Print, buffer: &[u8], n: usize) -> io::Result<()> {
    rt.write_all(&buffer[..n.min(buffer.len())])
}

// What a line is read as: its numbers, or the refusal.
fn show(rt: &impl Print, input: &[u8]) -> io::Result<()> {
    match read_line(input) {
        Ok(l) => print_line(rt, l),
        Err(refusal) => {
            let mut out = [0u8; 32];
            let n = write_refusal(refusal.number(), &mut out);
            print_first(rt, &out, n)
        }
    }
}

fn readable(rt: &impl Print) -> io::Result<()> {
    show(rt, b"2 3 0 1 - 0000000000000000 7 1 2 1000\n")?;
    show(rt, b"2 3 0 1 - 0000000000000000 7 1 2 1000")?;
    show(
        rt,
        b"2 3 0 1 4096 3fe0000000000000 7 1 2 1000\nwhat follows is ignored",
    )?;
    show(
        rt,
        b"0 00 000 64 00000000000000000012 ffffffffffffffff 18446744073709551615 1 2 00000000000000000000\n\n",
    )
}

fn hostile(rt: &impl Print) -> io::Result<()> {
    show(rt, b"")?;
    show(rt, b"\n2 3 0 1 - 0000000000000000 7 1 2 1000")?;
    show(rt, b"2 3 0 1 - 0000000000000000 7 1 2\n")?;
    show(rt, b"2 3 0 1 - 0000000000000000 7 1 2 1000 4\n")?;
    show(rt, b"2 3 0 1 - 0000000000000000 7 1 2 1000 \n")?;
    show(rt, b" 2 3 0 1 - 0000000000000000 7 1 2 1000\n")?;
    show(rt, b"2  3 0 1 - 0000000000000000 7 1 2 1000\n")?;
    show(rt, b"2\t3 0 1 - 0000000000000000 7 1 2 1000\n")?;
    show(rt, b"2 3 0 1 - 0000000000000000 7 1 2 1000\r\n")?;
    show(rt, b"2 3 0 1 - 0000000000000000 7 1 2 1000\x00\n")?;
    show(rt, b"\x002 3 0 1 - 0000000000000000 7 1 2 1000\n")?;
    show(rt, b"2 3 0 - - 0000000000000000 7 1 2 1000\n")?;
    show(rt, b"2 3 0 1 -- 0000000000000000 7 1 2 1000\n")?;
    show(rt, b"2 3 0 1 - 000000000000000 7 1 2 1000\n")?;
    show(rt, b"2 3 0 1 - 00000000000000000 7 1 2 1000\n")?;
    show(rt, b"2 3 0 1 - 3FE0000000000000 7 1 2 1000\n")?;
    show(rt, b"2 3 0 1 - 0x00000000000000 7 1 2 1000\n")?;
    show(
        rt,
        b"2 3 0 1 - 0000000000000000 18446744073709551616 1 2 1000\n",
    )?;
    show(
        rt,
        b"2 3 0 1 - 0000000000000000 99999999999999999999 1 2 1000\n",
    )?;
    show(
        rt,
        b"2 3 0 1 - 0000000000000000 000000000000000000007 1 2 1000\n",
    )?;
    show(rt, b"2 3 0 1 - 0000000000000000 +7 1 2 1000\n")?;
    show(rt, b"2 3 0 1 - 0000000000000000 a 1 2 1000\n")
}

// Five thousand digits, and five thousand spaces.
fn long(rt: &impl Print) -> io::Result<()> {
    let digits = [57u8; 5000];
    show(rt, &digits)?;
    let spaces = [32u8; 5000];
    show(rt, &spaces)
}

// The summary of the printed run (rule 14.3's first).
fn printed_summary() -> Summary {
    Summary {
        nodes: 3,
        rounds: 2,
        slots: 5,
        ended: 1,
        listen: 5,
        flood: 6,
        sleep: 4,
        attempts: 4,
        successes: 4,
        flood_rounds: 2,
        flood_nodes: 6,
        covered: 6,
        took_part: 6,
        nacks: 0,
        piggybacks: 0,
        records: 1,
        snapshots: 3,
    }
}

// Its listing; then with fewer nodes that took part, no snapshot stored, and the logs empty, of one term and full.
fn listings(rt: &impl Print) -> io::Result<()> {
    let records = [0u64, 0, 3];
    let snapshots = [0u64, 0, 2, 1, 0, 2, 0, 0, 1, 2, 4, 0, 0, 2, 1];
    let mut logs = [0u8; 2080];
    logs[2048] = 1;
    logs[2049] = 1;
    logs[2050] = 1;
    let mut out = [0u8; 1024];
    let n = write_listing(printed_summary(), &records, &snapshots, &logs, &mut out);
    print_first(rt, &out, n)?;
    logs[2048] = 0;
    logs[2050] = 64;
    logs[191] = 63;
    let other = Summary {
        took_part: 5,
        ..printed_summary()
    };
    let m = write_listing(other, &records, &snapshots[..4], &logs, &mut out);
    print_first(rt, &out, m)
}

// What does not fit is dropped, and all is counted.
fn short_buffers(rt: &impl Print) -> io::Result<()> {
    let mut out = [46u8; 20];
    let n = write_listing(printed_summary(), &[], &[], &[], &mut out);
    print_first(rt, &out, n)?;
    println!(rt; "| {n}")?;
    let mut few = [46u8; 8];
    let m = write_refusal(u64::MAX, &mut few);
    print_first(rt, &few, m)?;
    println!(rt; "| {m}")
}

fn print_all(rt: &impl Print) -> io::Result<()> {
    readable(rt)?;
    hostile(rt)?;
    long(rt)?;
    listings(rt)?;
    short_buffers(rt)
}

// A write that fails ends nothing, and nobody is told: what is printed is compared.
fn main(rt: HostRuntime) {
    let _ = print_all(&Unfailing(&rt));
}
