// Builds every topology at every size, and prints a line for each that is accepted: topology, first and second number,
// nodes, diameter, and a checksum of the rows. Then it counts the refusals, and shows those that a sweep does not meet.
// The lines of the sweep in `stdout` were printed by the Rust source's own builders and diameter.
#![tactic(auto)]

use config::limits::MAX_NODES;
use config::refusal::Refusal;
use network::distance::measure;
use network::topology::rows;
use std::io;
use streams::unfailing::Unfailing;

// The rows as digits to base 31, modulo a prime below 2^32.
fn checksum(rows: &[u32]) -> u64 {
    let mut sum: u64 = 7;
    for row in rows {
        sum = (sum % 4294967291 * 31 + u64::from(*row)) % 4294967291;
    }
    sum
}

// By rows and their number here and below, as `measure` is asked.
fn put_diameter(rt: &impl Print, rows: &[u32], n: u64) -> io::Result<()> {
    match measure(rows, n) {
        Ok(d) => print!(rt; " {d}"),
        Err(refusal) => print!(rt; " {refusal}"),
    }
}

// Builds a topology, and prints the line of one that is accepted. The three numbers stand apart, here and below, as `rows`
// takes them.
fn show(
    rt: &impl Print,
    topology: u64,
    first: u64,
    second: u64,
) -> io::Result<Result<(), Refusal>> {
    let mut out = [0u32; MAX_NODES];
    match rows(topology, first, second, &mut out) {
        Ok(n) => {
            print!(rt; "graph {topology} {first} {second} {n}")?;
            put_diameter(rt, &out, n as u64)?;
            let sum = checksum(&out[..n.min(MAX_NODES)]);
            println!(rt; " {sum}")?;
            Ok(Ok(()))
        }
        Err(refusal) => Ok(Err(refusal)),
    }
}

// How many were accepted, and how many each of the first three questions refused.
#[derive(Drop)]
struct Counts {
    accepted: u64,
    unknown: u64,
    nodes: u64,
    second: u64,
}

impl Counts {
    fn add(&mut self, answer: Result<(), Refusal>) {
        match answer {
            Ok(()) => self.accepted = self.accepted.wrapping_add(1),
            Err(Refusal::UnknownTopology) => self.unknown = self.unknown.wrapping_add(1),
            Err(Refusal::NodeCount) => self.nodes = self.nodes.wrapping_add(1),
            Err(Refusal::SecondNumber) => self.second = self.second.wrapping_add(1),
            Err(_) => {}
        }
    }
}

// Tries second numbers 0 to 33, and counts the answers. Here and below the numbers themselves are what is tried.
fn sweep_second(rt: &impl Print, topology: u64, first: u64, counts: &mut Counts) -> io::Result<()> {
    for second in 0..34 {
        counts.add(show(rt, topology, first, second)?);
    }
    Ok(())
}

// Tries first and second numbers 0 to 33.
fn sweep(rt: &impl Print, topology: u64) -> io::Result<()> {
    let mut counts = Counts {
        accepted: 0,
        unknown: 0,
        nodes: 0,
        second: 0,
    };
    for first in 0..34 {
        sweep_second(rt, topology, first, &mut counts)?;
    }
    println!(rt;
        "topology {topology} accepted {} refused 1, 2, 3: {} {} {}",
        counts.accepted, counts.unknown, counts.nodes, counts.second
    )
}

// The number of a refusal, and 0 where there is none. As `done_result` of `marshal`, which brings in all that C calls.
fn number_of(answer: Result<(), Refusal>) -> u64 {
    match answer {
        Ok(()) => 0,
        Err(refusal) => refusal.number(),
    }
}

fn show_large(rt: &impl Print) -> io::Result<()> {
    let line = number_of(show(rt, 2, u64::MAX, 0)?);
    let grid = number_of(show(rt, 4, 4294967296, 4294967296)?);
    let tree = number_of(show(rt, 6, 4, u64::MAX)?);
    let unknown = number_of(show(rt, u64::MAX, 4, 0)?);
    println!(rt; "large numbers: {line} {grid} {tree} {unknown}")
}

fn show_short(rt: &impl Print) -> io::Result<()> {
    let mut short = [9u32; 4];
    match rows(2, 5, 0, &mut short) {
        Ok(_) => println!(rt; "five rows in four places"),
        Err(refusal) => println!(rt; "short: {} {}", refusal.number(), short[0]),
    }
}

fn put_rows(rt: &impl Print, label: &str, rows: &[u32], n: u64) -> io::Result<()> {
    print!(rt; "{label}:")?;
    put_diameter(rt, rows, n)?;
    println!(rt; "")
}

fn show_rows(rt: &impl Print) -> io::Result<()> {
    put_rows(rt, "two pairs", &[2, 1, 8, 4], 4)?;
    put_rows(rt, "no link", &[0, 0, 7], 2)?;
    put_rows(rt, "one node", &[0], 1)?;
    put_rows(rt, "33 nodes", &[0], 33)?;
    put_rows(rt, "too few rows", &[2, 1], 3)?;
    put_rows(rt, "bit at n", &[6, 1], 2)?;
    put_rows(rt, "own bit", &[3, 1], 2)?;
    put_rows(rt, "one way", &[2, 0], 2)
}

// The rows of a topology in a buffer of marks, and how many places keep the mark.
fn show_built(
    rt: &impl Print,
    name: &str,
    topology: u64,
    first: u64,
    second: u64,
    out: &mut [u32],
) -> io::Result<()> {
    out.fill(77);
    let answer = rows(topology, first, second, out);
    // Also in `edges` and `replay`: programs share the libraries alone.
    let kept = out.iter().filter(|row| **row == 77).count();
    match answer {
        Ok(n) => println!(rt; "rows of {name}: nodes {n} kept {kept}"),
        Err(refusal) => println!(rt; "rows of {name}: {refusal} kept {kept}"),
    }
}

// Refused before the places are looked at.
fn built_without_places(rt: &impl Print) -> io::Result<()> {
    show_built(rt, "topology 7, no node, no place", 7, 0, 0, &mut [0; 0])?;
    show_built(rt, "33 nodes, no place", 2, 33, 1, &mut [0; 0])?;
    show_built(
        rt,
        "line 5, second number 1, no place",
        2,
        5,
        1,
        &mut [0; 0],
    )
}

fn built(rt: &impl Print) -> io::Result<()> {
    show_built(rt, "line 5 in 4 places", 2, 5, 0, &mut [0; 4])?;
    show_built(rt, "line 5 in 5 places", 2, 5, 0, &mut [0; 5])?;
    show_built(rt, "line 32 in 31 places", 2, 32, 0, &mut [0; 31])?;
    show_built(rt, "line 32 in 32 places", 2, 32, 0, &mut [0; 32])?;
    show_built(rt, "line 8 in 40 places", 2, 8, 0, &mut [0; 40])
}

fn print_all(rt: &impl Print) -> io::Result<()> {
    for topology in 0..8 {
        sweep(rt, topology)?;
    }
    show_large(rt)?;
    show_short(rt)?;
    show_rows(rt)?;
    built_without_places(rt)?;
    built(rt)
}

// A write that fails ends nothing, and nobody is told: what is printed is compared.
fn main(rt: HostRuntime) {
    let _ = print_all(&Unfailing(&rt));
}
