// Prints a sweep: the seven numbers of each seed in a line, then the sum of the rounds and how many places behind the lines
// kept their mark; or the refusal.
ghost use Rattle.std.specs.Prelude.{◌≡◌, ◌≤◌, length};

use config::Config;
use config::refusal::Refusal;
use rules::networks::Asked;
use std::io;
use sweep::{SWEPT_SIZE, sweep_seeds};

// The most seeds, and the longest table, that a line asks for.
const MOST_SEEDS: usize = 64;

const PLACES: usize = 512;

const MARK: u64 = 77;

// The length of the table, and the seeds: how many, the first, and the step from each to the next.
#[derive(Clone, Copy)]
pub struct Seeds {
    pub length: u64,
    pub count: u64,
    pub first: u64,
    pub step: u64,
}

fn seeds_of(first: u64, step: u64) -> [u64; MOST_SEEDS]
    ensures { 64 ≡ length result }
{
    let mut seeds = [0u64; MOST_SEEDS];
    let mut seed = first;
    for place in &mut seeds {
        *place = seed;
        seed = seed.wrapping_add(step);
    }
    seeds
}

// Also in `files`, as `kept` is in `edges`: programs share the libraries alone, and none of them is about this.
fn at_most(a: u64, b: usize) -> usize
    ensures { result ≤ b }
{
    a.min(b as u64) as usize
}

fn kept(places: &[u64]) -> usize {
    places.iter().filter(|&&place| place == MARK).count()
}

fn print_line(rt: &impl Print, numbers: &[u64]) -> io::Result<()> {
    let mut between = "";
    for n in numbers {
        print!(rt; "{between}{n}")?;
        between = " ";
    }
    println!(rt; "")
}

fn print_lines(rt: &impl Print, numbers: &[u64]) -> io::Result<()> {
    for line in numbers.chunks(SWEPT_SIZE) {
        print_line(rt, line)?;
    }
    Ok(())
}

fn print_swept(rt: &impl Print, table: &[u64], count: usize, rounds: u64) -> io::Result<()> {
    let end = count.saturating_mul(SWEPT_SIZE).min(table.len());
    print_lines(rt, &table[..end])?;
    println!(rt; "rounds {rounds} kept {}", kept(&table[end..]))
}

// A refusal is told only if the whole table kept its marks.
fn print_sweep(
    rt: &impl Print,
    answer: Result<u64, Refusal>,
    table: &[u64],
    count: usize,
) -> io::Result<()> {
    match answer {
        Ok(rounds) => print_swept(rt, table, count, rounds),
        Err(refusal) if kept(table) == table.len() => println!(rt; "{refusal}"),
        Err(_) => println!(rt; ""),
    }
}

pub fn show_sweep(rt: &impl Print, asked: Asked, config: Config, seeds: Seeds) -> io::Result<()> {
    let list = seeds_of(seeds.first, seeds.step);
    let count = at_most(seeds.count, MOST_SEEDS);
    let mut places = [MARK; PLACES];
    let length = at_most(seeds.length, PLACES);
    let table = &mut places[..length];
    let answer = sweep_seeds(asked, config, &list[..count], table);
    print_sweep(rt, answer, table, count)
}
