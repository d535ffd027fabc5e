// Runs the published vectors of ChaCha and of the seeds, and prints of each how many of its words
// or draws came out as published.
#![tactic(auto)]

mod published;

use random::chacha::{Quad, block, quarter_round};
use random::draws::draws;
use std::io;
use streams::unfailing::Unfailing;

// One line: what was compared, and how many of how many were equal.
fn report(rt: &impl Print, what: &str, equal: usize, of: usize) -> io::Result<()> {
    println!(rt; "{what}: equal {equal} of {of}")
}

// How many elements of two lists are equal, place by place.
fn equal<T: PartialEq>(a: &[T], b: &[T]) -> usize {
    a.iter().zip(b.iter()).filter(|(x, y)| x == y).count()
}

// How many of a seed's first ten draws are as published.
fn equal_draws(seed: u64, published: &[u64; 10]) -> usize {
    let mut drawn = [0u64; 10];
    draws(seed, &mut drawn);
    equal(&drawn, published)
}

// RFC 8439, section 2.1.1.
fn quarter_round_words() -> usize {
    let q = quarter_round(Quad {
        a: 0x11111111,
        b: 0x01020304,
        c: 0x9b8d6f43,
        d: 0x01234567,
    });
    equal(
        &[q.a, q.b, q.c, q.d],
        &[0xea2a92f4, 0xcb1cf8ce, 0x4581472e, 0x5881c4bb],
    )
}

// RFC 8439, section 2.3.2: its key is the bytes 00 01 .. 1f.
fn rfc_block() -> [u32; 16] {
    let key = [
        0x03020100, 0x07060504, 0x0b0a0908, 0x0f0e0d0c, 0x13121110, 0x17161514, 0x1b1a1918,
        0x1f1e1d1c,
    ];
    block(10, key, [1, 0x09000000, 0x4a000000, 0])
}

// Eight rounds, with a key of one word and zeros.
fn short_block(first: u32, number: u32) -> [u32; 16] {
    block(4, [first, 0, 0, 0, 0, 0, 0, 0], [number, 0, 0, 0])
}

fn report_blocks(rt: &impl Print) -> io::Result<()> {
    report(
        rt,
        "RFC 8439 block",
        equal(&rfc_block(), &published::RFC_BLOCK),
        16,
    )?;
    report(
        rt,
        "TC1 block 0",
        equal(&short_block(0, 0), &published::TC1_BLOCK_0),
        16,
    )?;
    report(
        rt,
        "TC1 block 1",
        equal(&short_block(0, 1), &published::TC1_BLOCK_1),
        16,
    )?;
    report(
        rt,
        "TC2 block 0",
        equal(&short_block(1, 0), &published::TC2_BLOCK_0),
        16,
    )
}

fn report_seeds(rt: &impl Print) -> io::Result<()> {
    report(rt, "seed 0", equal_draws(0, &published::SEED_0), 10)?;
    report(rt, "seed 1", equal_draws(1, &published::SEED_1), 10)?;
    report(rt, "seed 7", equal_draws(7, &published::SEED_7), 10)?;
    report(
        rt,
        "seed 2^64 - 1",
        equal_draws(u64::MAX, &published::SEED_MAX),
        10,
    )
}

fn print_all(rt: &impl Print) -> io::Result<()> {
    report(rt, "quarter round", quarter_round_words(), 4)?;
    report_blocks(rt)?;
    report_seeds(rt)
}

// A write that fails ends nothing, and nobody is told: what is printed is compared.
fn main(rt: HostRuntime) {
    let _ = print_all(&Unfailing(&rt));
}
