// Runs the edges that no theorem shows and no line of `replay` can ask for: buffers one
// short, exactly full and longer than needed, ratios at their boundaries, and inputs that are no
// line. Places of a buffer hold a mark beforehand; how many still hold it is printed as kept.
#![tactic(auto)]

mod marks;
mod runs;

use listing::write::LISTING_SIZE;
use metrics::ratio::ratio;
use std::io;
use streams::unfailing::Unfailing;

// Whether a ratio is the f64 that is expected.
fn show_ratio(rt: &impl Print, name: &str, part: u64, whole: u64, expected: f64) -> io::Result<()> {
    match ratio(part, whole) {
        Ok(None) => println!(rt; "ratio {name}: none"),
        Ok(Some(q)) if q == expected => println!(rt; "ratio {name}: yes"),
        Ok(Some(_)) => println!(rt; "ratio {name}: no"),
        Err(refusal) => println!(rt; "ratio {name}: {refusal}"),
    }
}

fn ratios(rt: &impl Print) -> io::Result<()> {
    show_ratio(rt, "0 of 0", 0, 0, 0.0)?;
    show_ratio(rt, "1 of 0", 1, 0, 0.0)?;
    show_ratio(rt, "0 of 1 is 0", 0, 1, 0.0)?;
    show_ratio(rt, "1 of 2 is 0.5", 1, 2, 0.5)?;
    show_ratio(rt, "1 of 2 is 0.25", 1, 2, 0.25)
}

fn rounded_ratios(rt: &impl Print) -> io::Result<()> {
    show_ratio(rt, "1 of 3 is 0.3333333333333333", 1, 3, 0.3333333333333333)?;
    show_ratio(rt, "2 of 3 is 0.6666666666666666", 2, 3, 0.6666666666666666)?;
    show_ratio(rt, "3 of 2 is 1.5", 3, 2, 1.5)
}

fn greatest_ratios(rt: &impl Print) -> io::Result<()> {
    let n = 9007199254740992;
    show_ratio(rt, "2^53 of 2^53 is 1", n, n, 1.0)?;
    show_ratio(rt, "2^53 of 1 is 2^53", n, 1, 9007199254740992.0)?;
    show_ratio(rt, "2^53 of 0", n, 0, 0.0)
}

fn refused_ratios(rt: &impl Print) -> io::Result<()> {
    let n = 9007199254740993;
    show_ratio(rt, "2^53 + 1 of 1", n, 1, 0.0)?;
    show_ratio(rt, "2^53 + 1 of 0", n, 0, 0.0)?;
    show_ratio(rt, "1 of 2^53 + 1", 1, n, 0.0)?;
    show_ratio(rt, "0 of 2^64 - 1", 0, u64::MAX, 0.0)
}

// The program's answer to a line.
fn show_line(rt: &impl Print, name: &str, line: &[u8]) -> io::Result<()> {
    let mut out = [0u8; LISTING_SIZE];
    let n = program::answer(line, &mut out);
    println!(rt; "{name}:")?;
    rt.write_all(&out[..n])
}

fn lines(rt: &impl Print) -> io::Result<()> {
    show_line(
        rt,
        "printed run",
        b"2 3 0 1 - 0000000000000000 7 1 2 1000\n",
    )?;
    show_line(rt, "no newline", b"2 3 0 1 - 0000000000000000 7 1 2 1000")?;
    let behind = b"2 3 0 1 - 0000000000000000 7 1 2 1000\n\x00 7 a";
    show_line(rt, "text behind the line", behind)?;
    show_line(rt, "empty", b"")?;
    let second = b"\n2 3 0 1 - 0000000000000000 7 1 2 1000\n";
    show_line(rt, "newline first", second)
}

fn odd_bytes(rt: &impl Print) -> io::Result<()> {
    let cr = b"2 3 0 1 - 0000000000000000 7 1 2 1000\r\n";
    show_line(rt, "carriage return", cr)?;
    let zero = b"2 3 0 1 - 0000000000000000 7 1 2 1000\x00\n";
    show_line(rt, "zero byte", zero)
}

fn long_lines(rt: &impl Print) -> io::Result<()> {
    let zeros = [0u8; 100];
    show_line(rt, "100 zero bytes", &zeros)?;
    let digits = [55u8; 5000];
    show_line(rt, "5,000 digits", &digits)?;
    let spaces = [32u8; 5000];
    show_line(rt, "5,000 spaces", &spaces)
}

fn print_all(rt: &impl Print) -> io::Result<()> {
    runs::run_all(rt)?;
    ratios(rt)?;
    rounded_ratios(rt)?;
    greatest_ratios(rt)?;
    refused_ratios(rt)?;
    lines(rt)?;
    odd_bytes(rt)?;
    long_lines(rt)
}

// A write that fails ends nothing, and nobody is told: what is printed is compared.
fn main(rt: HostRuntime) {
    let _ = print_all(&Unfailing(&rt));
}
