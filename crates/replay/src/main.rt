// Answers every line of its input as the Rust source does. The first 71 lines put each question
// on both sides of its boundary; the next 664 were chosen among those of `oracle/`'s program
// `inputs` (small, random and broken), so that each end, lossy runs, NACKs, piggybacks, graphs given
// by rows and refusals are among them; four are at edges that those miss, and 16 are about question
// 16. The next 375 ask for one round: 12 of the printed run and about it, 350 chosen likewise among
// those of `inputs previews`, the rounds of the worked example of docs/RULES.md, and seven about
// question 16. The next 138 are sweeps: 41 put the questions and the lengths, 90 were made by `inputs
// sweeps`, and seven are about question 16. The last 60 ask for the validity of a configuration: 45 put
// each question, with 16 and without it, and 15 are of `inputs validities 1`. Lines of `inputs` whose
// rounds were too short have other repeats, round slots, intervals or limits here. `stdout` is what
// `oracle/`'s program `answer` prints for `stdin`.
#![tactic(auto)]

mod rounds_shown;
mod sweeps_shown;
mod validities_shown;

ghost use Rattle.std.specs.Prelude.{◌≡◌, ◌≤◌, length};
ghost use Rattle.config.specs.Limits.{max_nodes};

use config::Config;
use config::limits::{LISTED_SIZE, LOG_SIZE, MAX_NODES, RECORDS_SIZE};
use config::refusal::Refusal;
use line::read::{field, field_start, read_line};
use listing::write::{LISTING_SIZE, write_listing};
use rounds_shown::show_round;
use rules::networks::Asked;
use sim::entries::run;
use std::io;
use streams::answer_lines;
use streams::unfailing::Unfailing;
use sweeps_shown::{Seeds, show_sweep};
use text::numeral::{decimal, numeral};
use validities_shown::show_validity;

const INPUT_SIZE: usize = 131072;

// More than a readable configuration has.
const CONFIG: usize = 256;

// What stands in the place of a topology and its two numbers, where a configuration is read.
const FRONT: &[u8] = b"0 0 0 ";

// The sets of all nodes, and one too many.
const SETS: usize = MAX_NODES + 1;

const SET_DIGITS: usize = 8;

// The set that 8 hexadecimal digits stand for, the empty set where they stand for none.
fn set_of(digits: &[u8]) -> u32 {
    numeral(16, digits).map_or(0, |n| (n % 0x1_0000_0000) as u32)
}

// Sets of 8 digits with commas between them, and empty sets behind the last.
fn sets(text: &[u8]) -> [u32; SETS]
    ensures { 33 ≡ length result }
{
    let mut rows = [0u32; SETS];
    for (row, digits) in rows.iter_mut().zip(text.chunks(SET_DIGITS + 1)) {
        if SET_DIGITS <= digits.len() {
            *row = set_of(&digits[..SET_DIGITS]);
        }
    }
    rows
}

// The configuration that the rest of a line asks for, which is read as the end of a topology's line.
fn read_config(rest: &[u8]) -> Result<Config, Refusal> {
    let mut line = [0u8; CONFIG];
    let start = FRONT.len();
    let end = start + rest.len().min(CONFIG - start);
    line[..start].copy_from_slice(FRONT);
    line[start..end].copy_from_slice(&rest[..end - start]);
    read_line(&line[..end]).map(Config::from)
}

// Prints the listing of a run, which is laid over the buffer, or the refusal.
fn show_run(
    rt: &impl Print,
    asked: Asked,
    config: Config,
    out: &mut [u8; LISTING_SIZE],
) -> io::Result<()> {
    let mut logs = [0u8; LOG_SIZE];
    let mut records = [0u64; RECORDS_SIZE];
    let mut snapshots = [0u64; LISTED_SIZE];
    match run(asked, config, &mut logs, &mut records, &mut snapshots) {
        Ok(summary) => {
            let size = write_listing(summary, &records, &snapshots, &logs, out);
            rt.write_all(&out[..size])
        }
        Err(refusal) => println!(rt; "{refusal}"),
    }
}

fn show_unreadable(rt: &impl Print) -> io::Result<()> {
    println!(rt; "{}", Refusal::UnreadableLine)
}

// The answer to a line `rows NODES SETS`, followed by the configuration: what `show` prints of them.
fn answer_rows<F: FnMut(Asked, Config) -> io::Result<()>>(
    rt: &impl Print,
    line: &[u8],
    mut show: F,
) -> io::Result<()>
    requires { F.IsAlwaysCallable show }
{
    let Some(nodes) = decimal(field(line, 1)) else {
        return show_unreadable(rt);
    };
    let text = field(line, 2);
    let rows = sets(text);
    let count = ((text.len() + 1) / (SET_DIGITS + 1)).min(SETS);
    let at = field_start(line, 3);
    match read_config(&line[at..]) {
        Ok(config) => show(Asked::Rows(&rows[..count], nodes), config),
        Err(refusal) => println!(rt; "{refusal}"),
    }
}

// Whether a line that asks for no round is one of rows: no other begins with this letter.
fn has_rows(line: &[u8]) -> bool {
    line.first() == Some(&b'r')
}

// The answer to a line of rows, or to the program's, that begins at field k.
fn answer_from<F: Fn(Asked, Config) -> io::Result<()>>(
    rt: &impl Print,
    line: &[u8],
    k: usize,
    show: F,
) -> io::Result<()>
    requires { F.IsAlwaysCallable show }
{
    let at = field_start(line, k);
    let rest = &line[at..];
    if has_rows(rest) {
        return answer_rows(rt, rest, show);
    }
    // No `From<Line>` for `Asked`: they are types of two crates, and neither uses the other.
    match read_line(rest) {
        Ok(l) => show(
            Asked::Topology(l.topology, l.first, l.second),
            Config::from(l),
        ),
        Err(refusal) => println!(rt; "{refusal}"),
    }
}

// The answer to a line of rows, or to the program's, whose run is the program's own.
fn answer_run(rt: &impl Print, line: &[u8], out: &mut [u8; LISTING_SIZE]) -> io::Result<()> {
    if has_rows(line) {
        return answer_rows(rt, line, |asked, config| show_run(rt, asked, config, out));
    }
    let size = program::answer(line, out);
    rt.write_all(&out[..size])
}

// The seeds of `sweep LENGTH COUNT FIRST STEP`.
fn seeds_in(line: &[u8]) -> Option<Seeds> {
    Some(Seeds {
        length: decimal(field(line, 1))?,
        count: decimal(field(line, 2))?,
        first: decimal(field(line, 3))?,
        step: decimal(field(line, 4))?,
    })
}

// The answer to a line, or to one behind `round K`, a sweep's seeds or `validity`. One letter tells: the third of `round` is none
// of `rows`. A listing is laid over the buffer, which is filled once for all lines.
fn answer(rt: &impl Print, line: &[u8], out: &mut [u8; LISTING_SIZE]) -> io::Result<()> {
    match line {
        [b's', ..] => match seeds_in(line) {
            Some(seeds) => answer_from(
                rt,
                line,
                5,
                |asked, config| show_sweep(rt, asked, config, seeds),
            ),
            None => show_unreadable(rt),
        },
        [b'v', ..] => answer_from(
            rt,
            line,
            1,
            |asked, config| show_validity(rt, asked, config),
        ),
        [_, _, b'u', ..] => match decimal(field(line, 1)) {
            Some(k) => answer_from(
                rt,
                line,
                2,
                |asked, config| show_round(rt, asked, config, k),
            ),
            None => show_unreadable(rt),
        },
        _ => answer_run(rt, line, out),
    }
}

// A write that fails ends nothing, and nobody is told: what is printed is compared.
fn main(rt: HostRuntime) {
    let to = Unfailing(&rt);
    let mut out = [0u8; LISTING_SIZE];
    let _ = answer_lines(
        &rt,
        &mut [0u8; INPUT_SIZE],
        |line| answer(&to, line, &mut out),
    );
}
