// The listing that the program prints: a run's, or a refusal's.
ghost use Rattle.std.specs.Prelude.{◌≡◌, ◌*◌, ◌≤◌, ◌<◌, get_or};
ghost use Rattle.config.specs.Limits.{max_listed, max_nodes, max_terms};
ghost use Rattle.text.specs.Overlay.{Lays, Room, Written};
ghost use Rattle.text.specs.Text.{each};
ghost use Rattle.listing.specs.Listing.{line_of, link_line, listing, log_line, proposal_line, radio_line, refusal_text, run_line};
ghost use Rattle.listing.specs.Listing.{line_most, link_line_most, listing_most, log_line_most, most_lines, proposal_line_most};
ghost use Rattle.listing.specs.Listing.{radio_line_most, refusal_most, run_line_most, snapshot_line, snapshot_line_most};
ghost use Rattle.listing.specs.Listing.{term_in, term_most};

use super::words::{put_labelled, put_spaced};
use config::limits::{LOG_COUNTS, MAX_LISTED, MAX_NODES, MAX_TERMS, RECORD_SIZE, SNAPSHOT_SIZE};
use metrics::summary::Summary;
use text::overlay::Overlay;

// No listing has more bytes: `listing_most` adds them up.
pub const LISTING_SIZE: usize = 165424;

// The lists of the listing, which have a line an item. No closure: the loop over one would ask for the text of an item in its
// contract, and here the enum says it.
#[derive(Clone, Copy)]
enum Lines {
    Proposals,
    Snapshots,
    Logs,
}

// The number at a place of a buffer, 0 past its end.
fn number_at(s: &[u64], i: usize) -> u64
    ensures { result ≡ get_or s.now i 0 }
{
    s.get(i).copied().unwrap_or(0)
}

// The byte at a place of a buffer, 0 past its end. One function for both would need a clause on what number each type stands
// for.
fn byte_at(s: &[u8], i: usize) -> u64
    ensures { result ≡ get_or s.now i 0 }
{
    u64::from(s.get(i).copied().unwrap_or(0))
}

fn put_run_line(over: &mut Overlay, s: Summary)
    requires { Room over.old.at run_line_most }
    ensures { Lays run_line_most (run_line s) over.old over.new }
{
    put_labelled(over, b"nodes ", s.nodes);
    put_labelled(over, b" rounds ", s.rounds);
    put_labelled(over, b" slots ", s.slots);
    put_labelled(over, b" ended ", s.ended);
    over.put(b'\n');
}

fn put_radio_line(over: &mut Overlay, s: Summary)
    requires { Room over.old.at radio_line_most }
    ensures { Lays radio_line_most (radio_line s) over.old over.new }
{
    put_labelled(over, b"listen ", s.listen);
    put_labelled(over, b" flood ", s.flood);
    put_labelled(over, b" sleep ", s.sleep);
    over.put(b'\n');
}

fn put_link_line(over: &mut Overlay, s: Summary)
    requires { Room over.old.at link_line_most }
    ensures { Lays link_line_most (link_line s) over.old over.new }
{
    put_labelled(over, b"links ", s.attempts);
    put_spaced(over, s.successes);
    put_labelled(over, b" floods ", s.flood_rounds);
    put_spaced(over, s.flood_nodes);
    put_spaced(over, s.covered);
    put_spaced(over, s.took_part);
    put_labelled(over, b" recovery ", s.nacks);
    put_spaced(over, s.piggybacks);
    over.put(b'\n');
}

// Record i.
fn put_proposal_line(over: &mut Overlay, records: &[u64], i: usize)
    requires { (i < max_terms) × Room over.old.at proposal_line_most }
    ensures { Lays proposal_line_most (proposal_line records.now i) over.old over.new }
{
    let id = number_at(records, RECORD_SIZE * i);
    let start = number_at(records, RECORD_SIZE * i + 1);
    let end = number_at(records, RECORD_SIZE * i + 2);
    put_labelled(over, b"proposal ", id);
    put_spaced(over, start);
    put_spaced(over, end);
    put_spaced(over, end.saturating_sub(start));
    over.put(b'\n');
}

// Snapshot i.
fn put_snapshot_line(over: &mut Overlay, snapshots: &[u64], i: usize)
    requires { (i < max_listed) × Room over.old.at snapshot_line_most }
    ensures { Lays snapshot_line_most (snapshot_line snapshots.now i) over.old over.new }
{
    let slot = number_at(snapshots, SNAPSHOT_SIZE * i);
    let progress = number_at(snapshots, SNAPSHOT_SIZE * i + 1);
    let listening = number_at(snapshots, SNAPSHOT_SIZE * i + 2);
    let flooding = number_at(snapshots, SNAPSHOT_SIZE * i + 3);
    let sleeping = number_at(snapshots, SNAPSHOT_SIZE * i + 4);
    put_labelled(over, b"snapshot ", slot);
    put_spaced(over, progress);
    put_spaced(over, listening);
    put_spaced(over, flooding);
    put_spaced(over, sleeping);
    over.put(b'\n');
}

// Term k of a log.
fn put_term(over: &mut Overlay, log: &[u8], k: usize)
    requires { Room over.old.at term_most }
    ensures { Lays term_most (term_in log.now k) over.old over.new }
{
    put_spaced(over, byte_at(log, k));
}

// The first n terms of a log.
fn put_terms(over: &mut Overlay, n: u64, log: &[u8])
    requires { (n ≤ max_terms) × Room over.old.at (max_terms * term_most) }
    ensures { Lays (max_terms * term_most) (each (term_in log.now) n) over.old over.new }
{
    // By the term's number: past the end of a short buffer a term is listed too, as 0.
    for k in 0..n as usize {
        put_term(over, log, k);
    }
}

// Node i's log.
fn put_log_line(over: &mut Overlay, logs: &[u8], i: usize)
    requires { (i < max_nodes) × Room over.old.at log_line_most }
    ensures { Lays log_line_most (log_line logs.now i) over.old over.new }
{
    put_labelled(over, b"log ", i as u64);
    let n = byte_at(logs, LOG_COUNTS + i).min(MAX_TERMS as u64);
    let start = (MAX_TERMS * i).min(logs.len());
    put_terms(over, n, &logs[start..]);
    over.put(b'\n');
}

// Line i of a list, which stands in one of the three buffers. They stay apart, here and below, as for a run.
fn put_line(
    over: &mut Overlay,
    lines: Lines,
    records: &[u64],
    snapshots: &[u64],
    logs: &[u8],
    i: usize,
)
    requires { (i < most_lines lines) × Room over.old.at (line_most lines) }
    ensures { Lays (line_most lines)
        (line_of lines records.now snapshots.now logs.now i) over.old over.new }
{
    match lines {
        Lines::Proposals => put_proposal_line(over, records, i),
        Lines::Snapshots => put_snapshot_line(over, snapshots, i),
        Lines::Logs => put_log_line(over, logs, i),
    }
}

// The first n lines of a list.
fn put_lines(
    over: &mut Overlay,
    lines: Lines,
    n: u64,
    records: &[u64],
    snapshots: &[u64],
    logs: &[u8],
)
    requires { (n ≤ most_lines lines) × Room over.old.at (most_lines lines * line_most lines) }
    ensures { Lays (most_lines lines * line_most lines)
        (each (line_of lines records.now snapshots.now logs.now) n) over.old over.new }
{
    // By the line's number: past the end of a short buffer an item is listed too, as zeros.
    for i in 0..n as usize {
        put_line(over, lines, records, snapshots, logs, i);
    }
}

// Lays a run's listing over the start of a buffer, and answers how many bytes it has.
pub fn write_listing(
    summary: Summary,
    records: &[u64],
    snapshots: &[u64],
    logs: &[u8],
    out: &mut [u8],
) -> usize
    ensures { Written listing_most (listing summary records.now snapshots.now logs.now)
        out.old out.new result }
{
    let mut over = Overlay { out, at: 0 };
    put_run_line(&mut over, summary);
    put_radio_line(&mut over, summary);
    put_link_line(&mut over, summary);
    let recorded = summary.records.min(MAX_TERMS as u64);
    put_lines(
        &mut over,
        Lines::Proposals,
        recorded,
        records,
        snapshots,
        logs,
    );
    let fit = (snapshots.len() / SNAPSHOT_SIZE) as u64;
    let stored = summary.snapshots.min(fit).min(MAX_LISTED as u64);
    put_lines(
        &mut over,
        Lines::Snapshots,
        stored,
        records,
        snapshots,
        logs,
    );
    let nodes = summary.nodes.min(MAX_NODES as u64);
    put_lines(&mut over, Lines::Logs, nodes, records, snapshots, logs);
    over.at
}

// Lays the refusal of a number over the start of a buffer, and answers how many bytes it has. Of any number: with a `Refusal`
// it would ask more of its callers.
pub fn write_refusal(number: u64, out: &mut [u8]) -> usize
    ensures { Written refusal_most (refusal_text number) out.old out.new result }
{
    let mut over = Overlay { out, at: 0 };
    put_labelled(&mut over, b"refused ", number);
    over.put(b'\n');
    over.at
}
