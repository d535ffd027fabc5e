// The program's answer to its input: the listing of a run, or a refusal.
#![tactic(auto)]

ghost use Rattle.listing.specs.Listing.{listing_most};
ghost use Rattle.text.specs.Overlay.{Written};
ghost use Rattle.program.specs.Printed.{line_text, printed};

use config::Config;
use config::limits::{LISTED_SIZE, LOG_SIZE, RECORDS_SIZE};
use line::read::{Line, read_line};
use listing::write::{write_listing, write_refusal};
use rules::networks::Asked;
use sim::entries::run;

// Runs the topology that a line asks for, and lays its listing or refusal over the buffer.
fn answer_line(line: Line, out: &mut [u8]) -> usize
    ensures { Written listing_most (line_text line) out.old out.new result }
{
    let mut logs = [0u8; LOG_SIZE];
    let mut records = [0u64; RECORDS_SIZE];
    let mut snapshots = [0u64; LISTED_SIZE];
    // No `From<Line>` for `Asked`: they are types of two crates, and neither uses the other.
    let asked = Asked::Topology(line.topology, line.first, line.second);
    let config = Config::from(line);
    match run(asked, config, &mut logs, &mut records, &mut snapshots) {
        Ok(summary) => write_listing(summary, &records, &snapshots, &logs, out),
        Err(refusal) => write_refusal(refusal.number(), out),
    }
}

// Lays the answer to an input over the start of a buffer, and says how many bytes it has.
pub fn answer(input: &[u8], out: &mut [u8]) -> usize
    ensures { Written listing_most (printed input.now) out.old out.new result }
{
    match read_line(input) {
        Ok(line) => answer_line(line, out),
        Err(unreadable) => write_refusal(unreadable.number(), out),
    }
}
