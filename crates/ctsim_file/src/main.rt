// The program: reads one line, and writes the archive file of its run, or on standard error the refusal. `main` can
// carry no contract: that it hands over what was read, and writes what it was given, is for a reader to see.
#![tactic(auto)]

ghost use Rattle.std.specs.Prelude.{ℕ, ◌≤◌, ◌≡◌, List, length};
ghost use Rattle.ctsim_file.specs.Filed.{Answer, line_filing, filed_for, size_of};

use archive::inputs::Inputs;
use archive::layout::{FIRST_OFFSET, INPUTS_SIZE, RECORD_BYTES, SNAPSHOT_BYTES, TOTALS_SIZE};
use archive_writer::file_topology;
use config::Config;
use config::limits::{LISTED_SIZE, LOG_SIZE, MAX_LISTED, MAX_TERMS, RECORDS_SIZE};
use config::refusal::Refusal;
use line::read::{Line, read_line};
use streams::{give_answer, take_input};

// How much is read. A readable line is far shorter, so a line that is longer is unreadable whatever
// follows.
const INPUT_SIZE: usize = 4096;

// The length of the longest file: of the most records, and of as many snapshots as the program stores. As
// `length_of` adds them up, which a constant cannot call.
const FILE_SIZE: usize = FIRST_OFFSET
    + INPUTS_SIZE
    + TOTALS_SIZE
    + RECORD_BYTES * MAX_TERMS
    + SNAPSHOT_BYTES * MAX_LISTED
    + LOG_SIZE;

// Files the run of the topology that a line asks for.
fn file_line(line: Line, file: &mut [u8]) -> Result<usize, Refusal>
    ensures { ◌≡◌ {A = Answer × List ℕ} (result, file.new) (line_filing line file.old) }
{
    let mut logs = [0u8; LOG_SIZE];
    let mut records = [0u64; RECORDS_SIZE];
    let mut snapshots = [0u64; LISTED_SIZE];
    // No `From<Line>` for `Inputs`: they are types of two crates, and neither uses the other.
    let inputs = Inputs {
        topology: line.topology,
        first: line.first,
        second: line.second,
        config: Config::from(line),
    };
    file_topology(inputs, &mut logs, &mut records, &mut snapshots, file)
}

// Files the run that an input asks for.
fn file_input(input: &[u8], file: &mut [u8]) -> Result<usize, Refusal>
    ensures filed { ◌≡◌ {A = Answer × List ℕ} (result, file.new) (filed_for input.now file.old) }
    ensures within { size_of result ≤ length file.new }
{
    let line = read_line(input)?;
    file_line(line, file)
}

fn main(rt: HostRuntime) {
    let mut input = [0u8; INPUT_SIZE];
    let Some(n) = take_input(&rt, "ctsim-file", &mut input, |got| got.contains(&b'\n')) else {
        return;
    };
    let mut file = [0u8; FILE_SIZE];
    match file_input(&input[..n], &mut file) {
        Ok(size) => give_answer(&rt, "ctsim-file", &file[..size]),
        Err(refusal) => {
            let _ = eprintln!(rt; "{refusal}");
        }
    }
}
