// The bytes of an archive file.
ghost use Rattle.std.specs.Prelude.{◌≡◌, not, ◌+◌, ◌*◌, ◌^◌, ◌≤◌, ◌<◌, T, length};
ghost use Rattle.std.specs.Float.Ieee.{is_nan};
ghost use Rattle.std.proofs.lemmas.List.Edits.{sets};
ghost use Rattle.config.specs.Limits.{max_terms};
ghost use Rattle.metrics.specs.Totals.{totals};
ghost use Rattle.rules.specs.Answers.{ran};
ghost use Rattle.archive.specs.Bytes.{numbers_bytes};
ghost use Rattle.archive.specs.Inputs.{input_numbers};
ghost use Rattle.archive.specs.Layout.{section_number, pair_at, first_offset, snapshot_bytes};
ghost use Rattle.archive_writer.specs.Filed.{filed};
ghost use Rattle.archive_writer.specs.Working.{totals_at, records_at, file_length, pair_of, head_of, CanPut, Laid};

use archive::bytes::{NUMBER_SIZE, put_bytes, put_numbers};
use archive::inputs::{Inputs, input_numbers};
use archive::layout::{
    FIRST_OFFSET, INPUTS_SIZE, MARKER, OFFSET_SIZE, RECORD_BYTES, SNAPSHOT_BYTES, Section,
    TOTALS_SIZE,
};
use config::limits::{LOG_SIZE, RECORD_SIZE, SNAPSHOT_SIZE};
use metrics::summary::Summary;
use metrics::totals::totals_of;
use text::overlay::Overlay;

// Where the totals and the records begin.
const TOTALS_AT: usize = FIRST_OFFSET + INPUTS_SIZE;

const RECORDS_AT: usize = TOTALS_AT + TOTALS_SIZE;

// The length of a file of so many records and snapshots.
pub fn length_of(records: usize, snapshots: usize) -> usize
    requires { (records ≤ max_terms) × (snapshot_bytes * snapshots < 2 ^ 63) }
    ensures { result ≡ file_length records snapshots }
{
    FIRST_OFFSET
        + INPUTS_SIZE
        + TOTALS_SIZE
        + RECORD_BYTES * records
        + SNAPSHOT_BYTES * snapshots
        + LOG_SIZE
}

// A section's pair of the directory.
fn put_pair(section: Section, offset: usize, size: usize, file: &mut [u8])
    requires { first_offset ≤ length file.old }
    ensures { file.new ≡ sets file.old (pair_at (section_number section)) (pair_of offset size) }
{
    let at = section.pair_at();
    put_bytes(offset as u64, OFFSET_SIZE, file, at);
    put_bytes(size as u64, OFFSET_SIZE, file, at + OFFSET_SIZE);
}

// The first byte and the directory, for so many bytes of records and of snapshots.
fn put_head(records: usize, snapshots: usize, file: &mut [u8])
    requires { file_length 0 0 + records + snapshots ≤ length file.old }
    ensures { file.new ≡ sets file.old 0 (head_of records snapshots) }
{
    let at_snapshots = RECORDS_AT + records;
    file[0] = MARKER;
    put_pair(Section::Inputs, FIRST_OFFSET, INPUTS_SIZE, file);
    put_pair(Section::Totals, TOTALS_AT, TOTALS_SIZE, file);
    put_pair(Section::Records, RECORDS_AT, records, file);
    put_pair(Section::Snapshots, at_snapshots, snapshots, file);
    put_pair(Section::Logs, at_snapshots + snapshots, LOG_SIZE, file);
}

// The section of the inputs.
fn put_inputs(inputs: Inputs, file: &mut [u8])
    requires { T (not (is_nan inputs.config.loss_rate)) × (totals_at ≤ length file.old) }
    ensures { file.new ≡ sets file.old first_offset (numbers_bytes (input_numbers inputs)) }
{
    let numbers = input_numbers(inputs);
    put_numbers(&numbers, file, FIRST_OFFSET);
}

// The section of the totals.
fn put_totals(summary: Summary, file: &mut [u8])
    requires { records_at ≤ length file.old }
    ensures { file.new ≡ sets file.old totals_at (numbers_bytes (totals summary)) }
{
    let numbers = totals_of(summary);
    put_numbers(&numbers, file, TOTALS_AT);
}

// The file of a run, from its summary, its buffers of records and snapshots, and its logs. Its length. The buffers stay
// apart, as for a run.
pub fn put_file(
    inputs: Inputs,
    summary: Summary,
    records: &[u64],
    snapshots: &[u64],
    logs: &[u8],
    file: &mut [u8],
) -> usize
    requires { CanPut inputs summary records.now snapshots.now logs.now file.old }
    ensures { Laid (filed inputs (ran summary logs.now records.now snapshots.now)) file.old result file.new }
{
    let recorded = RECORD_SIZE * (summary.records as usize);
    let room = snapshots.len() / SNAPSHOT_SIZE;
    let stored = SNAPSHOT_SIZE * room.min(summary.snapshots as usize);
    let at_snapshots = RECORDS_AT + NUMBER_SIZE * recorded;
    let at_logs = at_snapshots + NUMBER_SIZE * stored;
    put_head(NUMBER_SIZE * recorded, NUMBER_SIZE * stored, file);
    put_inputs(inputs, file);
    put_totals(summary, file);
    put_numbers(&records[..recorded], file, RECORDS_AT);
    put_numbers(&snapshots[..stored], file, at_snapshots);
    let mut over = Overlay {
        out: file,
        at: at_logs,
    };
    over.put_word(logs);
    over.at
}
