// The entries for archive files: the writer, the reader, the check, and which of two supersedes.
ghost use Rattle.std.specs.Prelude.{ℕ, ◌≡◌, List};
ghost use Rattle.config.specs.Refusals.{number_of};
ghost use Rattle.marshal.specs.Convert.{config_from};
ghost use Rattle.marshal.specs.Files.{check_result};
ghost use Rattle.archive_check.specs.Check.{check_of};
ghost use Rattle.capi.specs.Files.{inputs_from, returned_file, returned_filing, returned_sections, returned_part};

use super::SHORT;
use archive::inputs::Inputs;
use archive::layout::put_parts;
use archive_check::check_file;
use archive_supersede::which_supersedes;
use archive_writer::file_topology;
use marshal::convert::config_from;
use marshal::files::{check_result, write_superseding};
use marshal::numbers::{done_result, write_count};

// How many places the sections' offsets and lengths take.
const PARTS_SIZE: usize = 10;

// How many places a part of one of two files takes: which file, offset and length.
const PLACE_SIZE: usize = 3;

// Files the run of the topology with that number. The file's length into the first place of `written`.
#[tactic(auto, unfolding(crate::specs::Files::returned_filing))]
#[unsafe(no_mangle)]
pub extern "C" fn ctsim_file_topology(
    topology: u64,
    first: u64,
    second: u64,
    repeats: u64,
    round_slots_given: u64,
    round_slots: u64,
    loss: f64,
    seed: u64,
    proposals: u64,
    interval: u64,
    limit: u64,
    logs: &mut [u8],
    records: &mut [u64],
    snapshots: &mut [u64],
    file: &mut [u8],
    written: &mut [u64],
) -> u64
    ensures { returned_file result logs.new records.new snapshots.new file.new written.new
        ≡ returned_filing (inputs_from topology first second (config_from repeats round_slots_given round_slots loss seed proposals interval limit))
        logs.old records.old snapshots.old file.old written.old }
{
    if written.is_empty() {
        return SHORT;
    }
    let config = config_from(
        repeats,
        round_slots_given,
        round_slots,
        loss,
        seed,
        proposals,
        interval,
        limit,
    );
    let inputs = Inputs {
        topology,
        first,
        second,
        config,
    };
    let answer = file_topology(inputs, logs, records, snapshots, file);
    write_count(answer, written)
}

// Offset and length of each section of a file, into the first ten places of `parts`.
#[tactic(auto, unfolding(crate::specs::Files::returned_sections))]
#[unsafe(no_mangle)]
pub extern "C" fn ctsim_file_sections(file: &[u8], parts: &mut [u64]) -> u64
    ensures { ◌≡◌ {A = ℕ × List ℕ} (result, parts.new) (returned_sections file.now parts.old) }
{
    if parts.len() < PARTS_SIZE {
        return SHORT;
    }
    done_result(&put_parts(file, parts))
}

// Checks a file: 0 yes, 102 no.
#[unsafe(no_mangle)]
pub extern "C" fn ctsim_file_check(file: &[u8]) -> u64
    ensures { result ≡ check_result number_of (check_of file.now) }
{
    check_result(check_file(file))
}

// Which of two files supersedes the other, with offset and length of its records, into the first three places of `part`.
#[tactic(auto, unfolding(crate::specs::Files::returned_part))]
#[unsafe(no_mangle)]
pub extern "C" fn ctsim_file_supersede(first: &[u8], second: &[u8], part: &mut [u64]) -> u64
    ensures { ◌≡◌ {A = ℕ × List ℕ} (result, part.new) (returned_part first.now second.now part.old) }
{
    if part.len() < PLACE_SIZE {
        return SHORT;
    }
    write_superseding(which_supersedes(first, second), part)
}
