// The results of the check of archive files, and of which of two supersedes.
ghost use Rattle.std.specs.Prelude.{ℕ, ◌≤◌, ◌≡◌, List, length};
ghost use Rattle.std.proofs.lemmas.List.Edits.{sets};
ghost use Rattle.marshal.specs.Files.{check_result, place_size, place_numbers, superseding_result};

use super::numbers::done_result;
use archive_supersede::{Place, Superseding};
use config::numbered::Numbered;

// The check's result where the file is not what the writer makes. It is no refusal.
pub const CHECKED_NO: u64 = 102;

// Of two files.
const FIRST_FILE: u64 = 0;

const SECOND_FILE: u64 = 1;

// The check's result.
pub fn check_result<R: Numbered>(answer: Result<bool, R>) -> u64
    ensures { result ≡ check_result R.number answer }
{
    match answer {
        Ok(true) => 0,
        Ok(false) => CHECKED_NO,
        Err(refusal) => refusal.number(),
    }
}

// Writes which of the two files it is, and where in it.
fn put_place(file: u64, place: Place, part: &mut [u64])
    requires { place_size ≤ length part.old }
    ensures { part.new ≡ sets part.old 0 (place_numbers file place) }
{
    part[0] = file;
    part[1] = place.offset as u64;
    part[2] = place.length as u64;
}

// The result for two files; the place of the records that supersede is written if there is one.
pub fn write_superseding<R: Numbered>(answer: Result<Superseding, R>, part: &mut [u64]) -> u64
    requires { place_size ≤ length part.old }
    ensures { ◌≡◌ {A = ℕ × List ℕ} (result, part.new) (superseding_result R.number answer part.old) }
{
    match answer {
        Ok(Superseding::First(place)) => put_place(FIRST_FILE, place, part),
        Ok(Superseding::Second(place)) => put_place(SECOND_FILE, place, part),
        Err(_) => {}
    }
    done_result(&answer)
}
