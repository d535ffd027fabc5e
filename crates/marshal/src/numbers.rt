// The results of calls: 0, or the number of the refusal.
ghost use Rattle.std.specs.Prelude.{ℕ, ◌≤◌, ◌≡◌, List, length};
ghost use Rattle.marshal.specs.Numbers.{done_result, number_result};

use config::numbered::Numbered;

// The result of a call that has this answer, whatever it answers with.
pub fn done_result<T, R: Numbered>(answer: &Result<T, R>) -> u64
    ensures { result ≡ done_result R.number answer.now }
{
    match answer {
        Ok(_) => 0,
        Err(refusal) => refusal.number(),
    }
}

// The result of a call that has a number for an answer; the number is written if there is one. A slice, here and in `convert`, as
// C lends one: `capi` asks for its place. With a closure for what is written, here and in the other modules, its contract would
// say what each writes.
pub fn write_number<R: Numbered>(answer: Result<u64, R>, out: &mut [u64]) -> u64
    requires { 1 ≤ length out.old }
    ensures { ◌≡◌ {A = ℕ × List ℕ} (result, out.new) (number_result R.number answer out.old) }
{
    if let Ok(n) = answer {
        out[0] = n;
    }
    done_result(&answer)
}

// And of a call whose answer is a count.
pub fn write_count<R: Numbered>(answer: Result<usize, R>, out: &mut [u64]) -> u64
    requires { 1 ≤ length out.old }
    ensures { ◌≡◌ {A = ℕ × List ℕ} (result, out.new) (number_result R.number answer out.old) }
{
    write_number(answer.map(|n| n as u64), out)
}
