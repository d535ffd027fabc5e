// Standard input, output and error, as the programs use them. No contract can say which bytes are read or written.
#![tactic(auto)]

pub mod unfailing;

ghost use Rattle.std.specs.Prelude.{◌≤◌, IfSome, length};

use std::io;
use std::io::{Print, Read};

// Reads until the input has ended, the buffer is full or a read fails, or what a read brought is enough. Says how many bytes
// then stand at the buffer's start, and whether no read failed: `answer_lines` answers also what stands there when a read fails.
pub fn read_until<R: Read, F: Fn(&[u8]) -> bool>(
    from: &mut R,
    buf: &mut [u8],
    enough: &F,
) -> (usize, io::Result<()>)
    requires { F.IsAlwaysCallable enough.now }
    ensures { result.0 ≤ length buf.new }
{
    let mut done = 0;
    // A read says how far it came, so no step is known before.
    while done < buf.len() {
        let start = done;
        match from.read(&mut buf[start..]) {
            Ok(0) => break,
            Ok(got) => done += got,
            Err(failed) => return (done, Err(failed)),
        }
        if enough(&buf[start..done]) {
            break;
        }
    }
    (done, Ok(()))
}

// Reads what a program is given, up to the end or until what a read brought is enough, and says how many bytes then stand at
// the buffer's start. Where a read fails, that is said on standard error.
pub fn take_input<F: Fn(&[u8]) -> bool>(
    rt: &HostRuntime,
    program: &str,
    buf: &mut [u8],
    enough: F,
) -> Option<usize>
    requires { F.IsAlwaysCallable enough }
    ensures { IfSome result (λ n. n ≤ length buf.new) }
{
    let (n, ended) = read_until(&mut rt.stdin(), buf, &enough);
    if ended.is_err() {
        let _ = eprintln!(rt; "{program}: standard input could not be read");
        return None;
    }
    Some(n)
}

// Writes what a program answers. Where standard output does not take every byte, that is said on standard error.
pub fn give_answer(rt: &HostRuntime, program: &str, answer: &[u8]) {
    if rt.write_all(answer).is_err() {
        let _ = eprintln!(rt; "{program}: standard output did not take every byte");
    }
}

// Answers each line of what standard input brings, as far as the buffer holds it. What a failed read leaves is answered too.
pub fn answer_lines<F: FnMut(&[u8]) -> io::Result<()>>(
    rt: &HostRuntime,
    buf: &mut [u8],
    mut answer: F,
) -> io::Result<()>
    requires { F.IsAlwaysCallable answer }
{
    let (n, _) = read_until(&mut rt.stdin(), buf, &|_| false);
    for line in buf[..n].split_inclusive(|&byte| byte == b'\n') {
        answer(line.strip_suffix(b"\n").unwrap_or(line))?;
    }
    Ok(())
}
