// Output that goes on behind a write that fails: what was not written is left out, and nobody is told. The programs that are
// compared by what they print print to it.
ghost use Rattle.std.specs.Prelude.{◌≡◌, Ok};

use std::fmt::Display;
use std::io;
use std::io::Print;

#[derive(Clone, Copy, Drop)]
pub struct Unfailing<R>(pub R);

impl<R: Print> Print for Unfailing<R> {
    fn print<D: Display + Drop>(&self, value: D) -> io::Result<()>
        ensures { result ≡ Ok tt }
    {
        let _ = self.0.print(value);
        Ok(())
    }

    fn println<D: Display + Drop>(&self, value: D) -> io::Result<()>
        ensures { result ≡ Ok tt }
    {
        let _ = self.0.println(value);
        Ok(())
    }

    fn write_all(&self, bytes: &[u8]) -> io::Result<()>
        ensures { result ≡ Ok tt }
    {
        let _ = self.0.write_all(bytes);
        Ok(())
    }
}
