// What is said goes on to its end: a write that fails shows as output that is missing, and what comes behind it is tried all the same. Each program
// has this: a function of a library needs a promise and its line in the first demand.
ghost use Rattle.std.specs.Prelude.{◌≡◌, Ok};

use std::fmt::Display;
use std::io;

#[derive(Drop)]
pub(crate) struct ToItsEnd<'a, P> {
    pub by: &'a P,
}

impl<P: Print> Print for ToItsEnd<'_, P> {
    fn print<D: Display + Drop>(&self, value: D) -> io::Result<()>
        ensures { result ≡ Ok tt }
    {
        let _ = self.by.print(value);
        Ok(())
    }

    fn println<D: Display + Drop>(&self, value: D) -> io::Result<()>
        ensures { result ≡ Ok tt }
    {
        let _ = self.by.println(value);
        Ok(())
    }

    fn write_all(&self, bytes: &[u8]) -> io::Result<()>
        ensures { result ≡ Ok tt }
    {
        let _ = self.by.write_all(bytes);
        Ok(())
    }
}
