// Bytes in memory as a source. Reading them never fails.
ghost use Rattle.std.specs.Prelude.{Some};

use crate::source::Source;
use std::io;
use std::io::Read;

#[derive(Drop)]
pub struct Memory<'a>(pub &'a [u8]);

impl Source for Memory<'_> {
    ghost remaining = { λ m. Some m.0.now };

    ghost steady = { λ _. Unit {0} };

    fn read(&mut self, buf: &mut [u8]) -> io::Result<usize> {
        self.0.read(buf)
    }
}
