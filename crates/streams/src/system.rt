// The system's own readers and writers. Any read or write of them may fail, so they are never steady.
use crate::sink::Sink;
use crate::source::Source;
use std::io;
use std::io::{Read, Write};

#[derive(Drop)]
pub struct System<T>(pub T);

impl<R: Read> Source for System<R> {
    ghost remaining = { λ s. R.remaining s.0 };

    ghost steady = { λ _. ⊥ };

    fn read(&mut self, buf: &mut [u8]) -> io::Result<usize> {
        self.0.read(buf)
    }
}

impl<W: Write> Sink for System<W> {
    ghost contents = { λ s. W.contents s.0 };

    ghost steady = { λ _. ⊥ };

    // a `Write` tells no more of it
    ghost flushed = { λ _. Unit {0} };

    fn write(&mut self, bytes: &[u8]) -> io::Result<usize> {
        self.0.write(bytes)
    }

    fn flush(&mut self) -> io::Result<()> {
        self.0.flush()
    }
}
