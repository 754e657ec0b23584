// What takes bytes.
ghost use Rattle.std.specs.Prelude.{ℕ, List, IsOk, OnOk, Option};
ghost use Rattle.std.specs.Io.{WritesAtMost};
ghost use Rattle.std.specs.Io.KnownBytes.{Keeps, WriteAppends};
ghost use Rattle.streams.specs.Told.{TakesSome};

use std::io;

pub trait Sink {
    // the bytes that the sink holds, where they are known
    ghost contents: { Self → Option (List ℕ) };

    // no write or flush fails from here on, and each write takes some of its bytes
    ghost steady: { Self → Type 0 };

    // all that it has taken was passed on
    ghost flushed: { Self → Type 0 };

    // Takes some bytes from the front of these and tells how many.
    fn write(&mut self, bytes: &[u8]) -> io::Result<usize>
        ensures bound { WritesAtMost result bytes.now }
        ensures bytes { WriteAppends (contents self.old) (contents self.new) result bytes.now }
        ensures steady { steady self.old → TakesSome result bytes.now × steady self.new };

    // Passes on what it has taken.
    fn flush(&mut self) -> io::Result<()>
        ensures bytes { Keeps (contents self.old) (contents self.new) }
        ensures flushed { OnOk result (flushed self.new) }
        ensures steady { steady self.old → IsOk result × steady self.new };
}
