// What gives bytes.
ghost use Rattle.std.specs.Prelude.{ℕ, List, IsOk, Option};
ghost use Rattle.std.specs.Io.{ReadsAtMost};
ghost use Rattle.std.specs.Io.KnownBytes.{ReadConsumes};

use std::io;

pub trait Source {
    // the bytes that reads will give from here on, where they are known
    ghost remaining: { Self → Option (List ℕ) };

    // no read fails from here on
    ghost steady: { Self → Type 0 };

    // Reads some bytes to the front of the buffer and tells how many: none only at the end, or where there is no room.
    fn read(&mut self, buf: &mut [u8]) -> io::Result<usize>
        ensures bound { ReadsAtMost result buf.new }
        ensures bytes { ReadConsumes (remaining self.old) (remaining self.new) result buf.new }
        ensures steady { steady self.old → IsOk result × steady self.new };
}
