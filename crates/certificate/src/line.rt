// A line of a certificate, put together in a small buffer of its own.
ghost use Rattle.std.specs.Prelude.{◌≡◌, ◌+◌, ◌≤◌, [], ◌++◌, length, decimal};
ghost use Rattle.trace.specs.File.{laid};

use itoa::Buffer;
use std::marker::Model;

// More bytes than any line has.
const WIDTH: usize = 128;

// The line's bytes are the first `count` of these.
#[derive(Drop)]
pub(crate) struct Line {
    bytes: [u8; WIDTH],
    count: usize,
}

impl Model for Line {
    ghost use Rattle.std.specs.Prelude.{ℕ, ◌≤◌, List, take};

    ghost Value = { List ℕ };

    ghost view = { λ l. take l.count l.bytes };

    ghost invariant = { λ l. l.count ≤ 128 };
}

impl Line {
    #[inline]
    pub(crate) fn new() -> Line
        ensures { result ≡ [] }
    {
        Line {
            bytes: [0; WIDTH],
            count: 0,
        }
    }

    // How long the line is so far.
    #[inline]
    pub(crate) fn len(&self) -> usize
        ensures value { result ≡ length self.now }
        ensures few { result ≤ 128 }
    {
        self.count
    }

    // Puts words behind what is there.
    #[inline]
    pub(crate) fn put(&mut self, words: &[u8])
        requires { length self.old + length words.now ≤ 128 }
        ensures text { self.new ≡ self.old ++ words.now }
        ensures long { length self.new ≡ length self.old + length words.now }
    {
        let end = self.count + words.len();
        (&mut self.bytes[self.count..end]).copy_from_slice(words);
        self.count = end;
    }

    // Puts words and then a number, in plain decimals.
    #[inline]
    pub(crate) fn put_field(&mut self, words: &[u8], number: usize)
        requires { length self.old + length words.now + 20 ≤ 128 }
        ensures text { self.new ≡ self.old ++ (words.now ++ decimal number) }
        ensures long { length self.new ≤ length self.old + length words.now + 20 }
    {
        self.put(words);
        let mut digits = Buffer::new();
        self.put(digits.format(number).as_bytes());
    }

    // Copies the line into the buffer, and tells where it ends there.
    #[inline]
    pub(crate) fn copy_to(&self, out: &mut [u8], at: usize) -> usize
        requires { at + length self.now ≤ length out.old }
        ensures end { result ≡ at + length self.now }
        ensures after { out.new ≡ laid out.old at self.now }
    {
        let line = &self.bytes[..self.count];
        let end = at + line.len();
        (&mut out[at..end]).copy_from_slice(line);
        end
    }
}
