// certify over an input that fails in the middle, and over outputs that take a part of the text or all of it.
ghost use Rattle.std.specs.Prelude.{None};

use certifier::{Failure, certify, status};
use std::io;
use streams::{Memory, Sink, Source};

// Thread 0 forks thread 1, and both write place 5.
const RACING: [u8; 24] = [
    1, 0, 1, 0, 12, 0, 0, 0, 12, 0, 0, 0, 6, 0, 1, 1, 0, 5, 1, 1, 5, 1, 0, 5,
];

const TEXT: &[u8] = b"accepted 3 declined 1\nevent 3 place 5 witness 2\nnot clean\n";

// Gives zeros, one at a time, and fails after so many.
#[derive(Drop)]
struct Torn {
    left: u8,
}

impl Source for Torn {
    ghost remaining = { λ _. None };

    ghost steady = { λ _. ⊥ };

    fn read(&mut self, buf: &mut [u8]) -> io::Result<usize> {
        if self.left == 0 {
            return Err(io::Error::other("torn"));
        }
        if buf.is_empty() {
            return Ok(0);
        }
        self.left -= 1;
        buf[0] = 0;
        Ok(1)
    }
}

// Takes one byte at a time, up to so many, and fails then.
#[derive(Drop)]
struct Page {
    bytes: [u8; 64],
    used: usize,
    room: usize,
}

impl Page {
    fn new(room: usize) -> Page {
        Page {
            bytes: [0; 64],
            used: 0,
            room,
        }
    }

    // Whether it holds a front of the text, and nothing else.
    fn holds_front(&self) -> bool {
        let held = self.bytes.get(..self.used);
        held.is_some_and(|bytes| TEXT.starts_with(bytes))
    }
}

impl Sink for Page {
    ghost contents = { λ _. None };

    ghost steady = { λ _. ⊥ };

    ghost flushed = { λ _. Unit {0} };

    fn write(&mut self, bytes: &[u8]) -> io::Result<usize> {
        if self.used >= self.room || self.used >= 64 {
            return Err(io::Error::other("full"));
        }
        if bytes.is_empty() {
            return Ok(0);
        }
        self.bytes[self.used] = bytes[0];
        self.used += 1;
        Ok(1)
    }

    fn flush(&mut self) -> io::Result<()> {
        Ok(())
    }
}

// What became of the text, how much of it is written, and the status without and with --exit-code.
fn tell<S: Source>(rt: &HostRuntime, name: &str, input: &mut S, room: usize) -> anyhow::Result<()> {
    let mut page = Page::new(room);
    let answer = certify(input, &mut page);
    let outcome = match &answer {
        Ok(_) => "printed",
        Err(Failure::Reading(_)) => "not read",
        Err(Failure::Printing(_)) => "not printed",
    };
    let written = if page.holds_front() {
        "of the text"
    } else {
        "of something else"
    };
    let used = page.used;
    let plain = status(&answer, false);
    let by_ending = status(&answer, true);
    println!(rt;
        "{name}, room for {room}: {outcome}, {used} bytes {written}, status {plain} or {by_ending}"
    )?;
    Ok(())
}

pub(crate) fn failing(rt: &HostRuntime) -> anyhow::Result<()> {
    tell(rt, "a torn input", &mut Torn { left: 20 }, 64)?;
    for room in [0, 30, 64] {
        tell(rt, "a racing file", &mut Memory(&RACING), room)?;
    }
    Ok(())
}
