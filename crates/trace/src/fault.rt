// What is wrong with a trace file, and where.
ghost use Rattle.std.specs.Prelude.{◌≡◌, Some};
ghost use Rattle.trace.specs.Numbers.{number, write_number, layer};
ghost use Rattle.trace.specs.Texts.{fault_words, write_words, site_text, refusal_text};

use std::error::Error;
use std::fmt;

// A place in a file, as a refusal names it: sections and events count from 1, and both are 0 before the first event.
#[derive(Clone, Copy, PartialEq, Eq, Debug)]
pub struct Site {
    pub section: usize,
    pub event: usize,
    pub byte: usize,
}

#[derive(Clone, Copy, PartialEq, Eq, Debug)]
pub enum TraceFault {
    TooLong = 12,
    Truncated = 13,
    Edition = 14,
    Contents = 15,
    Kind = 16,
    Overrun = 17,
}

// A fault with its site.
#[derive(Clone, Copy, PartialEq, Eq, Debug)]
pub struct Refusal {
    pub fault: TraceFault,
    pub at: Site,
}

// Why a trace is not written. The number of a file that is too long is the same as where one is read.
#[derive(Clone, Copy, PartialEq, Eq, Debug)]
pub enum WriteFault {
    Counts = 18,
    Oversize = 12,
    NoRoom = 19,
}

impl Refusal {
    // The layer that refuses: 1 is the trace file. The rules fix the number.
    pub fn layer(self) -> u8
        ensures { result ≡ layer self }
    {
        1
    }
}

impl TraceFault {
    // The number of the fault.
    pub fn number(self) -> u8
        ensures { result ≡ number self }
    {
        self as u8
    }
}

impl WriteFault {
    // The number of the fault.
    pub fn number(self) -> u8
        ensures { result ≡ write_number self }
    {
        self as u8
    }
}

impl fmt::Display for Site {
    ghost output = { λ s. Some (site_text s) };

    fn fmt<W: fmt::Write>(&self, f: &mut fmt::Formatter<W>) -> fmt::Result {
        let Site {
            section,
            event,
            byte,
        } = *self;
        write!(f, "section {section} event {event} byte {byte}")
    }
}

impl fmt::Display for TraceFault {
    ghost output = { λ f. Some (fault_words f) };

    fn fmt<W: fmt::Write>(&self, f: &mut fmt::Formatter<W>) -> fmt::Result {
        let meaning = match *self {
            TraceFault::TooLong => "the file has more than 65536 bytes",
            TraceFault::Truncated => "the file ends inside its header or contents",
            TraceFault::Edition => "the edition is not 1",
            TraceFault::Contents => "the contents do not fit the file",
            TraceFault::Kind => "there is no such kind of event",
            TraceFault::Overrun => "the event runs over the end of its section",
        };
        write!(f, "{meaning}")
    }
}

impl fmt::Display for WriteFault {
    ghost output = { λ f. Some (write_words f) };

    fn fmt<W: fmt::Write>(&self, f: &mut fmt::Formatter<W>) -> fmt::Result {
        let meaning = match *self {
            WriteFault::Counts =>
                "there are more than 256 sections, or they do not hold all events",
            WriteFault::Oversize => "the file would have more than 65536 bytes",
            WriteFault::NoRoom => "the file does not fit the buffer",
        };
        write!(f, "{meaning}")
    }
}

impl fmt::Display for Refusal {
    ghost output = { λ f. Some (refusal_text f) };

    fn fmt<W: fmt::Write>(&self, f: &mut fmt::Formatter<W>) -> fmt::Result {
        let number = self.fault.number();
        let site = self.at;
        write!(f, "refused {number} {site}")
    }
}

impl Error for TraceFault {}

impl Error for WriteFault {}

impl Error for Refusal {}
