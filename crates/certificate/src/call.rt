// What a host asks for by number, what it is told of a certificate, and by which number that there is none.
ghost use Rattle.std.specs.Prelude.{◌≡◌, Some};
ghost use Rattle.certificate.specs.Call.{NamedBy, fault_answer, fault_words};

use crate::ending::Ending;
use std::error::Error;
use std::fmt;

// The keepers that a run can use: locksets, clocks, or the short-cut layer over each.
#[derive(Clone, Copy, PartialEq, Eq, Debug)]
pub enum KeeperKind {
    Locksets,
    Clocks,
    LayeredLocksets,
    LayeredClocks,
}

// A certificate that is written: how long its text is, and how it ends.
#[derive(Clone, Copy, PartialEq, Eq, Debug)]
pub struct Summary {
    pub length: usize,
    pub ending: Ending,
}

// Why no certificate is written.
#[derive(Clone, Copy, PartialEq, Eq, Debug)]
pub enum CallFault {
    // there is no such kind of keeper
    NoSuchKind = -22,
    // the text does not fit the buffer
    NoRoom = -19,
}

impl TryFrom<u32> for KeeperKind {
    type Error = CallFault;

    ghost try_from_gives = { NamedBy };

    fn try_from(number: u32) -> Result<KeeperKind, CallFault> {
        match number {
            1 => Ok(KeeperKind::Locksets),
            2 => Ok(KeeperKind::Clocks),
            3 => Ok(KeeperKind::LayeredLocksets),
            4 => Ok(KeeperKind::LayeredClocks),
            _ => Err(CallFault::NoSuchKind),
        }
    }
}

impl CallFault {
    // The negative number that a host is answered.
    pub fn number(self) -> i64
        ensures { result ≡ fault_answer self }
    {
        self as i64
    }
}

impl fmt::Display for CallFault {
    ghost output = { λ fault. Some (fault_words fault) };

    fn fmt<W: fmt::Write>(&self, f: &mut fmt::Formatter<W>) -> fmt::Result {
        f.write_str(match self {
            CallFault::NoSuchKind => "there is no such kind of keeper",
            CallFault::NoRoom => "the certificate does not fit the buffer",
        })
    }
}

impl Error for CallFault {}
