// Why a keeper refuses a call.
ghost use Rattle.std.specs.Prelude.{◌≡◌, Some};
ghost use Rattle.keepers.specs.Fault.{fault_number};
ghost use Rattle.keepers.specs.Texts.{fault_words};

use std::error::Error;
use std::fmt;

#[derive(Clone, Copy, PartialEq, Eq, Debug)]
pub enum KeeperFault {
    // a slot, a holder or a beginning thread is beyond its range
    OutOfRange = 20,
    // no more passes are counted
    PassLimit = 21,
}

impl KeeperFault {
    // The number by which users know the refusal.
    pub fn number(self) -> u8
        ensures { result ≡ fault_number self }
    {
        self as u8
    }
}

impl fmt::Display for KeeperFault {
    ghost output = { λ f. Some (fault_words f) };

    fn fmt<W: fmt::Write>(&self, f: &mut fmt::Formatter<W>) -> fmt::Result {
        let meaning = match *self {
            KeeperFault::OutOfRange => "a slot, a holder or a thread is beyond its range",
            KeeperFault::PassLimit => "no more passes are counted",
        };
        write!(f, "{meaning}")
    }
}

impl Error for KeeperFault {}
