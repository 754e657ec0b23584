// Why an event is refused.
ghost use Rattle.std.specs.Prelude.{◌≡◌, Some};
ghost use Rattle.roster.specs.Numbers.{fault_number};
ghost use Rattle.roster.specs.Texts.{fault_words};

use std::error::Error;
use std::fmt;

// In the order in which they are asked: where several apply, the first is told.
#[derive(Clone, Copy, PartialEq, Eq, Debug)]
pub enum RuleFault {
    NoSuchThread = 1,
    NoSuchThing = 2,
    NotRunning = 3,
    ForkedBefore = 4,
    JoinsAmiss = 5,
    LockHeld = 6,
    LockNotHeld = 7,
    JoinedHolds = 8,
    RecordFull = 9,
}

impl RuleFault {
    // The number of the fault.
    pub fn number(self) -> u8
        ensures { result ≡ fault_number self }
    {
        self as u8
    }
}

impl fmt::Display for RuleFault {
    ghost output = { λ f. Some (fault_words f) };

    fn fmt<W: fmt::Write>(&self, f: &mut fmt::Formatter<W>) -> fmt::Result {
        let meaning = match *self {
            RuleFault::NoSuchThread => "there is no such thread",
            RuleFault::NoSuchThing => "there is no such place, lock, flag or object",
            RuleFault::NotRunning => "the thread is not running",
            RuleFault::ForkedBefore => "the thread was forked before",
            RuleFault::JoinsAmiss => "a thread joins itself or one that was not forked",
            RuleFault::LockHeld => "the lock is held",
            RuleFault::LockNotHeld => "the thread does not hold the lock",
            RuleFault::JoinedHolds => "the joined thread holds a lock",
            RuleFault::RecordFull => "the record is full",
        };
        write!(f, "{meaning}")
    }
}

impl Error for RuleFault {}
