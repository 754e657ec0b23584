// What is asked of the monitor beside events, and what it answers.
ghost use Rattle.std.specs.Prelude.{◌≡◌, ◌<◌, true, false, MatchResult};
ghost use Rattle.monitor.specs.Answers.{number, verdict_of, slot_of, no_reader};

use roster::RuleFault;

// What becomes of an offered event that breaks no rule. A decline is no error: it is what a monitor is there to find.
#[derive(Clone, Copy, PartialEq, Eq, Debug)]
pub enum Decision {
    Accepted { serial: u32 },
    Declined { place: u8, witness: u32 },
}

// The answer to an offered event as one value, to be kept in a list or printed.
#[derive(Clone, Copy, PartialEq, Eq, Debug)]
pub enum Verdict {
    Accepted { serial: u32 },
    Refused { fault: RuleFault },
    Declined { place: u8, witness: u32 },
}

impl From<Result<Decision, RuleFault>> for Verdict {
    ghost from_gives = { λ r v. v ≡ verdict_of r };

    fn from(answer: Result<Decision, RuleFault>) -> Verdict {
        match answer {
            Ok(Decision::Accepted { serial }) => Verdict::Accepted { serial },
            Ok(Decision::Declined { place, witness }) => Verdict::Declined { place, witness },
            Err(fault) => Verdict::Refused { fault },
        }
    }
}

impl Verdict {
    // The number of a refusal or a decline; an acceptance has none.
    pub fn number(self) -> Option<u8>
        ensures { result ≡ number self }
    {
        match self {
            Verdict::Accepted { .. } => None,
            Verdict::Refused { fault } => Some(fault.number()),
            // the rules fix the number of a decline; a refusal's kind has its own, 1 to 9
            Verdict::Declined { .. } => Some(10),
        }
    }
}

// The access of a place that a question is about: its latest write, or a thread's latest read since.
#[derive(Clone, Copy, PartialEq, Eq, Debug)]
pub enum Access {
    Write,
    Read { thread: u8 },
}

impl Access {
    // The slot of a place that has the access.
    pub(crate) fn slot(self) -> Result<u8, RuleFault>
        ensures { MatchResult result (λ slot. (no_reader self ≡ false) × (slot ≡ slot_of self) × (slot < 9)) (λ fault. (no_reader self ≡ true) × (fault ≡ RuleFault.NoSuchThread)) }
    {
        match self {
            Access::Write => Ok(0),
            Access::Read { thread } if thread < 8 => Ok(thread + 1),
            Access::Read { .. } => Err(RuleFault::NoSuchThread),
        }
    }
}

// Whether a place's access is there, and then its serial, and whether it has reached the thread.
#[derive(Clone, Copy, PartialEq, Eq, Debug)]
pub struct Question {
    pub place: u8,
    pub access: Access,
    pub thread: u8,
}
