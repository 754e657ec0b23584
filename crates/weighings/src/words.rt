// Calls and replies in words.
ghost use Rattle.std.specs.Prelude.{Some};
ghost use Rattle.weighings.specs.Texts.{set_text, question_text, step_text, reply_text};

use crate::steps::Step;
use events::PlaceSet;
use monitor::{Access, Question, Reply, Verdict};
use slots::Told;
use std::fmt;

// The places of a set, lowest first, or that there are none.
#[derive(Drop)]
struct Places(PlaceSet);

impl fmt::Display for Places {
    ghost output = { λ s. Some (set_text s.0) };

    fn fmt<W: fmt::Write>(&self, f: &mut fmt::Formatter<W>) -> fmt::Result {
        let mut places = self.0.iter();
        let Some(first) = places.next() else {
            return write!(f, "nothing");
        };
        write!(f, "place {first}")?;
        for place in places {
            write!(f, ", place {place}")?;
        }
        Ok(())
    }
}

// Whose access of a place is asked about, and by whom.
#[derive(Drop)]
struct Asked(Question);

impl fmt::Display for Asked {
    ghost output = { λ q. Some (question_text q.0) };

    fn fmt<W: fmt::Write>(&self, f: &mut fmt::Formatter<W>) -> fmt::Result {
        let Question {
            place,
            access,
            thread,
        } = self.0;
        match access {
            Access::Write => write!(f, "has the latest write of place {place}")?,
            Access::Read { thread: reader } => {
                write!(f, "has the latest read of place {place} by thread {reader}")?
            }
        }
        write!(f, " reached thread {thread}?")
    }
}

// The call, up to its answer.
impl fmt::Display for Step {
    ghost output = { λ s. Some (step_text s) };

    fn fmt<W: fmt::Write>(&self, f: &mut fmt::Formatter<W>) -> fmt::Result {
        match *self {
            Step::Offer(thread, action) => write!(f, "thread {thread} {action}:"),
            Step::Commit {
                thread,
                reads,
                writes,
            } => {
                let read = Places(reads);
                let written = Places(writes);
                write!(
                    f,
                    "thread {thread} commits a slip that reads {read} and writes {written}:"
                )
            }
            Step::Count => write!(f, "how many events are accepted?"),
            Step::Ask(question) => write!(f, "{}", Asked(question)),
        }
    }
}

// The reply to a call.
#[derive(Drop)]
pub(crate) struct ReplyText(pub(crate) Reply);

impl fmt::Display for ReplyText {
    ghost output = { λ a. Some (reply_text a.0) };

    fn fmt<W: fmt::Write>(&self, f: &mut fmt::Formatter<W>) -> fmt::Result {
        match self.0 {
            Reply::Judged(Verdict::Accepted { serial }) => write!(f, "accepted as event {serial}"),
            Reply::Judged(Verdict::Declined { place, witness }) => {
                write!(f, "declined, a race at place {place} with event {witness}")
            }
            Reply::Judged(Verdict::Refused { fault }) | Reply::Shown(Err(fault)) => {
                write!(f, "refused with {}, {fault}", fault.number())
            }
            Reply::Counted(count) => write!(f, "{count}"),
            Reply::Shown(Ok(None)) => write!(f, "there is none"),
            Reply::Shown(Ok(Some(Told { serial, reached }))) => {
                let word = if reached { "yes" } else { "no" };
                write!(f, "{word}, it is event {serial}")
            }
        }
    }
}
