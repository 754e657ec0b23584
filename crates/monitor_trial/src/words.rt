// Answers in words.
use crate::piles::Offered;
use monitor::{Access, Question, Verdict};
use roster::RuleFault;
use slots::Told;
use std::fmt;

// What is printed of a question or an answer.
#[derive(Drop)]
pub(crate) struct Words<T>(pub(crate) T);

impl fmt::Display for Words<RuleFault> {
    fn fmt<W: fmt::Write>(&self, f: &mut fmt::Formatter<W>) -> fmt::Result {
        write!(f, "refused {}", self.0.number())
    }
}

// The last answer of a run.
impl fmt::Display for Words<Option<&Offered>> {
    fn fmt<W: fmt::Write>(&self, f: &mut fmt::Formatter<W>) -> fmt::Result {
        match self.0 {
            Some(offered) => write!(
                f,
                "{}, passes up to {}",
                Words(offered.verdict),
                offered.after
            ),
            None => write!(f, "nothing"),
        }
    }
}

// The answer to an event, and the passes that it makes.
impl fmt::Display for Words<Offered> {
    fn fmt<W: fmt::Write>(&self, f: &mut fmt::Formatter<W>) -> fmt::Result {
        let Offered {
            verdict,
            passes,
            before,
            after,
        } = self.0;
        write!(f, "{}, passes {passes}", Words(verdict))?;
        if self.0.is_counted() {
            return Ok(());
        }
        write!(f, ", but counted {before} before and {after} after")
    }
}

// The answer to an event.
impl fmt::Display for Words<Verdict> {
    fn fmt<W: fmt::Write>(&self, f: &mut fmt::Formatter<W>) -> fmt::Result {
        match self.0 {
            Verdict::Accepted { serial } => write!(f, "serial {serial}"),
            Verdict::Refused { fault } => write!(f, "{}", Words(fault)),
            Verdict::Declined { place, witness } => {
                write!(f, "declined place {place} witness {witness}")
            }
        }
    }
}

impl fmt::Display for Words<Question> {
    fn fmt<W: fmt::Write>(&self, f: &mut fmt::Formatter<W>) -> fmt::Result {
        let Question {
            place,
            access,
            thread,
        } = self.0;
        match access {
            Access::Write => write!(f, "write of place {place} for thread {thread}"),
            Access::Read { thread: reader } => {
                write!(
                    f,
                    "read of place {place} by thread {reader} for thread {thread}"
                )
            }
        }
    }
}

// The answer to a question.
impl fmt::Display for Words<Result<Option<Told>, RuleFault>> {
    fn fmt<W: fmt::Write>(&self, f: &mut fmt::Formatter<W>) -> fmt::Result {
        match self.0 {
            Ok(Some(Told { serial, reached })) => {
                let word = if reached { "yes" } else { "no" };
                write!(f, "serial {serial} reached {word}")
            }
            Ok(None) => write!(f, "empty"),
            Err(fault) => write!(f, "{}", Words(fault)),
        }
    }
}

// The answer to adding a place to a slip.
impl fmt::Display for Words<Result<(), RuleFault>> {
    fn fmt<W: fmt::Write>(&self, f: &mut fmt::Formatter<W>) -> fmt::Result {
        match self.0 {
            Ok(()) => write!(f, "added"),
            Err(fault) => write!(f, "{}", Words(fault)),
        }
    }
}
