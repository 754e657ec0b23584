// Sets of places, actions and events in words.
ghost use Rattle.std.specs.Prelude.{Some};
ghost use Rattle.events.specs.Texts.{set_text, action_text, event_text};

use crate::places::PlaceSet;
use crate::{Action, Event};
use std::fmt;

impl fmt::Display for PlaceSet {
    ghost output = { λ s. Some (set_text s) };

    // The places, lowest first, or that there are none.
    fn fmt<W: fmt::Write>(&self, f: &mut fmt::Formatter<W>) -> fmt::Result {
        let mut places = self.iter();
        let Some(first) = places.next() else {
            return write!(f, "none");
        };
        write!(f, "{first}")?;
        for place in places {
            write!(f, " {place}")?;
        }
        Ok(())
    }
}

impl fmt::Display for Action {
    ghost output = { λ a. Some (action_text a) };

    fn fmt<W: fmt::Write>(&self, f: &mut fmt::Formatter<W>) -> fmt::Result {
        match *self {
            Action::Read { place } => write!(f, "reads place {place}"),
            Action::Write { place } => write!(f, "writes place {place}"),
            Action::Acquire { lock } => write!(f, "acquires lock {lock}"),
            Action::Release { lock } => write!(f, "releases lock {lock}"),
            Action::ReadFlag { flag } => write!(f, "reads flag {flag}"),
            Action::WriteFlag { flag } => write!(f, "writes flag {flag}"),
            Action::Fork { child } => write!(f, "forks thread {child}"),
            Action::Join { child } => write!(f, "joins thread {child}"),
            Action::Allocate { object } => write!(f, "allocates object {object}"),
            Action::Commit { reads, writes } => {
                write!(
                    f,
                    "commits, reading places {reads}, writing places {writes}"
                )
            }
        }
    }
}

impl fmt::Display for Event {
    ghost output = { λ e. Some (event_text e) };

    fn fmt<W: fmt::Write>(&self, f: &mut fmt::Formatter<W>) -> fmt::Result {
        let thread = self.thread;
        let action = self.action;
        write!(f, "thread {thread} {action}")
    }
}
