// The events of a recorded run: who did what, one step at a time.
#![tactic(auto)]

mod places;
mod words;

pub use places::{PlaceSet, Places};

// One step of one thread. Numbers are as recorded; which of them are in range is the monitor's business.
#[derive(Clone, Copy, PartialEq, Eq, Debug)]
pub struct Event {
    pub thread: u8,
    pub action: Action,
}

// What the step does, with the operands of its kind and no others.
#[derive(Clone, Copy, PartialEq, Eq, Debug)]
pub enum Action {
    Read { place: u8 },
    Write { place: u8 },
    Acquire { lock: u8 },
    Release { lock: u8 },
    ReadFlag { flag: u8 },
    WriteFlag { flag: u8 },
    Fork { child: u8 },
    Join { child: u8 },
    Allocate { object: u8 },
    // This case is the struct of the two sets. Every definition tells them apart, so one more type round them is no plainer.
    Commit { reads: PlaceSet, writes: PlaceSet },
}
