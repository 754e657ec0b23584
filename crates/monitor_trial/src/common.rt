// Events that several checks offer.
use events::{Action, Event};

pub(crate) const FORK: Event = Event {
    thread: 0,
    action: Action::Fork { child: 1 },
};

pub(crate) const WRITE: Event = Event {
    thread: 0,
    action: Action::Write { place: 5 },
};

pub(crate) const READ: Event = Event {
    thread: 0,
    action: Action::Read { place: 5 },
};

// It races with the write, which has not reached its thread.
pub(crate) const RACING: Event = Event {
    thread: 1,
    action: Action::Read { place: 5 },
};
