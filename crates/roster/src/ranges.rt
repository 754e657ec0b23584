// Whether the numbers that an event names are in range.
ghost use Rattle.std.specs.Prelude.{◌≡◌};
ghost use Rattle.roster.specs.Checks.{strange_thread, strange_thing};

use events::{Action, Event};

// Number 1: there are 8 threads.
pub(crate) fn no_such_thread(event: Event) -> bool
    ensures { result ≡ strange_thread event.thread event.action }
{
    match event.action {
        Action::Fork { child } | Action::Join { child } => event.thread >= 8 || child >= 8,
        _ => event.thread >= 8,
    }
}

// Number 2: there are 64 places, 32 locks, 32 flags and 16 objects.
pub(crate) fn no_such_thing(event: Event) -> bool
    ensures { result ≡ strange_thing event.action }
{
    match event.action {
        Action::Read { place } | Action::Write { place } => place >= 64,
        Action::Acquire { lock } | Action::Release { lock } => lock >= 32,
        Action::ReadFlag { flag } | Action::WriteFlag { flag } => flag >= 32,
        Action::Allocate { object } => object >= 16,
        _ => false,
    }
}
