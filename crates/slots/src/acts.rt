// Which places an event accesses.
ghost use Rattle.std.specs.Prelude.{◌≡◌};
ghost use Rattle.order.specs.Acts.{writes_place, reads_place};

use events::{Action, Event};

// Whether the event writes the place, or commits with it in the write set.
pub(crate) fn writes_place(event: Event, place: u8) -> bool
    ensures { result ≡ writes_place event place }
{
    match event.action {
        Action::Write { place: written } => written == place,
        Action::Commit { reads: _, writes } => writes.contains(place),
        _ => false,
    }
}

// Whether the event reads the place, or commits with it in the read set alone.
pub(crate) fn reads_place(event: Event, place: u8) -> bool
    ensures { result ≡ reads_place event place }
{
    match event.action {
        Action::Read { place: read } => read == place,
        Action::Commit { reads, writes } => reads.contains(place) && !writes.contains(place),
        _ => false,
    }
}
