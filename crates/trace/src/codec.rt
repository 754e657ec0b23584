// One event as bytes. The definitions say by its place in the whole file where each number stands, so the functions here take
// the whole file and a place, and no shorter slice.
ghost use Rattle.std.specs.Prelude.{◌≡◌, ◌+◌, ◌<◌, ◌≤◌, true, length, is_ok, slice_index};
ghost use Rattle.trace.specs.Codec.{size, place_set_at, action_at, event_at};
ghost use Rattle.trace.specs.Kinds.{code};

use crate::fault::TraceFault;
use crate::kind::Kind;
use crate::place::Place;
use crate::words::chunk;
use events::{Action, Event, PlaceSet};

// The set whose eight bytes begin at `at`.
fn read_set(bytes: &[u8], at: usize) -> PlaceSet
    requires { at + 8 ≤ length bytes.now }
    ensures { result ≡ place_set_at bytes.now at }
{
    PlaceSet {
        word: u64::from_le_bytes(chunk(bytes, at)),
    }
}

// The action of the kind whose operands begin at `at`.
fn read_action(bytes: &[u8], kind: Kind, at: usize) -> Action
    requires { at + size (code kind) ≤ length bytes.now + 2 }
    ensures { result ≡ action_at bytes.now (code kind) at }
{
    let operand = bytes[at];
    match kind {
        Kind::Read => Action::Read { place: operand },
        Kind::Write => Action::Write { place: operand },
        Kind::Acquire => Action::Acquire { lock: operand },
        Kind::Release => Action::Release { lock: operand },
        Kind::ReadFlag => Action::ReadFlag { flag: operand },
        Kind::WriteFlag => Action::WriteFlag { flag: operand },
        Kind::Fork => Action::Fork { child: operand },
        Kind::Join => Action::Join { child: operand },
        Kind::Allocate => Action::Allocate { object: operand },
        Kind::Commit => Action::Commit {
            reads: read_set(bytes, at),
            writes: read_set(bytes, at + 8),
        },
    }
}

// Takes the event at the place, in a body that ends at `end`, and moves the place past it.
// Where the event is refused, the place is left inside it.
pub(crate) fn read_event(bytes: &[u8], at: &mut Place, end: usize) -> Result<Event, TraceFault>
    requires { (at.old.byte < end) × ((end ≤ length bytes.now) × (at.old.events ≤ at.old.byte)) }
    ensures answer { result ≡ event_at bytes.now at.old.byte end }
    ensures byte { is_ok result ≡ true → at.new.byte ≡ at.old.byte + size (slice_index bytes.now at.old.byte) }
    ensures inside { is_ok result ≡ true → at.new.byte ≤ end }
    ensures events { is_ok result ≡ true → at.new.events ≡ at.old.events + 1 }
    ensures section { at.new.section ≡ at.old.section }
{
    let first = at.byte;
    at.byte += 1;
    let kind = Kind::try_from(bytes[first])?;
    let size = kind.size();
    if end - first < size {
        return Err(TraceFault::Overrun);
    }
    let thread = bytes[first + 1];
    let action = read_action(bytes, kind, first + 2);
    at.byte = first + size;
    at.events += 1;
    Ok(Event { thread, action })
}
