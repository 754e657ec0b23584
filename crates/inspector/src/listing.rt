// The text of a listing: the sections and events that a file holds, and how it ends.
ghost use Rattle.std.specs.Prelude.{◌≡◌, ◌+◌, ◌*◌, ◌≤◌, ◌++◌, IfOk, OnOk, length, string_bytes, sum};
ghost use Rattle.trace.specs.File.{body};
ghost use Rattle.trace.specs.Fronts.{IsFrontOf};
ghost use Rattle.inspector.specs.Listings.{IsListing, ending, event_lines, sections_text};
ghost use Rattle.inspector.specs.Places.{Fits, behind};

use events::Event;
use std::alloc::{AllocError, Global};
use trace::{Front, Reader, event_size, read_front};

// Where an event stands in the file: its number, from 1, and its first byte.
#[derive(Clone, Copy)]
struct Spot {
    number: usize,
    byte: usize,
}

// A line for each event, and on to the spot behind them.
fn push_events(text: &mut String, at: &mut Spot, events: &[Event]) -> Result<(), AllocError>
    requires { Fits at.old events.now }
    ensures text { OnOk result (string_bytes text.new ≡ string_bytes text.old ++ event_lines at.old.number at.old.byte events.now) }
    ensures at { OnOk result (at.new ≡ behind at.old events.now) }
{
    for event in events {
        let number = at.number;
        let byte = at.byte;
        writeln!(text, "  event {number}, byte {byte}: {event}")?;
        at.number += 1;
        at.byte += event_size(event);
    }
    Ok(())
}

// Each section with its events, where the bodies begin at the byte.
fn push_sections(
    text: &mut String,
    bodies: usize,
    counts: &[usize],
    events: &[Event],
) -> Result<(), AllocError>
    requires counted { sum counts.now ≡ length events.now }
    requires fits { Fits (record { number = 1; byte = bodies }) events.now }
    ensures { OnOk result (string_bytes text.new ≡ string_bytes text.old ++ sections_text 1 1 bodies counts.now events.now) }
{
    let mut at = Spot {
        number: 1,
        byte: bodies,
    };
    let mut left = events;
    for (index, count) in counts.iter().enumerate() {
        let section = index + 1;
        let (here, rest) = left.split_at(*count);
        writeln!(text, "section {section}")?;
        push_events(text, &mut at, here)?;
        left = rest;
    }
    Ok(())
}

// How the listing ends: with the refusal, or with what was read. That writing it gives the same bytes again holds of every
// file that reads whole, so it is said and not tried.
fn push_ending(text: &mut String, bytes: &[u8], front: &Front) -> Result<(), AllocError>
    ensures { OnOk result (string_bytes text.new ≡ string_bytes text.old ++ ending bytes.now front.now.trace.counts.items front.now.trace.events.items front.now.end) }
{
    match front.end {
        Some(refusal) => {
            let meaning = refusal.fault;
            writeln!(text, "{refusal}: {meaning}")
        }
        None => {
            let events = front.trace.events.as_slice().len();
            let sections = front.trace.counts.as_slice().len();
            let length = bytes.len();
            writeln!(text, "events {events} sections {sections}")?;
            writeln!(text, "written back: the same {length} bytes")
        }
    }
}

// The listing of the file.
pub(crate) fn listing(heap: Global, bytes: &[u8]) -> Result<String, AllocError>
    ensures { IfOk result (λ t. IsListing bytes.now (string_bytes t)) }
{
    let front = read_front(heap, bytes)?;
    // nothing was read of a file that doesn't open
    let sections = Reader::new(bytes).contents().unwrap_or(0);
    let mut text = String::new(heap);
    push_sections(
        &mut text,
        4 + 8 * sections,
        front.trace.counts.as_slice(),
        front.trace.events.as_slice(),
    )?;
    push_ending(&mut text, bytes, &front)?;
    Ok(text)
}
