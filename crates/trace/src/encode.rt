// Header, contents and events, put into a buffer one behind another.
ghost use Rattle.std.specs.Prelude.{◌≡◌, ◌+◌, ◌*◌, ◌<◌, ◌≤◌, ◌++◌, length, sum};
ghost use Rattle.std.specs.List.{AllByRecursion};
ghost use Rattle.trace.specs.Words.{bytes_of};
ghost use Rattle.trace.specs.Codec.{operands, event_bytes, Words};
ghost use Rattle.trace.specs.File.{body, contents};
ghost use Rattle.trace.specs.Sheets.{Room, Adds};

use crate::kind::Kind;
use crate::layout::EDITION;
use crate::sheet::Sheet;
use events::{Action, Event};

// How many bytes the event takes in a file.
pub fn event_size(event: &Event) -> usize
    ensures value { result ≡ length (event_bytes event.now) }
    ensures bound { result ≤ 18 }
{
    Kind::from(event.action).size()
}

// How many bytes the events take.
pub(crate) fn body_size(events: &[Event]) -> usize
    requires { length events.now ≤ 65536 }
    ensures { result ≡ length (body events.now) }
{
    events.iter().map(event_size).sum()
}

impl Sheet<'_> {
    // Edition and number of sections.
    pub(crate) fn put_header(&mut self, sections: u16)
        requires { Room self.old 4 }
        ensures { Adds self.old (bytes_of 2 1 ++ bytes_of 2 sections) self.new }
    {
        self.put(&EDITION.to_le_bytes());
        self.put(&sections.to_le_bytes());
    }

    // An entry of the contents.
    fn put_entry(&mut self, offset: u32, size: u32)
        requires { Room self.old 8 }
        ensures { Adds self.old (bytes_of 4 offset ++ bytes_of 4 size) self.new }
    {
        self.put(&offset.to_le_bytes());
        self.put(&size.to_le_bytes());
    }

    // The entries of the contents: each body begins where the part before it ends.
    pub(crate) fn put_contents(&mut self, counts: &[usize], events: &[Event])
        requires counts_in_bounds { (sum counts.now ≤ length events.now) × (length events.now ≤ 65536) }
        requires events_bound { 4 + 8 * length counts.now + length (body events.now) ≤ 65536 }
        requires room { Room self.old (8 * length counts.now) }
        ensures { Adds self.old (contents (4 + 8 * length counts.now) counts.now events.now) self.new }
    {
        let mut offset = 4 + 8 * counts.len();
        let mut left = events;
        for count in counts {
            let (section, rest) = left.split_at(*count);
            let size = body_size(section);
            self.put_entry(offset as u32, size as u32);
            offset += size;
            left = rest;
        }
    }

    // What the action bears on.
    fn put_operands(&mut self, action: Action)
        requires { Room self.old (length (operands action)) }
        ensures words { Words action }
        ensures after { Adds self.old (operands action) self.new }
    {
        match action {
            Action::Read { place: operand }
            | Action::Write { place: operand }
            | Action::Acquire { lock: operand }
            | Action::Release { lock: operand }
            | Action::ReadFlag { flag: operand }
            | Action::WriteFlag { flag: operand }
            | Action::Fork { child: operand }
            | Action::Join { child: operand }
            | Action::Allocate { object: operand } => self.put(&[operand]),
            Action::Commit { reads, writes } => {
                self.put(&reads.word().to_le_bytes());
                self.put(&writes.word().to_le_bytes());
            }
        }
    }

    // Kind, thread and operands of the event.
    fn put_event(&mut self, event: Event)
        requires { Room self.old (length (event_bytes event)) }
        ensures words { Words event.action }
        ensures after { Adds self.old (event_bytes event) self.new }
    {
        let kind = Kind::from(event.action);
        self.put(&[u8::from(kind), event.thread]);
        self.put_operands(event.action);
    }

    // The events, one behind another.
    pub(crate) fn put_events(&mut self, events: &[Event])
        requires { Room self.old (length (body events.now)) }
        ensures words { AllByRecursion (λ e. Words e.action) events.now }
        ensures after { Adds self.old (body events.now) self.new }
    {
        for event in events {
            self.put_event(*event);
        }
    }
}
