// A whole file read into its events and sections.
ghost use Rattle.std.specs.Prelude.{◌≡◌, ℕ, ◌+◌, ◌-◌, ◌<◌, ◌≤◌, List, ◌++◌, Some, IfOk, vec_items};
ghost use Rattle.trace.specs.Layout.{count, body_end};
ghost use Rattle.trace.specs.Texts.{error_text};
ghost use Rattle.trace.specs.Fronts.{IsFrontOf};
ghost use Rattle.trace.specs.Whole.{Pushed, SectionRead, WholeRead};
ghost use Rattle.trace.specs.declared.whole.ReadError.TheVariants.{Refused, Memory};

use crate::fault::{Refusal, Site};
use crate::handing::Taker;
use crate::reader::Reader;
use events::Event;
use std::alloc::{AllocError, Global};
use std::error::Error;
use std::fmt;

// Events, and how many of them each section has. There is one list of all events, and not one for each section: the rules fix
// that a writer takes events and how many each section has, and what was read can be written again.
#[derive(Drop)]
pub struct Trace {
    pub events: Vec<Event>,
    pub counts: Vec<usize>,
}

// What a file holds up to its end, or up to its first refusal.
#[derive(Drop)]
pub struct Front {
    pub trace: Trace,
    pub end: Option<Refusal>,
}

// Why a file is not read whole.
#[derive(Clone, Copy, PartialEq, Eq, Debug)]
pub enum ReadError {
    Refused(Refusal),
    Memory,
}

impl From<Refusal> for ReadError {
    ghost from_gives = { λ e r. r ≡ Refused e };

    fn from(e: Refusal) -> ReadError {
        ReadError::Refused(e)
    }
}

impl From<AllocError> for ReadError {
    ghost from_gives = { λ _ r. r ≡ Memory };

    fn from(_e: AllocError) -> ReadError {
        ReadError::Memory
    }
}

impl<T: Drop> From<std::alloc::AllocFailed<T>> for ReadError {
    ghost from_gives = { λ _ r. r ≡ Memory };

    fn from(_e: std::alloc::AllocFailed<T>) -> ReadError {
        ReadError::Memory
    }
}

impl fmt::Display for ReadError {
    ghost output = { λ e. Some (error_text e) };

    fn fmt<W: fmt::Write>(&self, f: &mut fmt::Formatter<W>) -> fmt::Result {
        match self {
            ReadError::Refused(refusal) => write!(f, "{refusal}"),
            ReadError::Memory => write!(f, "no memory"),
        }
    }
}

impl Error for ReadError {}

// Keeps each event.
impl Taker<ReadError> for Vec<Event> {
    ghost took = { λ s e _ r t. Pushed s.items e r t.items };

    fn take(&mut self, event: Event, _at: Site) -> Result<(), ReadError> {
        self.push(event)?;
        Ok(())
    }
}

impl Reader<'_> {
    // Takes the events that are left of the section in which the reader stands, up to one that is refused.
    fn take_section(
        &mut self,
        section: usize,
        events: &mut Vec<Event>,
    ) -> Result<Option<Refusal>, AllocError>
        requires byte_nonzero { (0 < self.old.at.byte) × ((0 < section) × (section ≤ count self.old.bytes.now)) }
        requires section_bound { (body_end self.old.bytes.now (section - 1) ≤ self.old.at.byte) × (self.old.at.byte ≤ body_end self.old.bytes.now section) }
        ensures bytes { self.new.bytes.now ≡ self.old.bytes.now }
        ensures section { SectionRead self.old.bytes.now section self.old.at self.new.at events.old.items events.new.items result }
    {
        let end = self.section_end(section);
        while self.at.byte < end {
            match self.hand_event(events) {
                Ok(_) => {}
                Err(ReadError::Refused(refusal)) => return Ok(Some(refusal)),
                Err(ReadError::Memory) => return Err(AllocError),
            }
        }
        Ok(None)
    }
}

// Reads the file up to its end, or up to its first refusal. Behind a refused event nothing is read; the last count is of its
// section.
pub fn read_front(heap: Global, bytes: &[u8]) -> Result<Front, AllocError>
    ensures { IfOk result (λ front. IsFrontOf bytes.now (vec_items front.trace.counts) (vec_items front.trace.events) front.end) }
{
    let mut trace = Trace {
        events: Vec::new(heap),
        counts: Vec::new(heap),
    };
    let mut reader = Reader::new(bytes);
    let sections = match reader.contents() {
        Ok(sections) => sections,
        Err(refusal) => {
            return Ok(Front {
                trace,
                end: Some(refusal),
            });
        }
    };
    for section in 1..=sections {
        let before = trace.events.len();
        let end = reader.take_section(section, &mut trace.events)?;
        trace.counts.push(trace.events.len() - before)?;
        if end.is_some() {
            return Ok(Front { trace, end });
        }
    }
    Ok(Front { trace, end: None })
}

// Reads the whole file: its events, and how many each section has.
pub fn read_whole(heap: Global, bytes: &[u8]) -> Result<Trace, ReadError>
    ensures { WholeRead bytes.now result }
{
    let front = read_front(heap, bytes)?;
    match front.end {
        None => Ok(front.trace),
        Some(refusal) => Err(ReadError::Refused(refusal)),
    }
}
