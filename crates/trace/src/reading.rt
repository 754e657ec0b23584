// Opening a file and reading its events, one after another.
ghost use Rattle.std.specs.Prelude.{◌≡◌, ◌+◌, ◌-◌, ◌<◌, ◌≤◌, length, Some, None, MatchResult};
ghost use Rattle.trace.specs.Layout.{count, body_end, opening, section_at};
ghost use Rattle.trace.specs.Reading.{origin, outside, sections_or, inside, next, after};
ghost use Rattle.trace.specs.Refusals.{FirstRefusal, Opens};
ghost use Rattle.trace.specs.Answers.{Answers};

use crate::fault::Refusal;
use crate::layout::{Entry, check_entries, check_header, section_count};
use crate::place::Place;
use crate::reader::Reader;
use events::Event;

// The place before the first event, in a file that opens.
fn first_place(bytes: &[u8]) -> Result<Place, Refusal>
    ensures { MatchResult result (λ p. (opening bytes.now ≡ None) × (p ≡ origin bytes.now)) (λ f. opening bytes.now ≡ Some f) }
{
    let sections = check_header(bytes)?;
    check_entries(bytes, sections)?;
    Ok(Place {
        section: 0,
        events: 0,
        byte: 4 + 8 * sections,
    })
}

impl<'a> Reader<'a> {
    // A reader that stands before the file.
    pub fn new(bytes: &'a [u8]) -> Reader<'a>
        ensures { (result.bytes.now ≡ bytes.now) × (result.at ≡ outside) }
    {
        Reader {
            bytes,
            at: Place {
                section: 0,
                events: 0,
                byte: 0,
            },
        }
    }

    // Where the reader stands.
    pub fn place(&self) -> Place
        ensures { result ≡ self.now.at }
    {
        self.at
    }

    // Checks header and contents, unless that is done, and tells how many sections there are.
    // A reader of a file that opens then stands inside it.
    pub fn contents(&mut self) -> Result<usize, Refusal>
        ensures answer { result ≡ sections_or self.old.bytes.now (opening self.old.bytes.now) }
        ensures rule { MatchResult result (λ _. Opens self.old.bytes.now) (λ f. FirstRefusal self.old.bytes.now f) }
        ensures place { self.new.at ≡ inside self.old.bytes.now self.old.at }
        ensures bytes { self.new.bytes.now ≡ self.old.bytes.now }
    {
        if self.at.byte == 0 {
            self.at = first_place(self.bytes)?;
        }
        Ok(section_count(self.bytes))
    }

    // Where the body of a section ends. That the file is opened is asked here and below, and is in no type: a result that holds
    // a borrowed reader with facts in its type, as opening would answer it, gets no generated proof today.
    pub(crate) fn section_end(&self, section: usize) -> usize
        requires { (0 < self.now.at.byte) × ((0 < section) × (section ≤ count self.now.bytes.now)) }
        ensures { result ≡ body_end self.now.bytes.now section }
    {
        Entry::read(self.bytes, section - 1).end()
    }

    // The section that holds the next byte: the first that ends behind it.
    pub(crate) fn section(&self) -> usize
        requires { (0 < self.now.at.byte) × (self.now.at.byte < length self.now.bytes.now) }
        ensures within { (0 < result) × (result ≤ count self.now.bytes.now) }
        ensures around { (body_end self.now.bytes.now (result - 1) ≤ self.now.at.byte) × (self.now.at.byte < body_end self.now.bytes.now result) }
        ensures value { result ≡ section_at self.now.bytes.now self.now.at.byte }
    {
        let sections = section_count(self.bytes);
        (self.at.section.max(1)..sections)
            .find(
                |&section|
                    requires { (0 < self.now.at.byte) × ((0 < section) × (section ≤ count self.now.bytes.now)) }
                { self.at.byte < self.section_end(section) },
            )
            .unwrap_or(sections)
    }

    // The next event, if there is one. Only an event that is taken moves a reader inside the file.
    pub fn next(&mut self) -> Result<Option<Event>, Refusal>
        ensures answer { result ≡ next self.old.bytes.now self.old.at }
        ensures rule { Answers self.old.bytes.now (inside self.old.bytes.now self.old.at) self.new.at result }
        ensures place { self.new.at ≡ after self.old.bytes.now self.old.at }
        ensures bytes { self.new.bytes.now ≡ self.old.bytes.now }
    {
        let mut event = None;
        self.hand(&mut event)?;
        Ok(event)
    }
}
