// Header and contents of a file: the checks that come before the first event.
ghost use Rattle.std.specs.Prelude.{◌≡◌, ◌+◌, ◌*◌, ◌<◌, ◌≤◌, true, false, length, Some, None, MatchResult};
ghost use Rattle.trace.specs.declared.fault.TraceFault.TheVariants.{Contents};
ghost use Rattle.trace.specs.Words.{word};
ghost use Rattle.trace.specs.Layout.{count, entry_offset, entry_length, body_end, good_entry, at_start, opening};
ghost use Rattle.trace.specs.Refusals.{Framed};

use crate::fault::{Refusal, Site, TraceFault};
use crate::words::chunk;

// The most bytes that a trace file may have.
pub const LONGEST: usize = 65_536;

// How many bytes to read of an input: one more than a file may have, so that a longer one is refused and not read on.
pub const ENOUGH: u64 = LONGEST as u64 + 1;

// The edition of the format that is read and written.
pub(crate) const EDITION: u16 = 1;

// The most sections that a trace file may have.
pub(crate) const MOST_SECTIONS: usize = 256;

// A refusal before the first event.
fn early(fault: TraceFault, byte: usize) -> Refusal
    ensures { result ≡ at_start fault byte }
{
    Refusal {
        fault,
        at: Site {
            section: 0,
            event: 0,
            byte,
        },
    }
}

// The edition that the header tells.
fn edition(bytes: &[u8]) -> u16
    requires { 2 ≤ length bytes.now }
    ensures { result ≡ word 2 bytes.now 0 }
{
    u16::from_le_bytes(chunk(bytes, 0))
}

// The number of sections that the header tells.
pub(crate) fn section_count(bytes: &[u8]) -> usize
    requires { 4 ≤ length bytes.now }
    ensures { result ≡ count bytes.now }
{
    usize::from(u16::from_le_bytes(chunk(bytes, 2)))
}

// Checks length, header and the room for the contents, and tells the number of sections.
pub(crate) fn check_header(bytes: &[u8]) -> Result<usize, Refusal>
    ensures { MatchResult result (λ n. (n ≡ count bytes.now) × Framed bytes.now) (λ f. opening bytes.now ≡ Some f) }
{
    let len = bytes.len();
    if len > LONGEST {
        return Err(early(TraceFault::TooLong, LONGEST));
    }
    if len < 4 {
        return Err(early(TraceFault::Truncated, len));
    }
    if edition(bytes) != EDITION {
        return Err(early(TraceFault::Edition, 0));
    }
    let sections = section_count(bytes);
    if sections > MOST_SECTIONS {
        return Err(early(TraceFault::Contents, 2));
    }
    if len < 4 + 8 * sections {
        return Err(early(TraceFault::Truncated, len));
    }
    Ok(sections)
}

// An entry of the contents: where a section's body begins, and how long it is.
#[derive(Clone, Copy)]
pub(crate) struct Entry {
    offset: u32,
    length: u32,
}

impl Entry {
    // The entry of section i + 1.
    pub(crate) fn read(bytes: &[u8], i: usize) -> Entry
        requires { 12 + 8 * i ≤ length bytes.now }
        ensures { (result.offset ≡ entry_offset bytes.now i) × (result.length ≡ entry_length bytes.now i) }
    {
        Entry {
            offset: u32::from_le_bytes(chunk(bytes, 4 + 8 * i)),
            length: u32::from_le_bytes(chunk(bytes, 8 + 8 * i)),
        }
    }

    // Where the body ends.
    pub(crate) fn end(self) -> usize
        ensures { result ≡ self.offset + self.length }
    {
        self.offset as usize + self.length as usize
    }
}

// Where the body of entry i ends, if the entry is right; `end` is where the part before it ended.
fn entry_end(bytes: &[u8], i: usize, end: usize) -> Result<usize, Refusal>
    requires i_in_bounds { 12 + 8 * i ≤ length bytes.now }
    requires end_value { end ≡ body_end bytes.now i }
    ensures { MatchResult result (λ e. (good_entry bytes.now i ≡ true) × (e ≡ end + entry_length bytes.now i) × (e ≤ length bytes.now)) (λ f. (good_entry bytes.now i ≡ false) × (f ≡ at_start Contents (4 + 8 * i))) }
{
    let entry = Entry::read(bytes, i);
    if entry.offset as usize == end && entry.end() <= bytes.len() {
        Ok(entry.end())
    } else {
        Err(early(TraceFault::Contents, 4 + 8 * i))
    }
}

// Checks each entry of the contents, and that the file ends with the last body.
pub(crate) fn check_entries(bytes: &[u8], sections: usize) -> Result<(), Refusal>
    requires { (sections ≡ count bytes.now) × Framed bytes.now }
    ensures { MatchResult result (λ _. opening bytes.now ≡ None) (λ f. opening bytes.now ≡ Some f) }
{
    let mut end = 4 + 8 * sections;
    // by number, since a refusal names the place of entry i in the file
    for i in 0..sections {
        end = entry_end(bytes, i, end)?;
    }
    if end < bytes.len() {
        return Err(early(TraceFault::Contents, end));
    }
    Ok(())
}
