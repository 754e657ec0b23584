// Files of many sections or events.
use handmade::told;
use std::alloc::{AllocError, Global};

// So many empty sections and nothing else.
pub(crate) fn empties(heap: Global, sections: u16) -> Result<Vec<u8>, AllocError> {
    let end = 4 + 8 * u32::from(sections);
    let entries = vec![in heap; (end, 0u32); usize::from(sections)]?;
    told(heap, sections, entries.as_slice(), &[])
}

// Reads of place 5 by thread 0, so many, with two empty sections before them.
pub(crate) fn reads(heap: Global, events: u32) -> Result<Vec<u8>, AllocError> {
    let mut body = Vec::new(heap);
    for _ in 0..events {
        body.extend_from_slice(&[0, 0, 5])?;
    }
    let size = (body.len() & 0xfffff) as u32;
    told(heap, 3, &[(28, 0), (28, 0), (28, size)], body.as_slice())
}
