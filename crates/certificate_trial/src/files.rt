// Files of events.
use crate::calls::Step;
use anyhow::anyhow;
use events::Event;
use std::alloc::Global;
use trace::{LONGEST, write};

// The file of these steps, each of a thread and what it does, in sections of so many.
pub(crate) fn written(heap: Global, counts: &[usize], steps: &[Step]) -> anyhow::Result<Vec<u8>> {
    let events: Vec<Event> = steps
        .iter()
        .map(|(thread, action)| Event {
            thread: *thread,
            action: *action,
        })
        .collect(heap)?;
    let mut out = vec![in heap; 0u8; LONGEST]?;
    let length = write(events.as_slice(), counts, out.as_mut_slice()).map_err(|_| anyhow!(
        "a file that was not written"
    ))?;
    out.truncate(length);
    Ok(out)
}
