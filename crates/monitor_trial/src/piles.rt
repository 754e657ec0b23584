// Events offered over every pile of keepers, and whether each keeper counts the passes that they make.
use clocks::Clocks;
use events::Event;
use keepers::Keeper;
use locksets::Locksets;
use monitor::{Monitor, Verdict};
use shortcut::ShortCut;
use slots::passes_of;
use std::alloc::{AllocError, Global};

// What became of an offered event.
#[derive(Clone, Copy, PartialEq, Eq, Drop)]
pub(crate) struct Offered {
    pub(crate) verdict: Verdict,
    // how many passes it makes: none unless it was accepted
    pub(crate) passes: u32,
    // how many the keeper had counted before and after
    pub(crate) before: u32,
    pub(crate) after: u32,
}

impl Offered {
    // Whether the keeper counted just the passes that the event makes.
    pub(crate) fn is_counted(&self) -> bool {
        self.after.checked_sub(self.before) == Some(self.passes)
    }
}

// Offers an event.
fn offer<K: Keeper>(monitor: &mut Monitor<K>, event: Event) -> Offered {
    let before = monitor.passes();
    let verdict = monitor.offer(event);
    let passes = match verdict {
        Verdict::Accepted { .. } => passes_of(event),
        Verdict::Refused { .. } | Verdict::Declined { .. } => 0,
    };
    Offered {
        verdict,
        passes,
        before,
        after: monitor.passes(),
    }
}

// Offers events to a new monitor over the keeper.
fn offer_all<K: Keeper + Drop>(
    heap: Global,
    keeper: K,
    events: &[Event],
) -> Result<Vec<Offered>, AllocError> {
    let mut monitor = Monitor::start(keeper);
    let mut told = Vec::new(heap);
    for &event in events {
        told.push(offer(&mut monitor, event))?;
    }
    Ok(told)
}

// The same over each pile, by its name.
pub(crate) fn over_all(
    heap: Global,
    events: &[Event],
) -> Result<[(&'static str, Vec<Offered>); 4], AllocError> {
    Ok([
        ("locksets", offer_all(heap, Locksets::new(), events)?),
        ("clocks", offer_all(heap, Clocks::new(), events)?),
        (
            "the short cut over locksets",
            offer_all(heap, ShortCut::new(Locksets::new()), events)?,
        ),
        (
            "the short cut over clocks",
            offer_all(heap, ShortCut::new(Clocks::new()), events)?,
        ),
    ])
}
