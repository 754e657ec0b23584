// Ten short runs, each after thread 0 has forked thread 1, over every pile of keepers.
use crate::common::FORK;
use crate::piles::{Offered, over_all};
use crate::words::Words;
use events::{Action, Event, PlaceSet};
use std::alloc::{AllocError, Global};

// The set of place 5 alone.
const FIVE: PlaceSet = PlaceSet { word: 32 };

// Who does what. An `Event` says the same; its fields' names would make the table no plainer.
const RUNS: [&[(u8, Action)]; 10] = [
    &[
        (0, Action::Write { place: 5 }),
        (1, Action::Read { place: 5 }),
    ],
    &[
        (0, Action::Write { place: 5 }),
        (0, Action::Fork { child: 2 }),
        (1, Action::Join { child: 2 }),
        (1, Action::Read { place: 5 }),
    ],
    &[
        (0, Action::Acquire { lock: 3 }),
        (0, Action::Write { place: 5 }),
        (0, Action::Release { lock: 3 }),
        (1, Action::Acquire { lock: 3 }),
        (1, Action::Read { place: 5 }),
    ],
    &[
        (0, Action::Acquire { lock: 3 }),
        (0, Action::Write { place: 5 }),
        (0, Action::Release { lock: 3 }),
        (1, Action::Acquire { lock: 4 }),
        (1, Action::Read { place: 5 }),
    ],
    &[
        (0, Action::Read { place: 5 }),
        (1, Action::Read { place: 5 }),
        (1, Action::Write { place: 5 }),
    ],
    &[
        (0, Action::Write { place: 5 }),
        (0, Action::WriteFlag { flag: 0 }),
        (1, Action::ReadFlag { flag: 0 }),
        (1, Action::Write { place: 5 }),
    ],
    &[
        (
            0,
            Action::Commit {
                reads: PlaceSet::EMPTY,
                writes: FIVE,
            },
        ),
        (1, Action::Read { place: 5 }),
    ],
    &[
        (0, Action::Write { place: 7 }),
        (
            0,
            Action::Commit {
                reads: PlaceSet::EMPTY,
                writes: FIVE,
            },
        ),
        (
            1,
            Action::Commit {
                reads: FIVE,
                writes: PlaceSet::EMPTY,
            },
        ),
        (1, Action::Read { place: 7 }),
    ],
    &[
        (0, Action::Write { place: 5 }),
        (1, Action::Allocate { object: 1 }),
        (1, Action::Write { place: 5 }),
    ],
    &[
        (0, Action::Join { child: 1 }),
        (1, Action::Read { place: 5 }),
    ],
];

// The events of a run, after the fork.
fn events_of(heap: Global, run: &[(u8, Action)]) -> Result<Vec<Event>, AllocError> {
    let mut events = Vec::new(heap);
    events.push(FORK)?;
    for &(thread, action) in run {
        events.push(Event { thread, action })?;
    }
    Ok(events)
}

// One line where all answers and passes of all piles are the same, otherwise the last answer of each.
fn compare(rt: &HostRuntime, number: u8, run: &[(u8, Action)]) -> anyhow::Result<()> {
    let heap = rt.alloc();
    let events = events_of(heap, run)?;
    let piles = over_all(heap, &events)?;
    let [(_, first), ..] = &piles;
    let last = Words(first.last());
    if piles.iter().all(|(_, told)| told == first) && first.iter().all(Offered::is_counted) {
        println!(rt; "example {number}: {last}, the same over all four piles")?;
        return Ok(());
    }
    for (pile, told) in &piles {
        println!(rt; "example {number} over {pile}: {}", Words(told.last()))?;
    }
    Ok(())
}

pub(crate) fn compare_all(rt: &HostRuntime) -> anyhow::Result<()> {
    for (number, run) in (1..).zip(&RUNS) {
        compare(rt, number, run)?;
    }
    Ok(())
}
