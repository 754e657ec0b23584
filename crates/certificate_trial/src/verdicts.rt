// Files that are read to their end.
use crate::calls::{Step, show, show_sections, show_steps};
use events::{Action, PlaceSet};
use handmade::single;

// The body of a file with one race: 0 forks 1 and writes place 5, 1 writes it, 0 writes it.
pub(crate) const RACE: [u8; 12] = [6, 0, 1, 1, 0, 5, 1, 1, 5, 1, 0, 5];

const HANDED_OVER: [Step; 7] = [
    (0, Action::Fork { child: 1 }),
    (0, Action::Acquire { lock: 3 }),
    (0, Action::Write { place: 5 }),
    (0, Action::Release { lock: 3 }),
    (1, Action::Acquire { lock: 3 }),
    (1, Action::Read { place: 5 }),
    (1, Action::Release { lock: 3 }),
];

// The second witness is event 4 of the file, and event 3 of those accepted.
const TWO_RACES: [Step; 5] = [
    (0, Action::Fork { child: 1 }),
    (0, Action::Write { place: 5 }),
    (1, Action::Read { place: 5 }),
    (0, Action::Write { place: 6 }),
    (1, Action::Write { place: 6 }),
];

const READ_FIRST: [Step; 3] = [
    (0, Action::Fork { child: 1 }),
    (0, Action::Read { place: 5 }),
    (1, Action::Write { place: 5 }),
];

// The commit reads place 9 and writes place 4.
const COMMIT: [Step; 4] = [
    (0, Action::Fork { child: 1 }),
    (0, Action::Write { place: 9 }),
    (0, Action::Write { place: 4 }),
    (
        1,
        Action::Commit {
            reads: PlaceSet { word: 512 },
            writes: PlaceSet { word: 16 },
        },
    ),
];

pub(crate) fn clean(rt: &HostRuntime) -> anyhow::Result<()> {
    show(rt, "no sections", &[1, 0, 0, 0])?;
    show(rt, "no events", single(rt.alloc(), &[])?.as_slice())?;
    show_sections(rt, "no events in three sections", &[0, 0, 0], &[])?;
    show_steps(rt, "handed over by a lock", &HANDED_OVER)?;
    show_sections(rt, "handed over in sections", &[3, 0, 4], &HANDED_OVER)
}

pub(crate) fn not_clean(rt: &HostRuntime) -> anyhow::Result<()> {
    show(rt, "a race", single(rt.alloc(), &RACE)?.as_slice())?;
    show_steps(rt, "two races", &TWO_RACES)?;
    show_sections(rt, "two races in sections", &[2, 0, 2, 1], &TWO_RACES)?;
    show_steps(rt, "a write after a read", &READ_FIRST)?;
    show_steps(rt, "a commit", &COMMIT)
}
