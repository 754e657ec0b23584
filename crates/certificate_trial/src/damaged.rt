// Files that are refused as files, and refusals behind a finding or an empty section.
use crate::calls::{Step, show, show_sections, show_steps};
use crate::verdicts::RACE;
use events::Action;
use handmade::{single, told};

const RELEASED: [Step; 2] = [
    (0, Action::Read { place: 5 }),
    (0, Action::Release { lock: 3 }),
];

const DECLINED_FIRST: [Step; 4] = [
    (0, Action::Fork { child: 1 }),
    (0, Action::Write { place: 5 }),
    (1, Action::Write { place: 5 }),
    (1, Action::Release { lock: 3 }),
];

// Files that end within the header or the contents, or whose header is no good.
const BEGINNINGS: [(&str, &[u8]); 5] = [
    ("no bytes", b""),
    ("three bytes", &[1, 0, 0]),
    ("contents cut", &[1, 0, 1, 0, 12, 0, 0, 0, 0, 0, 0]),
    ("edition 2", &[2, 0, 0, 0]),
    ("257 sections", &[1, 0, 1, 1]),
];

// Refused before the first event.
pub(crate) fn before(rt: &HostRuntime) -> anyhow::Result<()> {
    let heap = rt.alloc();
    let long = vec![in heap; 0u8; 65_537]?;
    show(rt, "65537 bytes", long.as_slice())?;
    for (name, file) in BEGINNINGS {
        show(rt, name, file)?;
    }
    show(
        rt,
        "a body that begins late",
        told(heap, 1, &[(13, 3)], &[0, 0, 5])?.as_slice(),
    )?;
    show(
        rt,
        "a byte behind the last body",
        told(heap, 1, &[(12, 3)], &[0, 0, 5, 0])?.as_slice(),
    )
}

// Refused at an event.
pub(crate) fn at_events(rt: &HostRuntime) -> anyhow::Result<()> {
    let heap = rt.alloc();
    show(
        rt,
        "kind 10",
        single(heap, &[0, 0, 5, 10, 0, 5])?.as_slice(),
    )?;
    show(
        rt,
        "a commit cut",
        single(heap, &[0, 0, 5, 9, 0, 5])?.as_slice(),
    )?;
    show(
        rt,
        "an event split over two sections",
        told(heap, 2, &[(20, 2), (22, 1)], &[0, 0, 5])?.as_slice(),
    )
}

// Refused behind a finding, and behind an empty section.
pub(crate) fn behind(rt: &HostRuntime) -> anyhow::Result<()> {
    let mut race = single(rt.alloc(), &RACE)?;
    race.push(0)?;
    show(rt, "a byte behind a race", race.as_slice())?;
    let body = [6, 0, 1, 1, 0, 5, 1, 1, 5, 10, 0, 5];
    show(
        rt,
        "kind 10 behind a race",
        single(rt.alloc(), &body)?.as_slice(),
    )?;
    show_steps(rt, "a release behind a race", &DECLINED_FIRST)?;
    show_sections(rt, "behind an empty section", &[0, 2], &RELEASED)?;
    show_sections(rt, "in the third section", &[1, 0, 1], &RELEASED)
}
