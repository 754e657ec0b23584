// Events at and past the end of each range, offered one after another.
use events::{Action, PlaceSet};

// A thread and what it does. An `Event` says the same; its fields' names would make the table no plainer.
pub(crate) const RANGES: [(&str, u8, Action); 21] = [
    ("thread 7 forked", 0, Action::Fork { child: 7 }),
    ("thread 8 forked", 0, Action::Fork { child: 8 }),
    ("thread 8 joined", 0, Action::Join { child: 8 }),
    ("a read by thread 7", 7, Action::Read { place: 0 }),
    ("a read by thread 8", 8, Action::Read { place: 0 }),
    ("place 63 written", 0, Action::Write { place: 63 }),
    ("place 64 written", 0, Action::Write { place: 64 }),
    ("place 63 read", 0, Action::Read { place: 63 }),
    ("place 64 read", 0, Action::Read { place: 64 }),
    ("lock 31 acquired", 0, Action::Acquire { lock: 31 }),
    ("lock 32 acquired", 0, Action::Acquire { lock: 32 }),
    ("lock 31 released", 0, Action::Release { lock: 31 }),
    ("lock 32 released", 0, Action::Release { lock: 32 }),
    ("flag 31 written", 0, Action::WriteFlag { flag: 31 }),
    ("flag 32 written", 0, Action::WriteFlag { flag: 32 }),
    ("flag 31 read", 0, Action::ReadFlag { flag: 31 }),
    ("flag 32 read", 0, Action::ReadFlag { flag: 32 }),
    ("object 15 allocated", 0, Action::Allocate { object: 15 }),
    ("object 16 allocated", 0, Action::Allocate { object: 16 }),
    (
        "all places written by a commit of thread 0",
        0,
        Action::Commit {
            reads: PlaceSet::EMPTY,
            writes: PlaceSet { word: u64::MAX },
        },
    ),
    (
        "places 1 to 63 written by a commit of thread 0",
        0,
        Action::Commit {
            reads: PlaceSet::EMPTY,
            writes: PlaceSet { word: u64::MAX - 1 },
        },
    ),
];
