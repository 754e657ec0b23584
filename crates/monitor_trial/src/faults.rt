// Events that break the rules on threads and locks, among events that are accepted, one after another.
use events::Action;

// A thread and what it does. An `Event` says the same; its fields' names would make the table no plainer.
pub(crate) const FAULTS: [(&str, u8, Action); 19] = [
    (
        "a read by a thread that was not forked",
        1,
        Action::Read { place: 0 },
    ),
    ("a thread forked", 0, Action::Fork { child: 1 }),
    ("a running thread forked", 0, Action::Fork { child: 1 }),
    ("thread 0 forked", 1, Action::Fork { child: 0 }),
    ("a thread joined by itself", 0, Action::Join { child: 0 }),
    (
        "a thread joined that was not forked",
        0,
        Action::Join { child: 2 },
    ),
    ("a lock acquired", 0, Action::Acquire { lock: 3 }),
    (
        "the lock acquired by its holder",
        0,
        Action::Acquire { lock: 3 },
    ),
    (
        "the lock acquired by another thread",
        1,
        Action::Acquire { lock: 3 },
    ),
    (
        "the lock released by another thread",
        1,
        Action::Release { lock: 3 },
    ),
    ("a free lock released", 0, Action::Release { lock: 4 }),
    (
        "another lock acquired by the other thread",
        1,
        Action::Acquire { lock: 4 },
    ),
    (
        "a thread joined that holds a lock",
        0,
        Action::Join { child: 1 },
    ),
    ("its lock released", 1, Action::Release { lock: 4 }),
    ("the thread joined", 0, Action::Join { child: 1 }),
    ("a read by the ended thread", 1, Action::Read { place: 0 }),
    ("the ended thread forked", 0, Action::Fork { child: 1 }),
    (
        "the ended thread joined again",
        0,
        Action::Join { child: 1 },
    ),
    (
        "a place past the end for a thread that has ended",
        1,
        Action::Read { place: 64 },
    ),
];
