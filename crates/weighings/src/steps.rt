// The calls that are made, part by part.
use events::{Action, PlaceSet};
use monitor::{Access, Question};

// What a call asks for. A `Call` can't be told of with its answer: it is spent by then, and a slip shows no sets.
#[derive(Clone, Copy)]
pub(crate) enum Step {
    // a thread and what it does: an `Event`'s field names would make the tables no plainer
    Offer(u8, Action),
    Commit {
        thread: u8,
        reads: PlaceSet,
        writes: PlaceSet,
    },
    Count,
    Ask(Question),
}

// Some of the calls, under a title.
pub(crate) struct Part {
    pub(crate) title: &'static str,
    pub(crate) steps: &'static [Step],
}

// Thread 0 starts thread 1.
const BEFORE: [Step; 2] = [Step::Offer(0, Action::Fork { child: 1 }), Step::Count];

// The weight is place 5, and lock 3 guards it.
const ONE: [Step; 10] = [
    Step::Offer(0, Action::Acquire { lock: 3 }),
    Step::Offer(0, Action::Write { place: 5 }),
    Step::Ask(Question {
        place: 5,
        access: Access::Write,
        thread: 1,
    }),
    Step::Offer(1, Action::Acquire { lock: 3 }),
    Step::Offer(0, Action::Release { lock: 3 }),
    Step::Offer(1, Action::Acquire { lock: 3 }),
    Step::Ask(Question {
        place: 5,
        access: Access::Write,
        thread: 1,
    }),
    Step::Offer(1, Action::Read { place: 5 }),
    Step::Offer(1, Action::Release { lock: 3 }),
    Step::Count,
];

// The weight is place 6, flag 0 says that it is there, and the sum in place 7 is changed only by transactions.
const TWO: [Step; 9] = [
    Step::Offer(0, Action::Write { place: 6 }),
    Step::Offer(0, Action::WriteFlag { flag: 0 }),
    Step::Offer(1, Action::ReadFlag { flag: 0 }),
    Step::Commit {
        thread: 1,
        reads: PlaceSet { word: 1 << 6 },
        writes: PlaceSet { word: 1 << 7 },
    },
    Step::Ask(Question {
        place: 6,
        access: Access::Read { thread: 1 },
        thread: 0,
    }),
    Step::Commit {
        thread: 0,
        reads: PlaceSet { word: 1 << 7 },
        writes: PlaceSet::EMPTY,
    },
    Step::Ask(Question {
        place: 7,
        access: Access::Write,
        thread: 0,
    }),
    Step::Ask(Question {
        place: 6,
        access: Access::Read { thread: 1 },
        thread: 0,
    }),
    Step::Count,
];

// The weight is place 9, and nothing tells thread 1 of it.
const THREE: [Step; 9] = [
    Step::Offer(0, Action::Write { place: 9 }),
    Step::Offer(1, Action::Read { place: 9 }),
    Step::Commit {
        thread: 1,
        reads: PlaceSet { word: 1 << 9 },
        writes: PlaceSet { word: 1 << 7 },
    },
    Step::Count,
    Step::Ask(Question {
        place: 9,
        access: Access::Read { thread: 1 },
        thread: 0,
    }),
    Step::Ask(Question {
        place: 64,
        access: Access::Write,
        thread: 0,
    }),
    Step::Offer(0, Action::Join { child: 1 }),
    Step::Offer(1, Action::Read { place: 9 }),
    Step::Count,
];

// The parts, in order.
pub(crate) const PARTS: [Part; 4] = [
    Part {
        title: "before the weighings",
        steps: &BEFORE,
    },
    Part {
        title: "weighing one, handed over under lock 3",
        steps: &ONE,
    },
    Part {
        title: "weighing two, handed over by flag 0 and by transactions",
        steps: &TWO,
    },
    Part {
        title: "weighing three, not handed over",
        steps: &THREE,
    },
];
