// Files whose last event the monitor refuses, a file for each rule.
use crate::calls::{Step, show, show_steps};
use events::Action;
use handmade::single;

const READ: Step = (0, Action::Read { place: 63 });

const FORK: Step = (0, Action::Fork { child: 1 });

const WRITE_OUTSIDE: Step = (0, Action::Write { place: 64 });

const READ_BY_8: Step = (8, Action::Read { place: 64 });

const READ_BY_1: Step = (1, Action::Read { place: 63 });

const JOIN_ITSELF: Step = (0, Action::Join { child: 0 });

const JOIN: Step = (0, Action::Join { child: 1 });

const ACQUIRE: Step = (0, Action::Acquire { lock: 3 });

const ACQUIRE_BY_1: Step = (1, Action::Acquire { lock: 3 });

const THREADS: [(&str, &[Step]); 6] = [
    ("thread 8", &[READ_BY_8]),
    ("place 64", &[READ, WRITE_OUTSIDE]),
    ("an unstarted thread", &[READ, READ_BY_1]),
    ("an ended thread", &[FORK, JOIN, READ_BY_1]),
    ("a fork again", &[FORK, FORK]),
    ("a join of itself", &[JOIN_ITSELF]),
];

pub(crate) fn threads(rt: &HostRuntime) -> anyhow::Result<()> {
    for (name, steps) in THREADS {
        show_steps(rt, name, steps)?;
    }
    Ok(())
}

pub(crate) fn locks(rt: &HostRuntime) -> anyhow::Result<()> {
    show_steps(rt, "a held lock", &[FORK, ACQUIRE, ACQUIRE_BY_1])?;
    show(
        rt,
        "a free lock released",
        single(rt.alloc(), &[3, 0, 3])?.as_slice(),
    )?;
    show_steps(rt, "a join of a holder", &[FORK, ACQUIRE_BY_1, JOIN])
}
