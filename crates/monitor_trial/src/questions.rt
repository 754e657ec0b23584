// A decline, the questions about slots, and slips.
use crate::common::{FORK, RACING, READ, WRITE};
use crate::words::Words;
use clocks::Clocks;
use monitor::{Access, Monitor, Question, Slip};

// Thread 0 has forked thread 1, written place 5 and read it.
fn begun() -> Monitor<Clocks> {
    let mut monitor = Monitor::start(Clocks::new());
    let _ = monitor.offer(FORK);
    let _ = monitor.offer(WRITE);
    let _ = monitor.offer(READ);
    monitor
}

// A decline leaves the count as it was.
pub(crate) fn decline(rt: &HostRuntime) -> anyhow::Result<()> {
    let mut monitor = begun();
    let before = monitor.accepted();
    let told = Words(monitor.offer(RACING));
    let after = monitor.accepted();
    println!(rt; "a race: {told}, accepted before {before} and after {after}")?;
    Ok(())
}

// The place, access and thread of each question.
const QUESTIONS: [(u8, Access, u8); 10] = [
    (6, Access::Write, 0),
    (63, Access::Write, 7),
    (5, Access::Write, 0),
    (5, Access::Write, 1),
    (5, Access::Read { thread: 0 }, 0),
    (5, Access::Read { thread: 7 }, 0),
    (5, Access::Read { thread: 8 }, 0),
    (5, Access::Write, 8),
    (64, Access::Write, 0),
    (64, Access::Write, 8),
];

// After a race was declined, so that its read is not told of.
pub(crate) fn ask_all(rt: &HostRuntime) -> anyhow::Result<()> {
    let mut monitor = begun();
    let _ = monitor.offer(RACING);
    for &(place, access, thread) in &QUESTIONS {
        let question = Question {
            place,
            access,
            thread,
        };
        ask(rt, &monitor, question)?;
    }
    let declined = Question {
        place: 5,
        access: Access::Read { thread: 1 },
        thread: 1,
    };
    println!(rt; "the declined read: {}", Words(monitor.ask(declined)))?;
    Ok(())
}

fn ask(rt: &HostRuntime, monitor: &Monitor<Clocks>, question: Question) -> anyhow::Result<()> {
    println!(rt; "{}: {}", Words(question), Words(monitor.ask(question)))?;
    Ok(())
}

// Slips that are committed and accepted, committed and declined, and abandoned. Nothing is printed while one is open: a
// failed print would leave it open.
pub(crate) fn slips(rt: &HostRuntime) -> anyhow::Result<()> {
    let mut monitor = begun();
    let mut slip = Slip::open(1);
    let added = [
        ("place 64 for a slip to read", slip.add_read(64)),
        ("place 64 for a slip to write", slip.add_write(64)),
        ("place 63 for a slip to write", slip.add_write(63)),
    ];
    let committed = slip.commit(&mut monitor);
    for (name, answer) in added {
        println!(rt; "{name}: {}", Words(answer))?;
    }
    println!(rt; "the slip committed: {}", Words(committed))?;
    let written = Question {
        place: 63,
        access: Access::Write,
        thread: 1,
    };
    ask(rt, &monitor, written)?;
    more_slips(rt, monitor)
}

fn more_slips(rt: &HostRuntime, mut monitor: Monitor<Clocks>) -> anyhow::Result<()> {
    let mut racing = Slip::open(1);
    let _ = racing.add_read(5);
    let _ = racing.add_write(7);
    let committed = [
        ("a slip that races", racing.commit(&mut monitor)),
        ("an empty slip", Slip::open(0).commit(&mut monitor)),
        ("a slip of thread 8", Slip::open(8).commit(&mut monitor)),
    ];
    for (name, verdict) in committed {
        println!(rt; "{name}: {}", Words(verdict))?;
    }
    Slip::open(0).abandon();
    println!(rt; "accepted after an abandoned slip: {}", monitor.accepted())?;
    Ok(())
}
