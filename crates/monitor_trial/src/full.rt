// A record with as many events as it has room for.
use crate::common::{FORK, RACING, WRITE};
use crate::words::Words;
use clocks::Clocks;
use events::{Action, Event};
use monitor::{Monitor, Verdict};

// Two events, and then reads of a flag.
const FILLERS: u32 = 999_998;

const FILLER: Event = Event {
    thread: 0,
    action: Action::ReadFlag { flag: 0 },
};

// What would be accepted, declined and refused for another reason.
const BEYOND: [(&str, Event); 3] = [
    ("the event", FILLER),
    ("a racing event", RACING),
    (
        "an event of thread 8",
        Event {
            thread: 8,
            action: Action::Read { place: 5 },
        },
    ),
];

// A monitor with a full record, and the answer to the last event.
fn filled() -> (Monitor<Clocks>, Verdict) {
    let mut monitor = Monitor::start(Clocks::new());
    let _ = monitor.offer(FORK);
    let mut last = monitor.offer(WRITE);
    for _ in 0..FILLERS {
        last = monitor.offer(FILLER);
    }
    (monitor, last)
}

// Fills a record, and then offers more.
pub(crate) fn fill(rt: &HostRuntime) -> anyhow::Result<()> {
    let (mut monitor, last) = filled();
    println!(rt; "the millionth event: {}", Words(last))?;
    for (name, event) in BEYOND {
        println!(rt;
            "{name} after the millionth: {}",
            Words(monitor.offer(event))
        )?;
    }
    println!(rt; "accepted at the end: {}", monitor.accepted())?;
    Ok(())
}
