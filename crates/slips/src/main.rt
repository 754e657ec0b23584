// Two slips committed once each and a third abandoned, on a monitor over clocks: prints what was answered.
#![tactic(auto)]

use clocks::Clocks;
use events::{Action, Event};
use monitor::{Monitor, Slip, Verdict};
use roster::RuleFault;

// The answers, in the order in which they were given.
#[derive(Clone, Copy)]
struct Answers {
    forked: Verdict,
    // each place, and the answer to adding it
    added: [(u8, Result<(), RuleFault>); 3],
    first: Verdict,
    second: Verdict,
}

// Threads 0 and 1 each commit a slip. Nothing is printed here: a failed print would leave slips open.
fn commit_two(monitor: &mut Monitor<Clocks>) -> Answers {
    let forked = monitor.offer(Event {
        thread: 0,
        action: Action::Fork { child: 1 },
    });
    let mut one = Slip::open(0);
    let mut two = Slip::open(1);
    let added = [
        (0, one.add_read(0)),
        (63, two.add_write(63)),
        (64, two.add_read(64)),
    ];
    let first = one.commit(monitor);
    let second = two.commit(monitor);
    Answers {
        forked,
        added,
        first,
        second,
    }
}

// Opens a slip and gives it up.
fn abandon_one() {
    let slip = Slip::open(0);
    slip.abandon();
}

// Whether a place was added, or the number of the rule that refused it.
fn place_line(rt: &HostRuntime, place: u8, answer: Result<(), RuleFault>) -> anyhow::Result<()> {
    match answer {
        Ok(()) => println!(rt; "place {place}: added")?,
        Err(fault) => println!(rt; "place {place}: refused {}, {fault:?}", fault.number())?,
    }
    Ok(())
}

fn print_all(rt: &HostRuntime, answers: Answers) -> anyhow::Result<()> {
    println!(rt; "fork: {:?}", answers.forked)?;
    for (place, answer) in answers.added {
        place_line(rt, place, answer)?;
    }
    println!(rt; "first commit: {:?}", answers.first)?;
    println!(rt; "second commit: {:?}", answers.second)?;
    Ok(())
}

fn main(rt: HostRuntime) -> anyhow::Result<()> {
    let mut monitor = Monitor::start(Clocks::new());
    let answers = commit_two(&mut monitor);
    abandon_one();
    print_all(&rt, answers)?;
    println!(rt; "accepted: {}", monitor.accepted())?;
    Ok(())
}
