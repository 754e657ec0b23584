// As many findings as a certificate lists, and one more.
use crate::calls::{call, compare};
use crate::files::written;
use certificate::LONGEST_TEXT;
use events::Action;
use std::alloc::Global;

// 0 forks 1 and writes place 5, 1 reads it so many times, and 0 reads it so many times.
fn reads(heap: Global, declined: u32, accepted: u32) -> anyhow::Result<Vec<u8>> {
    let read = Action::Read { place: 5 };
    let mut steps = Vec::new(heap);
    steps.push((0u8, Action::Fork { child: 1 }))?;
    steps.push((0u8, Action::Write { place: 5 }))?;
    for _ in 0..declined {
        steps.push((1u8, read))?;
    }
    for _ in 0..accepted {
        steps.push((0u8, read))?;
    }
    written(heap, &[steps.len()], steps.as_slice())
}

// How many lines tell of a finding.
fn findings(text: &str) -> usize {
    text.lines()
        .filter(|line| line.starts_with("event "))
        .count()
}

// The first line, how many findings there are, the last line but one, and the last.
fn show_ends(rt: &HostRuntime, text: &str) -> anyhow::Result<()> {
    let first = text.lines().next().unwrap_or("no line");
    let mut back = text.trim_end().rsplit('\n');
    let last = back.next().unwrap_or("no line");
    let finding = back.next().unwrap_or("no line");
    let many = findings(text);
    println!(rt; "{first}")?;
    println!(rt; "({many} lines of findings, of which the last)")?;
    println!(rt; "{finding}")?;
    println!(rt; "{last}")?;
    Ok(())
}

fn show_many(rt: &HostRuntime, declined: u32, accepted: u32) -> anyhow::Result<()> {
    let file = reads(rt.alloc(), declined, accepted)?;
    let answer = call(rt.alloc(), file.as_slice(), 1, LONGEST_TEXT)?;
    let text = format!(in rt.alloc(); "{answer}")?;
    println!(rt; "races {declined}, other reads {accepted}:")?;
    show_ends(rt, text.as_str())?;
    compare(rt, file.as_slice(), &answer)
}

// How many reads are declined, and how many accepted after them.
const READS: [(u32, u32); 5] = [(999, 1), (1_000, 0), (1_000, 2), (1_001, 0), (1_002, 1)];

pub(crate) fn declines(rt: &HostRuntime) -> anyhow::Result<()> {
    for (declined, accepted) in READS {
        show_many(rt, declined, accepted)?;
    }
    Ok(())
}
