// Drives every pile of keepers with the same calls and compares what they answer and hold.
#![tactic(auto)]

mod full;
mod limits;
mod piles;
mod random;
mod tally;

use clocks::Clocks;
use locksets::Locksets;
use piles::Piles;
use shortcut::ShortCut;
use std::mem::size_of;
use tally::Tally;

// Calls made at random, their answers by kind, and how often the piles differ.
fn at_random(rt: &HostRuntime, piles: &mut Piles) -> anyhow::Result<()> {
    let calls = random::calls(rt.alloc(), 4000)?;
    let answers = piles.drive_all(rt.alloc(), calls.as_slice())?;
    let tally = Tally::of(answers.locksets.as_slice());
    println!(rt;
        "done {} refused {} yes {} no {} counts {}",
        tally.done, tally.refused, tally.yes, tally.no, tally.counts
    )?;
    println!(rt;
        "answers that differ between piles: {}",
        tally::differences(&answers)
    )?;
    println!(rt; "holders in sets at the end: {}", piles.members())?;
    println!(rt; "slots and holders that differ: {}", piles.disagreements())?;
    Ok(())
}

// Calls at the ends of the ranges, against the answers written beside them.
fn at_limits(rt: &HostRuntime, piles: &mut Piles) -> anyhow::Result<()> {
    let answered = limits::answered();
    let calls = answered.map(|(call, _)| call);
    let expected = answered.map(|(_, answer)| answer);
    let answers = piles.drive_all(rt.alloc(), &calls)?;
    println!(rt;
        "limit values answered wrongly: {}",
        tally::unlike(answers.locksets.as_slice(), &expected)
    )?;
    println!(rt;
        "limit values that differ between piles: {}",
        tally::differences(&answers)
    )?;
    Ok(())
}

// A clock keeper that has made all the passes it may; locksets would take a minute.
fn at_pass_limit(rt: &HostRuntime) -> anyhow::Result<()> {
    let mut keeper = ShortCut::new(Clocks::new());
    println!(rt; "passes taken: {}", full::passes_taken(&mut keeper))?;
    let (limit, range) = full::refusals(&mut keeper);
    println!(rt; "then {limit:?}, out of range {range:?}")?;
    Ok(())
}

// How many bytes each pile takes; none uses the heap.
fn sizes(rt: &HostRuntime) -> anyhow::Result<()> {
    println!(rt;
        "bytes of locksets {} of clocks {}",
        size_of::<Locksets>(),
        size_of::<Clocks>()
    )?;
    println!(rt;
        "bytes of the layer over locksets {} over clocks {}",
        size_of::<ShortCut<Locksets>>(),
        size_of::<ShortCut<Clocks>>()
    )?;
    Ok(())
}

fn main(rt: HostRuntime) -> anyhow::Result<()> {
    let mut piles = Piles::new();
    at_random(&rt, &mut piles)?;
    at_limits(&rt, &mut piles)?;
    at_pass_limit(&rt)?;
    sizes(&rt)?;
    Ok(())
}
