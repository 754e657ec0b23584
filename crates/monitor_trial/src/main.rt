// The worked examples over every pile of keepers, the limits and refusals, and a full record, one check to a line.
#![tactic(auto)]

mod common;
mod examples;
mod faults;
mod full;
mod limits;
mod piles;
mod questions;
mod words;

use events::{Action, Event};
use piles::over_all;
use words::Words;

// Offers events, each with a name, over every pile: one to a line, and the piles that answer or count otherwise.
fn offer_all(rt: &HostRuntime, named: &[(&str, u8, Action)]) -> anyhow::Result<()> {
    let heap = rt.alloc();
    let mut events = Vec::new(heap);
    for &(_, thread, action) in named {
        events.push(Event { thread, action })?;
    }
    let piles = over_all(heap, &events)?;
    let [(_, first), ..] = &piles;
    for (&(name, ..), &told) in named.iter().zip(first) {
        println!(rt; "{name}: {}", Words(told))?;
    }
    for (pile, told) in &piles {
        if told != first {
            println!(rt; "otherwise over {pile}")?;
        }
    }
    Ok(())
}

fn main(rt: HostRuntime) -> anyhow::Result<()> {
    examples::compare_all(&rt)?;
    offer_all(&rt, &limits::RANGES)?;
    offer_all(&rt, &faults::FAULTS)?;
    questions::decline(&rt)?;
    questions::ask_all(&rt)?;
    questions::slips(&rt)?;
    full::fill(&rt)
}
