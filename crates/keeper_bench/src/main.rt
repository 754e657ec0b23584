// Measures begins, passes and asks of each kind of keeper, if asked to.
#![tactic(auto)]

mod measure;

use clocks::Clocks;
use locksets::Locksets;
use measure::run;
use shortcut::ShortCut;
use std::env;

fn told_to_measure(rt: &HostRuntime) -> anyhow::Result<bool> {
    Ok(env::args(rt)?.any(|word| word.as_str() == "measure"))
}

fn measure_all(rt: &HostRuntime) -> anyhow::Result<()> {
    run(rt, "locksets", &mut Locksets::new())?;
    run(rt, "clocks", &mut Clocks::new())?;
    run(
        rt,
        "layer over locksets",
        &mut ShortCut::new(Locksets::new()),
    )?;
    run(rt, "layer over clocks", &mut ShortCut::new(Clocks::new()))?;
    Ok(())
}

// Without the word `measure` nothing is timed, so that what is written does not vary.
fn main(rt: HostRuntime) -> anyhow::Result<()> {
    if told_to_measure(&rt)? {
        return measure_all(&rt);
    }
    println!(rt;
        "keeper_bench measure: begins, passes and asks per second of each kind of keeper"
    )?;
    Ok(())
}
