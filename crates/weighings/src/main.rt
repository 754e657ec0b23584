// Puts three weighings to a monitor in one list of calls, and tells each call with its answer.
//
// Thread 0 weighs and thread 1 takes the weight: once under a lock, once by a flag and transactions, once with neither.
#![tactic(auto)]

mod calls;
mod show;
mod steps;
mod text;
mod words;

use show::show;
use std::io;
use steps::PARTS;
use streams::System;

fn main(rt: HostRuntime) -> io::Result<()> {
    Ok(show(rt.alloc(), &PARTS, &mut System(rt.stdout()))?)
}
