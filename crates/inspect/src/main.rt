// inspect: lists a trace file.
#![tactic(auto)]

use cli::{Program, Request, parse};
use inspector::{Failure, inspect};
use std::fs::File;
use std::process::ExitCode;
use std::{env, io};
use streams::System;

const PROGRAM: Program = Program {
    name: "inspect",
    about: "Lists a trace file: its sections and events, up to its end or its first refusal.",
    has_exit_code: false,
};

// Lists the file, or standard input where there is none.
fn list(rt: &HostRuntime, file: Option<&str>) -> Result<(), Failure> {
    let mut output = System(rt.stdout());
    match file {
        None => inspect(rt.alloc(), &mut System(rt.stdin()), &mut output),
        Some(name) => {
            let opened = File::open(rt, name).map_err(Failure::Reading)?;
            inspect(rt.alloc(), &mut System(opened), &mut output)
        }
    }
}

// Says on standard error why there is no listing, or not all of one.
fn complain(rt: &HostRuntime, file: Option<&str>, failure: &Failure) -> io::Result<()> {
    let input = file.unwrap_or("standard input");
    match failure {
        Failure::Reading(e) => eprintln!(rt; "inspect: {input}: {e}"),
        Failure::Memory => eprintln!(rt; "inspect: {input}: no memory"),
        Failure::Printing(e) => eprintln!(rt; "inspect: standard output: {e}"),
    }
}

// Lists the file, and complains where that failed.
fn run(rt: &HostRuntime, file: Option<&str>) -> io::Result<ExitCode> {
    if let Err(failure) = list(rt, file) {
        complain(rt, file, &failure)?;
        return Ok(ExitCode::FAILURE);
    }
    Ok(ExitCode::SUCCESS)
}

fn main(rt: HostRuntime) -> io::Result<ExitCode> {
    let words: Vec<String> = env::args(&rt)?.collect(rt.alloc())?;
    match parse(rt.alloc(), &PROGRAM, words.as_slice())? {
        Request::Read { file, .. } => run(&rt, file),
        Request::Say(text) => {
            print!(rt; "{text}")?;
            Ok(ExitCode::SUCCESS)
        }
        Request::Refuse(text) => {
            eprint!(rt; "{text}")?;
            Ok(ExitCode::from(2))
        }
    }
}
