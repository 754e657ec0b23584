// certify: prints the certificate of a trace file.
#![tactic(auto)]

use certificate::Ending;
use certifier::{Failure, certify, status};
use cli::{Program, Request, parse};
use std::fs::File;
use std::process::ExitCode;
use std::{env, io};
use streams::System;

const PROGRAM: Program = Program {
    name: "certify",
    about: "Prints the certificate of a trace file: whether its events race.",
    has_exit_code: true,
};

// The status where the words are not taken.
const REFUSED: u8 = 2;

// The status where there is no memory for the words, or what they ask for can't be said.
const NOTHING_DONE: u8 = 3;

// Certifies the file, or standard input where none is named.
fn certify_file(rt: &HostRuntime, file: Option<&str>) -> Result<Ending, Failure> {
    let mut output = System(rt.stdout());
    match file {
        Some(name) => {
            let input = File::open(rt, name).map_err(Failure::Reading)?;
            certify(&mut System(input), &mut output)
        }
        None => certify(&mut System(rt.stdin()), &mut output),
    }
}

// Says on standard error why there is no certificate, or not all of one.
fn complain(rt: &HostRuntime, file: Option<&str>, failure: &Failure) -> io::Result<()> {
    let (stream, reason) = match failure {
        Failure::Reading(e) => (file.unwrap_or("standard input"), e),
        Failure::Printing(e) => ("standard output", e),
    };
    eprintln!(rt; "certify: {stream}: {reason}")
}

// Certifies, complains where that failed, and answers the exit status.
fn run(rt: &HostRuntime, file: Option<&str>, exit_code: bool) -> u8 {
    let answer = certify_file(rt, file);
    if let Err(failure) = &answer {
        // where standard error fails too, the status alone tells it
        let _ = complain(rt, file, failure);
    }
    status(&answer, exit_code)
}

// Does what the words ask for, and answers the exit status.
fn obey(rt: &HostRuntime) -> io::Result<u8> {
    let words: Vec<String> = env::args(rt)?.collect(rt.alloc())?;
    match parse(rt.alloc(), &PROGRAM, words.as_slice())? {
        Request::Read { file, exit_code } => Ok(run(rt, file, exit_code)),
        Request::Say(text) => {
            rt.print(text)?;
            Ok(0)
        }
        Request::Refuse(text) => {
            rt.eprint(text)?;
            Ok(REFUSED)
        }
    }
}

fn main(rt: HostRuntime) -> ExitCode {
    match obey(&rt) {
        Ok(status) => ExitCode::from(status),
        Err(e) => {
            let _ = eprintln!(rt; "certify: {e}");
            ExitCode::from(NOTHING_DONE)
        }
    }
}
