// What the words ask for.
ghost use Rattle.std.specs.Prelude.{◌≡◌, IfOk, map, option_map, string_bytes};
ghost use Rattle.clap.specs.Words.{found_of, kind_of, rows_of};
ghost use Rattle.cli.specs.Requests.{Asks, Names, Tells, read_file};
ghost use Rattle.cli.specs.Plain.{AsksPlainly};

use crate::command::command;
use clap::error::ErrorKind;
use clap::{ArgMatches, Error};
use std::alloc::{AllocError, Global};

// What a program is called, what it does, and whether it knows --exit-code.
pub struct Program {
    pub name: &'static str,
    pub about: &'static str,
    pub has_exit_code: bool,
}

#[derive(Drop)]
pub enum Request<'a> {
    // reads the file, or standard input where there is none
    Read {
        file: Option<&'a str>,
        exit_code: bool,
    },
    // the help or the version, for standard output
    Say(String),
    // what is wrong with the words, for standard error
    Refuse(String),
}

// The file that the word names: `-` is standard input, as no word is.
fn named_file<'a>(word: Option<&'a str>) -> Option<&'a str>
    ensures { option_map (λ w. w.now) result ≡ read_file (option_map (λ w. w.now) word.entry) }
{
    match word {
        Some(name) if name != "-" => Some(name),
        _ => None,
    }
}

// What the words name.
fn reading<'a>(matches: &ArgMatches<'a>) -> Request<'a>
    ensures { Names (rows_of (found_of matches.now)) result }
{
    Request::Read {
        file: named_file(matches.get_str("file")),
        exit_code: matches.get_flag("exit-code"),
    }
}

// What clap says of words that it does not take.
fn saying<'a>(heap: Global, error: &Error) -> Result<Request<'a>, AllocError>
    ensures { IfOk result (Tells (kind_of error.now)) }
{
    let text = error.to_string(heap)?;
    match error.kind() {
        ErrorKind::OutOfMemory => Err(AllocError),
        ErrorKind::DisplayHelp | ErrorKind::DisplayVersion => Ok(Request::Say(text)),
        _ => Ok(Request::Refuse(text)),
    }
}

// What the words ask for, of which the first is the program's own name. Where there is no memory to tell, nothing is known.
pub fn parse<'a>(
    heap: Global,
    program: &Program,
    words: &'a [String],
) -> Result<Request<'a>, AllocError>
    ensures answer { IfOk result (Asks program.now (map string_bytes words.entry.now)) }
    ensures plain { IfOk result (AsksPlainly program.now (map string_bytes words.entry.now)) }
{
    let command = command(heap, program)?;
    match command.try_get_matches_from(words) {
        Ok(matches) => Ok(reading(&matches)),
        Err(error) => saying(heap, &error),
    }
}
