// A program's command line, as clap is told of it.
ghost use Rattle.std.specs.Prelude.{◌≡◌, IfOk};
ghost use Rattle.clap.specs.Words.{app_of};
ghost use Rattle.cli.specs.CommandLine.{command_line};

use crate::words::Program;
use clap::{Arg, ArgAction, Command};
use std::alloc::{AllocError, Global};

// What --version prints behind the program's name: the edition of the trace file, and the toolchain that all is proved with.
const VERSION: &str = "for trace files of edition 1\nrattle-kit-13f logic dac8208d650f15bf";

// One FILE, and --exit-code where the program knows it; clap adds --help and --version.
pub(crate) fn command<'a>(heap: Global, program: &Program) -> Result<Command<'a>, AllocError>
    ensures { IfOk result (λ c. app_of c ≡ command_line program.now) }
{
    let file = Arg::new(heap, "file")
        .action(ArgAction::Set)
        .value_name("FILE")
        .help("the trace file; without one, or with -, standard input");
    let command = Command::new(heap, program.name)
        .about(program.about)
        .version(VERSION)
        .arg(file)?;
    if !program.has_exit_code {
        return Ok(command);
    }
    let exit_code = Arg::new(heap, "exit-code")
        .long("exit-code")
        .action(ArgAction::SetTrue)
        .help("ends with 0 for clean, 1 for not clean, 2 for refused, 3 for no certificate");
    command.arg(exit_code)
}
