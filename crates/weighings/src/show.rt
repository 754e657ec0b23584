// The demo's work: the calls are made, and what was asked and answered is told in words.
ghost use Rattle.std.specs.Prelude.{◌≡◌, [], IfOk, OnOk, string_bytes};
ghost use Rattle.monitor.specs.Promise.{Promise};
ghost use Rattle.weighings.specs.declared.show.Failure.TheVariants.{Memory};
ghost use Rattle.weighings.specs.Steps.{calls_of};
ghost use Rattle.weighings.specs.Shown.{Tells, Shows, FailsByMemory, IsErrorOf};

use crate::calls::{let_go, listed};
use crate::steps::Part;
use crate::text::DemoText;
use clocks::Clocks;
use monitor::{Reply, answer_all};
use std::alloc::{AllocError, Global};
use std::io;
use streams::{Sink, write_whole};

// Why the text is not printed, or not all of it.
#[derive(Drop)]
pub(crate) enum Failure {
    // nothing is printed
    Memory,
    Printing(io::Error),
}

impl From<AllocError> for Failure {
    ghost from_gives = { λ _ f. f ≡ Memory };

    fn from(_: AllocError) -> Failure {
        Failure::Memory
    }
}

impl From<Failure> for io::Error {
    ghost from_gives = { IsErrorOf };

    fn from(failure: Failure) -> io::Error {
        match failure {
            Failure::Memory => io::Error::from(AllocError),
            Failure::Printing(e) => e,
        }
    }
}

// What a new monitor answers to the calls of all parts.
fn answered(heap: Global, parts: &[Part]) -> Result<Vec<Reply>, AllocError>
    ensures { IfOk result (λ replies. Promise [] (calls_of parts.now) replies.items) }
{
    let calls = listed(heap, parts)?;
    let mut replies = match Vec::with_capacity(heap, calls.len()) {
        Ok(room) => room,
        Err(fault) => {
            let_go(calls);
            return Err(fault);
        }
    };
    match answer_all(Clocks::new(), calls, &mut replies) {
        Ok(_) => Ok(replies),
        Err(_) => unreachable!(),
    }
}

// Each call of the parts with its answer.
fn text_of(heap: Global, parts: &[Part]) -> Result<String, AllocError>
    ensures { IfOk result (λ t. Tells parts.now (string_bytes t)) }
{
    let replies = answered(heap, parts)?;
    let text = DemoText {
        parts,
        replies: replies.as_slice(),
    };
    format!(in heap; "{text}")
}

// Prints that text, once it is whole and not before.
pub(crate) fn show<W: Sink>(heap: Global, parts: &[Part], output: &mut W) -> Result<(), Failure>
    ensures shows { Shows parts.now (W.contents output.old) (W.contents output.new) result }
    ensures steady { W.steady output.old → FailsByMemory result × W.steady output.new }
    ensures flushed { OnOk result (W.flushed output.new) }
{
    let text = text_of(heap, parts)?;
    write_whole(output, text.as_bytes()).map_err(Failure::Printing)
}
