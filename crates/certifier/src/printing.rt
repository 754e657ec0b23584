// Printing the certificate of all that a source gives.
ghost use Rattle.std.specs.Prelude.{◌≤◌, length, IfErr, IfOk, OnOk};
ghost use Rattle.certifier.specs.Prints.{Prints, Leaves, UsesUp, Excused, Wrote};

use certificate::{Ending, KeeperKind, LONGEST_TEXT, Summary, certify_into};
use std::io;
use streams::{Sink, Source, read_up_to, write_whole};
use trace::ENOUGH;

// Why there is no certificate, or not all of one.
#[derive(Drop)]
pub enum Failure {
    // the input was not read to its end: nothing is written
    Reading(io::Error),
    // some front of the certificate may be written
    Printing(io::Error),
}

// Makes the certificate of the bytes over locksets, at the front of the buffer.
fn make(bytes: &[u8], text: &mut [u8]) -> Summary
    requires { LONGEST_TEXT ≤ length text.old }
    ensures { Wrote bytes.now text.new result }
{
    certify_into(bytes, KeeperKind::Locksets, text).unwrap()
}

// Reads what the source gives, and once the certificate is made, and not before, prints it. Of a source that gives too
// much no more is read than shows that.
pub fn certify<S: Source, W: Sink>(input: &mut S, output: &mut W) -> Result<Ending, Failure>
    ensures prints { IfOk result (Prints (S.remaining input.old) (W.contents output.old) (W.contents output.new)) }
    ensures leaves { IfErr result (Leaves W.contents (S.remaining input.old) output.old output.new) }
    ensures uses { UsesUp (S.remaining input.old) (S.remaining input.new) result }
    ensures flushed { OnOk result (W.flushed output.new) }
    ensures excused { IfErr result (Excused (S.steady input.old) (W.steady output.old)) }
{
    let mut bytes = [0; ENOUGH as usize];
    let length = read_up_to(input, &mut bytes).map_err(Failure::Reading)?;
    let mut text = [0; LONGEST_TEXT];
    let made = make(&bytes[..length], &mut text);
    match write_whole(output, &text[..made.length]) {
        Ok(()) => Ok(made.ending),
        Err(e) => Err(Failure::Printing(e)),
    }
}
