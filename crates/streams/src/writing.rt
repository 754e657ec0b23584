// Writing all of some bytes.
ghost use Rattle.std.specs.Prelude.{IsOk, OnOk};
ghost use Rattle.streams.specs.Told.{GoesOn, WritesWhole};

use crate::sink::Sink;
use crate::tries::Tries;
use std::io::{Error, ErrorKind, Result};

// Writes all the bytes, without the flush.
fn write_out<W: Sink>(sink: &mut W, bytes: &[u8]) -> Result<()>
    ensures writes { WritesWhole (W.contents sink.old) (W.contents sink.new) result bytes.now }
    ensures steady { W.steady sink.old → IsOk result × W.steady sink.new }
    ensures retried { GoesOn result }
{
    let mut written = 0;
    let mut tries = Tries::new();
    while written < bytes.len() {
        match sink.write(&bytes[written..]) {
            Ok(0) => return Err(Error::new(ErrorKind::WriteZero, "nothing more is taken")),
            Ok(n) => written += n,
            Err(e) => tries.after(e)?,
        }
    }
    Ok(())
}

// Writes all the bytes and flushes. Where that fails, some front of the bytes is written. A write that a signal interrupts
// is tried again.
#[tactic(auto, using(crate::proofs::Fronts::flushed))]
pub fn write_whole<W: Sink>(sink: &mut W, bytes: &[u8]) -> Result<()>
    ensures writes { WritesWhole (W.contents sink.old) (W.contents sink.new) result bytes.now }
    ensures flushed { OnOk result (W.flushed sink.new) }
    ensures steady { W.steady sink.old → IsOk result × W.steady sink.new }
{
    write_out(sink, bytes)?;
    sink.flush()
}
