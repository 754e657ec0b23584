// What inspect does: it reads a file and prints its listing, over any source and any sink.
ghost use Rattle.std.specs.Prelude.{◌≡◌, IfErr, IfOk, IfSome, OnOk, take};
ghost use Rattle.inspector.specs.Prints.{Leaves, Prints, Unprinted, Uses};
ghost use Rattle.inspector.specs.declared.work.Failure.TheVariants.{Memory};

use crate::listing::listing;
use std::alloc::{AllocError, Global};
use std::io;
use streams::{Sink, Source, read_up_to, write_whole};
use trace::ENOUGH;

// Why there is no listing, or not all of one.
#[derive(Drop)]
pub enum Failure {
    Reading(io::Error),
    Memory,
    Printing(io::Error),
}

impl From<AllocError> for Failure {
    ghost from_gives = { λ _ f. f ≡ Memory };

    fn from(_e: AllocError) -> Failure {
        Failure::Memory
    }
}

// All of the source's bytes, and no more than one too many.
fn read<S: Source>(heap: Global, source: &mut S) -> Result<Vec<u8>, Failure>
    ensures gives { IfOk result (λ v. IfSome (S.remaining source.old) (λ bytes. v.items ≡ take 65537 bytes)) }
    ensures uses { Uses (S.remaining source.old) (S.remaining source.new) }
    ensures steady { S.steady source.old → IfErr result (λ f. f ≡ Memory) }
    ensures failure { IfErr result Unprinted }
{
    let mut bytes = vec![in heap; 0u8; ENOUGH as usize]?;
    match read_up_to(source, bytes.as_mut_slice()) {
        Ok(length) => {
            bytes.truncate(length);
            Ok(bytes)
        }
        Err(e) => Err(Failure::Reading(e)),
    }
}

// Prints the listing of all that the source gives, once it is made and not before.
pub fn inspect<S: Source, W: Sink>(
    heap: Global,
    source: &mut S,
    sink: &mut W,
) -> Result<(), Failure>
    ensures prints { OnOk result (Prints (S.remaining source.old) (W.contents sink.old) (W.contents sink.new)) }
    ensures leaves { IfErr result (Leaves (S.remaining source.old) (W.contents sink.old) (W.contents sink.new)) }
    ensures uses { Uses (S.remaining source.old) (S.remaining source.new) }
    ensures flushed { OnOk result (W.flushed sink.new) }
    ensures steady { S.steady source.old → W.steady sink.old → IfErr result (λ f. f ≡ Memory) }
{
    let bytes = read(heap, source)?;
    let text = listing(heap, bytes.as_slice())?;
    match write_whole(sink, text.as_bytes()) {
        Ok(()) => Ok(()),
        Err(e) => Err(Failure::Printing(e)),
    }
}
