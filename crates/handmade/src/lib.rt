// Trace files of bytes made by hand, sound and damaged, for trials.
#![tactic(auto)]

ghost use Rattle.std.specs.Prelude.{◌≡◌, [], ◌∷◌, IfOk, length, min};
ghost use Rattle.handmade.specs.Told.{told_bytes};

use std::alloc::{AllocError, Global};
use trace::LONGEST;

// Header and contents as they are told, whether they fit or not, and then the bytes.
pub fn told(
    heap: Global,
    sections: u16,
    entries: &[(u32, u32)],
    rest: &[u8],
) -> Result<Vec<u8>, AllocError>
    ensures { IfOk result (λ v. v.items ≡ told_bytes sections entries.now rest.now) }
{
    let mut out = Vec::new(heap);
    out.extend_from_slice(&1u16.to_le_bytes())?;
    out.extend_from_slice(&sections.to_le_bytes())?;
    for (offset, size) in entries {
        out.extend_from_slice(&offset.to_le_bytes())?;
        out.extend_from_slice(&size.to_le_bytes())?;
    }
    out.extend_from_slice(rest)?;
    Ok(out)
}

// A file of one section; a body that is longer than a file may be is told to be as long as one.
pub fn single(heap: Global, body: &[u8]) -> Result<Vec<u8>, AllocError>
    ensures { IfOk result (λ v. v.items ≡ told_bytes 1 ((12, min (length body.now) 65536) ∷ []) body.now) }
{
    let size = body.len().min(LONGEST);
    told(heap, 1, &[(12, size as u32)], body)
}
