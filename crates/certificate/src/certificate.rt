// The certificate of a file, over any keeper.
ghost use Rattle.std.specs.Prelude.{◌≤◌, length, IfOk, IsOk, string_bytes};
ghost use Rattle.certificate.specs.Certified.{Agree};
ghost use Rattle.certificate.specs.MadeBy.{MadeOver};
ghost use Rattle.certificate.specs.Host.{CertifiedInto};

use crate::call::{CallFault, Summary};
use crate::finding::Findings;
use crate::run::Run;
use crate::running::{run_file, run_out};
use crate::text::{Certificate, LONGEST_TEXT, text_of};
use crate::writing::write_text;
use keepers::Keeper;
use monitor::Monitor;
use std::alloc::{AllocError, Global};
use trace::Reader;

// Starts a monitor over the keeper, whatever that held before, runs the file and tells the outcome.
pub fn certificate_of<K: Keeper + Drop>(
    heap: Global,
    bytes: &[u8],
    keeper: K,
) -> Result<String, AllocError>
    ensures { IfOk result (λ t. MadeOver K.Keeper bytes.now (string_bytes t)) }
{
    let mut reader = Reader::new(bytes);
    let ran = run_file(&mut reader, Monitor::start(keeper));
    let certificate = Certificate {
        accepted: ran.monitor.accepted(),
        findings: ran.findings.as_slice(),
        end: ran.end,
    };
    text_of(heap, &certificate)
}

// The same at the front of the caller's buffer, if it fits, with no heap.
pub(crate) fn certificate_into<K: Keeper + Drop>(
    bytes: &[u8],
    keeper: K,
    out: &mut [u8],
) -> Result<Summary, CallFault>
    ensures made { CertifiedInto (MadeOver K.Keeper bytes.now) out.old out.new result }
    ensures room { LONGEST_TEXT ≤ length out.old → IsOk result }
{
    let mut reader = Reader::new(bytes);
    let mut run = Run {
        monitor: Monitor::start(keeper),
        findings: Findings::new(),
    };
    let end = run_out(&mut reader, &mut run);
    let certificate = Certificate {
        accepted: run.monitor.accepted(),
        findings: run.findings.as_slice(),
        end,
    };
    write_text(&certificate, out)
}

// A file has one certificate, whatever keeper it is made with.
pub fn certificates_agree()
    ensures { Agree }
{}
