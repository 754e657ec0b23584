// The text of a certificate.
ghost use Rattle.std.specs.Prelude.{◌≡◌, IfOk, Some, string_bytes};
ghost use Rattle.certificate.specs.LastLine.{EndsAs};
ghost use Rattle.certificate.specs.Texts.{finding_text, fault_text, text as whole_text};

use crate::ending::Ending;
use crate::fault::Fault;
use crate::finding::Finding;
use std::alloc::{AllocError, Global};
use std::error::Error;
use std::fmt;

// No certificate of a file is longer than this, whatever it tells.
pub const LONGEST_TEXT: usize = 35_075;

// What a certificate tells: how many events are accepted, the findings, and the fault that ended the run, if one did.
#[derive(Clone, Copy, Debug)]
pub struct Certificate<'a> {
    pub accepted: u32,
    pub findings: &'a [Finding],
    pub end: Option<Fault>,
}

impl Certificate<'_> {
    // How it ends, as the last line of its text tells.
    pub fn ending(&self) -> Ending
        ensures { EndsAs (whole_text self.now.accepted self.now.findings.now self.now.end) result }
    {
        match (self.end, self.findings) {
            (Some(_), _) => Ending::Refused,
            (None, []) => Ending::Clean,
            (None, _) => Ending::NotClean,
        }
    }
}

impl fmt::Display for Finding {
    ghost output = { λ f. Some (finding_text f) };

    fn fmt<W: fmt::Write>(&self, f: &mut fmt::Formatter<W>) -> fmt::Result {
        write!(
            f,
            "event {} place {} witness {}",
            self.event, self.place, self.witness
        )
    }
}

impl fmt::Display for Fault {
    ghost output = { λ f. Some (fault_text f) };

    fn fmt<W: fmt::Write>(&self, f: &mut fmt::Formatter<W>) -> fmt::Result {
        write!(f, "refused {} {}", self.cause.number(), self.at)
    }
}

impl Error for Fault {}

// The first line, a line for each finding, and the last line, which tells how the run ended.
impl fmt::Display for Certificate<'_> {
    ghost output = { λ c. Some (whole_text c.accepted c.findings.now c.end) };

    fn fmt<W: fmt::Write>(&self, f: &mut fmt::Formatter<W>) -> fmt::Result {
        writeln!(
            f,
            "accepted {} declined {}",
            self.accepted,
            self.findings.len()
        )?;
        for finding in self.findings {
            writeln!(f, "{finding}")?;
        }
        match (self.end, self.findings) {
            (Some(fault), _) => writeln!(f, "{fault}"),
            (None, []) => writeln!(f, "clean"),
            (None, _) => writeln!(f, "not clean"),
        }
    }
}

// The whole text.
pub fn text_of(heap: Global, certificate: &Certificate<'_>) -> Result<String, AllocError>
    ensures { IfOk result (λ t. string_bytes t ≡ whole_text certificate.now.accepted certificate.now.findings.now certificate.now.end) }
{
    format!(in heap; "{certificate}")
}
