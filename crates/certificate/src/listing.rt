// Listing findings.
ghost use Rattle.std.specs.Prelude.{◌≡◌, ◌≤◌, [], length};
ghost use Rattle.certificate.specs.Running.{Added};

use crate::fault::RunFault;
use crate::finding::{Finding, Findings, MOST};

impl Findings {
    // No findings yet.
    #[inline]
    pub fn new() -> Findings
        ensures { result ≡ [] }
    {
        let none = Finding {
            event: 0,
            place: 0,
            witness: 0,
        };
        Findings {
            list: [none; MOST],
            count: 0,
        }
    }

    // Lists one more, unless a thousand are listed.
    pub fn add(&mut self, finding: Finding) -> Result<(), RunFault>
        ensures { Added self.old finding result self.new }
    {
        if self.count >= MOST {
            return Err(RunFault::TooManyFindings);
        }
        self.list[self.count] = finding;
        self.count += 1;
        Ok(())
    }

    // All of them, in the order in which they were listed.
    pub fn as_slice(&self) -> &[Finding]
        ensures items { result.now ≡ self.now }
        ensures few { length result.now ≤ 1000 }
    {
        &self.list[..self.count]
    }
}
