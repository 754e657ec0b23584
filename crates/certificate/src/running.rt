// Offering a file's events to a monitor.
ghost use Rattle.std.specs.Prelude.{◌≡◌, List, []};
ghost use Rattle.std.specs.Result.{result_err};
ghost use Rattle.events.specs.declared.Event.{Event as AnEvent};
ghost use Rattle.order.specs.Judgement.{judge, recorded};
ghost use Rattle.monitor.specs.Stands.{Stands};
ghost use Rattle.certificate.specs.Running.{Put, Took, RunOn};
ghost use Rattle.certificate.specs.Sentence.{RanWhole};

use crate::fault::{Cause, Fault};
use crate::finding::{Finding, Findings};
use crate::run::{Ran, Run};
use events::Event;
use keepers::Keeper;
use monitor::{Decision, Monitor};
use trace::{Reader, Site, Taker};

impl<K: Keeper> Run<K> {
    // Offers the file's event of that number; a decline becomes a finding.
    fn put(&mut self, event: Event, number: usize) -> Result<(), Cause>
        ensures { (rec : List AnEvent) → Stands rec self.old.monitor → Put self.old.findings number (judge rec event) result self.new.findings × Stands (recorded rec event (judge rec event)) self.new.monitor }
    {
        if let Decision::Declined { place, witness } = self.monitor.try_offer(event)? {
            self.findings.add(Finding {
                event: number,
                place,
                witness,
            })?;
        }
        Ok(())
    }
}

impl<K: Keeper> Taker<Fault> for Run<K> {
    ghost took = { λ s e at r t. Took s e at r t };

    #[tactic(auto, unfolding(crate::specs::Running::Took))]
    fn take(&mut self, event: Event, at: Site) -> Result<(), Fault> {
        self.put(event, at.event)
            .map_err(|cause| Fault { cause, at })
    }
}

// Offers all that is left of the file, up to a fault.
fn hand_all<K: Keeper>(reader: &mut Reader<'_>, run: &mut Run<K>) -> Result<(), Fault>
    ensures run { RunOn reader.old.bytes.now reader.old.at run.old reader.new.at run.new (result_err result) }
    ensures bytes { reader.new.bytes.now ≡ reader.old.bytes.now }
{
    while reader.hand(run)? {}
    Ok(())
}

// Runs what is left of a file, with no findings at first, and tells the fault that ended the run, if one did. The run is lent,
// since its room for findings is too large to be moved about.
pub(crate) fn run_out<K: Keeper>(reader: &mut Reader<'_>, run: &mut Run<K>) -> Option<Fault>
    requires { run.old.findings ≡ [] }
    ensures run { RanWhole reader.old.bytes.now reader.old.at run.old.monitor reader.new.at run.new.monitor run.new.findings result }
    ensures bytes { reader.new.bytes.now ≡ reader.old.bytes.now }
{
    hand_all(reader, run).err()
}

// Runs what is left of a file by the monitor, whatever that has accepted before.
pub fn run_file<K: Keeper>(reader: &mut Reader<'_>, monitor: Monitor<K>) -> Ran<K>
    ensures run { RanWhole reader.old.bytes.now reader.old.at monitor reader.new.at result.monitor result.findings result.end }
    ensures bytes { reader.new.bytes.now ≡ reader.old.bytes.now }
{
    let mut run = Run {
        monitor,
        findings: Findings::new(),
    };
    let end = run_out(reader, &mut run);
    let Run { monitor, findings } = run;
    Ran {
        monitor,
        findings,
        end,
    }
}
