// What a monitor is asked: how many events it accepted, how many passes they made, and what it knows of an access.
ghost use Rattle.std.specs.Prelude.{◌≡◌, List, length, IfOk};
ghost use Rattle.events.specs.declared.Event.{Event as AnEvent};
ghost use Rattle.order.specs.Work.{passes_by};
ghost use Rattle.monitor.specs.Answers.{asked, told_of};
ghost use Rattle.monitor.specs.Shown.{RightlyTold};
ghost use Rattle.monitor.specs.Stands.{Stands};

use crate::monitor::Monitor;
use crate::verdict::Question;
use keepers::Keeper;
use roster::RuleFault;
use slots::Told;

impl<K: Keeper> Monitor<K> {
    // How many events are accepted.
    pub fn accepted(&self) -> u32
        ensures { (rec : List AnEvent) → Stands rec self.now → result ≡ length rec }
    {
        self.accepted
    }

    // How many passes the keeper has counted: those of the accepted events.
    pub fn passes(&self) -> u32
        ensures counted { result ≡ (K.meaning self.now.slots.keeper).passes }
        ensures made { (rec : List AnEvent) → Stands rec self.now → result ≡ passes_by rec }
    {
        self.slots.passes()
    }

    // Whether the access that is asked about is there; and then its serial, and whether it has reached the thread.
    pub fn ask(&self, question: Question) -> Result<Option<Told>, RuleFault>
        ensures answer { (rec : List AnEvent) → Stands rec self.now → told_of result ≡ asked rec question.place question.access question.thread }
        ensures right { IfOk result (λ told. (rec : List AnEvent) → Stands rec self.now → RightlyTold rec question told) }
    {
        let Question {
            place,
            access,
            thread,
        } = question;
        let slot = access.slot()?;
        if thread >= 8 {
            return Err(RuleFault::NoSuchThread);
        }
        if place >= 64 {
            return Err(RuleFault::NoSuchThing);
        }
        Ok(self.slots.tell(place, slot, thread))
    }
}
