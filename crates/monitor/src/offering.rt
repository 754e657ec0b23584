// Starting a monitor, offering it events, and ending it.
ghost use Rattle.std.specs.Prelude.{◌≡◌, List, [], ◌∷◌};
ghost use Rattle.events.specs.declared.Event.{Event as AnEvent};
ghost use Rattle.keepers.specs.Meaning.{cleared};
ghost use Rattle.order.specs.Judgement.{judge, accepted as accepted_as};
ghost use Rattle.order.specs.Work.{calls};
ghost use Rattle.slots.specs.Made.{made};
ghost use Rattle.monitor.specs.Answers.{told, decided};
ghost use Rattle.monitor.specs.Offers.{Judges, Works, Keeps};
ghost use Rattle.monitor.specs.Stands.{Stands};

use crate::monitor::Monitor;
use crate::verdict::{Decision, Verdict};
use events::Event;
use keepers::Keeper;
use roster::{Roster, RuleFault};
use slots::Slots;

impl<K: Keeper> Monitor<K> {
    // An empty record over the keeper, whatever that held before.
    pub fn start(keeper: K) -> Monitor<K>
        ensures stands { Stands [] result }
        ensures keeper { K.meaning result.slots.keeper ≡ cleared }
    {
        Monitor {
            accepted: 0,
            roster: Roster::new(),
            slots: Slots::start(keeper),
        }
    }

    // How the event would be answered.
    fn check(&self, event: Event) -> Result<Decision, RuleFault>
        ensures { (rec : List AnEvent) → Stands rec self.now → decided result ≡ judge rec event }
    {
        self.roster.rule(self.accepted, event)?;
        match self.slots.race(event) {
            Some(race) => Ok(Decision::Declined {
                place: race.place,
                witness: race.witness,
            }),
            None => Ok(Decision::Accepted {
                serial: self.accepted.saturating_add(1),
            }),
        }
    }

    // Records an event that was found good, under its serial.
    fn accept(&mut self, serial: u32, event: Event)
        ensures stands { (rec : List AnEvent) → Stands rec self.old → judge rec event ≡ accepted_as serial → Stands (event ∷ rec) self.new }
        ensures keeper { K.meaning self.new.slots.keeper ≡ made (calls event) (K.meaning self.old.slots.keeper) }
    {
        self.accepted = serial;
        self.slots.work(serial, event);
        self.roster.note(event);
    }

    // Offers an event: a refusal is the error. Only an accepted event changes anything.
    pub fn try_offer(&mut self, event: Event) -> Result<Decision, RuleFault>
        ensures answer { Judges self.old event (decided result) self.new }
        ensures keeper { Works self.old event (decided result) self.new }
        ensures unchanged { Keeps self.old (decided result) self.new }
    {
        let decision = self.check(event)?;
        if let Decision::Accepted { serial } = decision {
            self.accept(serial, event);
        }
        Ok(decision)
    }

    // Offers an event, and tells what became of it as one value.
    pub fn offer(&mut self, event: Event) -> Verdict
        ensures answer { Judges self.old event (told result) self.new }
        ensures keeper { Works self.old event (told result) self.new }
        ensures unchanged { Keeps self.old (told result) self.new }
    {
        Verdict::from(self.try_offer(event))
    }

    // Ends the monitor and hands the keeper back.
    pub fn into_keeper(self) -> K
        ensures { result ≡ self.slots.keeper }
    {
        let Monitor {
            accepted: _,
            roster: _,
            slots,
        } = self;
        slots.into_keeper()
    }
}
