// Handing the events of a file to a taker, one after another, as they are read.
ghost use Rattle.std.specs.Prelude.{◌≡◌, ◌<◌, length, Some, Ok, Result as AResult};
ghost use Rattle.events.specs.declared.Event.{Event as AnEvent};
ghost use Rattle.trace.specs.declared.fault.Site.{Site as ASite};
ghost use Rattle.trace.specs.Reading.{site, taken, moved, some_event};
ghost use Rattle.trace.specs.Handing.{HandedAs, Handed};

use crate::codec::read_event;
use crate::fault::{Refusal, Site};
use crate::place::Guard;
use crate::reader::Reader;
use events::Event;

// Who takes events, or turns one away with a fault.
pub trait Taker<E> {
    // what is answered to an event at a site, and what becomes of the taker
    ghost took: { Self → AnEvent → ASite → AResult (Unit {0}) E → Self → Type 0 };

    fn take(&mut self, event: Event, at: Site) -> Result<(), E>
        ensures { took self.old event at result self.new };
}

// Keeps the last event that it took, and turns none away.
impl Taker<Refusal> for Option<Event> {
    ghost took = { λ _ e _ r t. (r ≡ Ok tt) × (t ≡ Some e) };

    fn take(&mut self, event: Event, _at: Site) -> Result<(), Refusal> {
        *self = Some(event);
        Ok(())
    }
}

impl Reader<'_> {
    // Hands the next event on, of which there is one. The guard spans reading and taking.
    pub(crate) fn hand_event<E: From<Refusal>, T: Taker<E>>(
        &mut self,
        taker: &mut T,
    ) -> Result<bool, E>
        requires { (0 < self.old.at.byte) × (self.old.at.byte < length self.old.bytes.now) }
        ensures handed { HandedAs T.Taker.took E.From.from_gives (some_event (taken self.old.bytes.now self.old.at)) (site self.old.bytes.now self.old.at) self.old.at (moved self.old.bytes.now self.old.at) taker.old taker.new self.new.at result }
        ensures bytes { self.new.bytes.now ≡ self.old.bytes.now }
    {
        let section = self.section();
        let end = self.section_end(section);
        let bytes = self.bytes;
        let before = self.at;
        let site = Site {
            section,
            event: before.events + 1,
            byte: before.byte,
        };
        let mut guard = Guard {
            at: &mut self.at,
            back: Some(before),
        };
        guard.at.section = section;
        let event = read_event(bytes, guard.at, end).map_err(|fault| Refusal { fault, at: site })?;
        taker.take(event, site)?;
        guard.back = None;
        Ok(true)
    }

    // Reads the next event and hands it to the taker; tells whether there was one. An event that is refused or turned away
    // leaves a reader inside the file at that event's first byte.
    pub fn hand<E: From<Refusal>, T: Taker<E>>(&mut self, taker: &mut T) -> Result<bool, E>
        ensures handed { Handed T.Taker.took E.From.from_gives self.old.bytes.now self.old.at taker.old taker.new self.new.at result }
        ensures bytes { self.new.bytes.now ≡ self.old.bytes.now }
    {
        self.contents()?;
        if self.at.byte < self.bytes.len() {
            self.hand_event(taker)
        } else {
            Ok(false)
        }
    }
}
