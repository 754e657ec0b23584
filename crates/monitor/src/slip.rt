// A slip gathers a transaction. It has no `Drop`: an open one must be committed or abandoned.
ghost use Rattle.std.specs.Prelude.{◌≡◌};
ghost use Rattle.events.specs.Places.{with_place};
ghost use Rattle.monitor.specs.Answers.{told};
ghost use Rattle.monitor.specs.Offers.{Judges, Works, Keeps};
ghost use Rattle.monitor.specs.Slips.{opened, with_read, with_write, add_answer, commit_of};

use crate::monitor::Monitor;
use crate::verdict::Verdict;
use events::{Action, Event, PlaceSet};
use keepers::Keeper;
use roster::RuleFault;

pub struct Slip {
    thread: u8,
    reads: PlaceSet,
    writes: PlaceSet,
}

// Adds a place to one of the sets.
fn add(set: &mut PlaceSet, place: u8) -> Result<(), RuleFault>
    ensures answer { result ≡ add_answer place }
    ensures set { set.new ≡ with_place set.old place }
{
    if place >= 64 {
        return Err(RuleFault::NoSuchThing);
    }
    set.insert(place);
    Ok(())
}

impl Slip {
    // An empty transaction of the thread.
    pub fn open(thread: u8) -> Slip
        ensures { result ≡ opened thread }
    {
        Slip {
            thread,
            reads: PlaceSet::EMPTY,
            writes: PlaceSet::EMPTY,
        }
    }

    // Adds a place to the read set. This and `add_write` are two promises; the work is done once, by `add`.
    pub fn add_read(&mut self, place: u8) -> Result<(), RuleFault>
        ensures answer { result ≡ add_answer place }
        ensures slip { self.new ≡ with_read self.old place }
    {
        add(&mut self.reads, place)
    }

    // Adds a place to the write set.
    pub fn add_write(&mut self, place: u8) -> Result<(), RuleFault>
        ensures answer { result ≡ add_answer place }
        ensures slip { self.new ≡ with_write self.old place }
    {
        add(&mut self.writes, place)
    }

    // Lets the transaction go.
    pub fn abandon(self) {
        let Slip {
            thread: _,
            reads: _,
            writes: _,
        } = self;
    }

    // Offers the transaction's commit; the slip is spent, whatever the answer.
    pub fn commit<K: Keeper>(self, monitor: &mut Monitor<K>) -> Verdict
        ensures answer { Judges monitor.old (commit_of self) (told result) monitor.new }
        ensures keeper { Works monitor.old (commit_of self) (told result) monitor.new }
        ensures unchanged { Keeps monitor.old (told result) monitor.new }
    {
        let Slip {
            thread,
            reads,
            writes,
        } = self;
        monitor.offer(Event {
            thread,
            action: Action::Commit { reads, writes },
        })
    }
}
