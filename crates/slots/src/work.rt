// The work of an accepted event on the keeper and on the serials.
ghost use Rattle.std.specs.Prelude.{ℕ, ◌+◌, ◌*◌, ◌≤◌};
ghost use Rattle.order.specs.Slots.{changed};
ghost use Rattle.order.specs.Work.{calls, accesses, looked_at, written, forget_from, committed};
ghost use Rattle.slots.specs.Made.{Made};
ghost use Rattle.slots.specs.Serials.{Numbered, Emptied, by_read, by_write, by_commit};

use crate::holders::Holders;
use crate::passes::{pass_in, pass_out};
use crate::table::{Slots, slot_of};
use events::{Action, Event, PlaceSet};
use keepers::{Keeper, THREADS};

// Who accesses a place, and the serial of the event that does.
#[derive(Clone, Copy)]
struct Step {
    thread: u8,
    serial: u32,
}

// Forgets so many slots of the keeper, from the first on.
fn forget_slots<K: Keeper>(keeper: &mut K, first: usize, count: usize)
    requires { (first ≤ 10000) × (count ≤ 36) }
    ensures { Made K.live K.meaning (forget_from count first) keeper.old keeper.new }
{
    for slot in first..first + count {
        let _ = keeper.forget(slot);
    }
}

impl<K: Keeper> Slots<K> {
    // Passes to the event's thread, then its accesses, then passes from its thread. What the
    // keeper refuses changes nothing, and no event within its ranges is refused.
    pub fn work(&mut self, serial: u32, event: Event)
        ensures keeper { Made K.live K.meaning (calls event) self.old.keeper self.new.keeper }
        ensures serials { Numbered self.old.serials self.new.serials (λ p k n. changed event p k serial 0 n) }
    {
        let Event { thread, action } = event;
        pass_in(&mut self.keeper, Holders::takes_from(action), thread);
        self.access(serial, event);
        pass_out(&mut self.keeper, Holders::gives_to(action), thread);
    }

    // Begins and forgets the slots of the event's accesses.
    fn access(&mut self, serial: u32, event: Event)
        ensures keeper { Made K.live K.meaning (accesses event.thread event.action) self.old.keeper self.new.keeper }
        ensures serials { Numbered self.old.serials self.new.serials (λ p k n. changed event p k serial 0 n) }
    {
        let Event { thread, action } = event;
        let step = Step { thread, serial };
        match action {
            Action::Read { place } => self.read(place, step),
            Action::Write { place } => self.write(place, step),
            // the slots of the object's four places
            Action::Allocate { object } => self.forget(36 * object as usize, 36),
            Action::Commit { reads, writes } => self.commit(reads, writes, step),
            _ => {}
        }
    }

    // A read begins its thread's slot of the place. There are eight threads.
    fn read(&mut self, place: u8, step: Step)
        ensures keeper { Made K.live K.meaning (looked_at step.thread place) self.old.keeper self.new.keeper }
        ensures serials { Numbered self.old.serials self.new.serials (by_read place step.thread step.serial) }
    {
        if step.thread >= THREADS {
            return;
        }
        let slot = slot_of(place, step.thread + 1);
        let _ = self.keeper.begin(slot, step.thread);
        self.serials.put(slot, step.serial);
    }

    // A write begins the place's write slot and forgets its eight read slots.
    #[inline(always)]
    fn write(&mut self, place: u8, step: Step)
        ensures keeper { Made K.live K.meaning (written step.thread place) self.old.keeper self.new.keeper }
        ensures serials { Numbered self.old.serials self.new.serials (by_write place step.serial) }
    {
        let first = slot_of(place, 0);
        let _ = self.keeper.begin(first, step.thread);
        self.serials.put(first, step.serial);
        self.forget(first + 1, 8);
    }

    // Forgets so many slots from the first on: of the keeper, and then of the serials, since a loop
    // over both writes slower.
    fn forget(&mut self, first: usize, count: usize)
        requires { (first ≤ 10000) × (count ≤ 36) }
        ensures keeper { Made K.live K.meaning (forget_from count first) self.old.keeper self.new.keeper }
        ensures serials { Emptied self.old.serials self.new.serials first count }
    {
        forget_slots(&mut self.keeper, first, count);
        self.serials.empty(first, count);
    }

    // A commit writes each place of its write set and reads each other place of its read set, the
    // lowest first.
    fn commit(&mut self, reads: PlaceSet, writes: PlaceSet, step: Step)
        ensures keeper { Made K.live K.meaning (committed 64 step.thread reads.word writes.word) self.old.keeper self.new.keeper }
        ensures serials { Numbered self.old.serials self.new.serials (by_commit reads.word writes.word step.thread step.serial) }
    {
        for place in reads.union(writes) {
            if writes.contains(place) {
                self.write(place, step);
            } else {
                self.read(place, step);
            }
        }
    }
}
