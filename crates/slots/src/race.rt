// The search for a race: the lowest place at which an event meets an access that has not reached it.
ghost use Rattle.std.specs.Prelude.{◌≡◌, ℕ, false};
ghost use Rattle.events.specs.Places.{member};
ghost use Rattle.order.specs.Acts.{touches};
ghost use Rattle.order.specs.Cells.{arrived, some_in, cell_read, cell_witness, cell_race};
ghost use Rattle.order.specs.Cells.{pending as pending_in};
ghost use Rattle.order.specs.Judgement.{found};
ghost use Rattle.order.specs.Searches.{or_else};
ghost use Rattle.order.specs.Slots.{taken};
ghost use Rattle.slots.specs.Made.{held, held_at};
ghost use Rattle.slots.specs.Searched.{serials_of, sets_of};
ghost use Rattle.slots.specs.Serials.{number_at, serial_at};
ghost use Rattle.slots.specs.Told.{found_as};

use crate::acts::{reads_place, writes_place};
use crate::holders::Holders;
use crate::table::{Slots, slot_of};
use events::{Action, Event, PlaceSet};
use keepers::Keeper;

// The lowest place at which an event races, and the serial of what it races with there.
#[derive(Clone, Copy)]
pub struct Racing {
    pub place: u8,
    pub witness: u32,
}

impl<K: Keeper> Slots<K> {
    // The race that the event would make, if any. A read or a write has one place, a commit those
    // of its sets, any other event none. Any event is answered, whatever its numbers: a place out of
    // range has no access, and a holder out of range is in no set.
    pub fn race(&self, event: Event) -> Option<Racing>
        ensures { found_as result ≡ cell_race event (serial_at self.now.serials) (held_at (K.meaning self.now.keeper)) }
    {
        match event.action {
            Action::Read { place } | Action::Write { place } => {
                let search = Search { slots: self, event };
                search.race_at(place)
            }
            Action::Commit { reads, writes } => {
                let search = Search { slots: self, event };
                search.lowest_race(reads.union(writes))
            }
            _ => None,
        }
    }
}

// The search for what an event races with. Its steps are inlined where they are taken, since a
// write takes nine of them; but few accesses get as far as `brought`, so that it stays a call.
#[derive_where(Clone, Copy)]
struct Search<'a, K: Keeper> {
    slots: &'a Slots<K>,
    event: Event,
}

impl<K: Keeper> Search<'_, K> {
    // The race at the lowest of the places that has one, where the event touches no other.
    fn lowest_race(&self, places: PlaceSet) -> Option<Racing>
        ensures { ((p : ℕ) → member places.word p ≡ false → touches self.now.event p ≡ false) → found_as result ≡ cell_race self.now.event (serials_of self.now) (sets_of self.now) }
    {
        places.iter().find_map(|place| self.race_at(place))
    }

    // The race at the place.
    #[inline(always)]
    fn race_at(&self, place: u8) -> Option<Racing>
        ensures { found_as result ≡ found place (cell_witness self.now.event place (serials_of self.now place) (sets_of self.now place)) }
    {
        let witness = self.witness(place)?;
        Some(Racing { place, witness })
    }

    // The serial of what the event races with at the place. A place that it does not access has none.
    #[inline(always)]
    fn witness(&self, place: u8) -> Option<u32>
        ensures { result ≡ cell_witness self.now.event place (serials_of self.now place) (sets_of self.now place) }
    {
        if writes_place(self.event, place) {
            self.pending_any(place)
        } else if reads_place(self.event, place) {
            self.pending(slot_of(place, 0))
        } else {
            None
        }
    }

    // What a write races with: the place's write, if that has not reached the event, otherwise the
    // read by the lowest thread that has not. The slots are in that order.
    #[inline(always)]
    fn pending_any(&self, place: u8) -> Option<u32>
        ensures { result ≡ or_else (pending_in self.now.event (serials_of self.now place 0) (sets_of self.now place 0)) (cell_read self.now.event (serials_of self.now place) (sets_of self.now place)) }
    {
        let first = slot_of(place, 0);
        (first..first + 9).find_map(|slot| self.pending(slot))
    }

    // The serial of the slot's access, unless there is none or it has reached the event.
    #[inline(always)]
    fn pending(&self, slot: usize) -> Option<u32>
        ensures { result ≡ pending_in self.now.event (number_at self.now.slots.now.serials slot) (held (K.meaning self.now.slots.now.keeper) slot) }
    {
        let serial = self.slots.serials.at(slot)?;
        (!self.reached(slot)).then_some(serial)
    }

    // Whether the thread of the event, or one from whom the event takes, is in the slot's set.
    #[inline(always)]
    fn reached(&self, slot: usize) -> bool
        ensures { result ≡ arrived self.now.event (held (K.meaning self.now.slots.now.keeper) slot) }
    {
        self.slots.holds(slot, self.event.thread) || self.brought(slot)
    }

    // Whether one from whom the event takes is in the slot's set.
    #[inline(never)]
    fn brought(&self, slot: usize) -> bool
        ensures { result ≡ some_in (taken self.now.event.action) (held (K.meaning self.now.slots.now.keeper) slot) }
    {
        Holders::takes_from(self.event.action).any(|holder| self.slots.holds(slot, holder))
    }
}
