// With whom an event shares what has reached its thread.
ghost use Rattle.std.specs.Prelude.{◌≡◌, ◌∷◌, []};
ghost use Rattle.std.specs.Iterator.{YieldsFirst, item_count};
ghost use Rattle.order.specs.Slots.{taken, given, place_holders};
ghost use Rattle.slots.specs.HoldersLeft.{holders_left, capped};

use events::{Action, PlaceSet, Places};

// The holders from which, or to which, an event passes beside its thread, lowest first: at most
// one, or those of the places of a set. The locks are the holders from 8 on, the flags those from
// 40 on and the places those from 72 on.
#[derive(Drop)]
pub struct Holders {
    one: Option<u8>,
    places: Places,
}

impl Holders {
    // From whom the event takes: the lock that it acquires, the flag that it reads, the thread
    // that it joins, the places that it commits. A number past a byte's end is no holder either way.
    pub(crate) fn takes_from(action: Action) -> Holders
        ensures { holders_left result ≡ capped (taken action) }
    {
        match action {
            Action::Acquire { lock } => Holders::one(lock.saturating_add(8)),
            Action::ReadFlag { flag } => Holders::one(flag.saturating_add(40)),
            Action::Join { child } => Holders::one(child),
            Action::Commit { reads, writes } => Holders::of_places(reads, writes),
            _ => Holders::nobody(),
        }
    }

    // To whom it gives: the lock that it releases, the flag that it writes, the thread that it
    // forks, the places that it commits.
    pub(crate) fn gives_to(action: Action) -> Holders
        ensures { holders_left result ≡ capped (given action) }
    {
        match action {
            Action::Release { lock } => Holders::one(lock.saturating_add(8)),
            Action::WriteFlag { flag } => Holders::one(flag.saturating_add(40)),
            Action::Fork { child } => Holders::one(child),
            Action::Commit { reads, writes } => Holders::of_places(reads, writes),
            _ => Holders::nobody(),
        }
    }

    fn nobody() -> Holders
        ensures { holders_left result ≡ [] }
    {
        Holders {
            one: None,
            places: PlaceSet::EMPTY.iter(),
        }
    }

    fn one(holder: u8) -> Holders
        ensures { holders_left result ≡ holder ∷ [] }
    {
        Holders {
            one: Some(holder),
            places: PlaceSet::EMPTY.iter(),
        }
    }

    fn of_places(reads: PlaceSet, writes: PlaceSet) -> Holders
        ensures { holders_left result ≡ place_holders reads.word writes.word }
    {
        Holders {
            one: None,
            places: reads.union(writes).iter(),
        }
    }
}

impl Iterator for Holders {
    type Item = u8;

    ghost next_gives = { YieldsFirst holders_left };

    ghost remaining = { item_count holders_left };

    fn next(&mut self) -> Option<u8> {
        if let Some(holder) = self.one.take() {
            return Some(holder);
        }
        let place = self.places.next()?;
        Some(72 + place)
    }
}
