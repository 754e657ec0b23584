// Sets of places, as a transaction has two of them.
ghost use Rattle.std.specs.Prelude.{◌≡◌, ◌↔◌, [], length, IsTrue, bit_or, count_ones};
ghost use Rattle.std.specs.Iterator.{YieldsFirst, item_count};
ghost use Rattle.events.specs.Places.{member, NextPlace, with_place, places_of, places_left};

// Bit p stands for place p, and there are 64 places.
#[derive(Clone, Copy, PartialEq, Eq, Debug)]
pub struct PlaceSet {
    pub word: u64,
}

impl PlaceSet {
    pub const EMPTY: PlaceSet = PlaceSet { word: 0 };

    // The word that stands for the set.
    pub fn word(self) -> u64
        ensures { result ≡ self.word }
    {
        let word = self.word;
        word
    }

    // Whether the place is in the set; no place of 64 or more is.
    pub fn contains(self, place: u8) -> bool
        ensures { result ≡ member self.word place }
    {
        place < 64 && (self.word >> place) % 2 == 1
    }

    // How many places are in the set: the ones of its word.
    pub fn len(self) -> u32
        ensures ones { result ≡ count_ones self.word }
        ensures places { result ≡ length (places_of self) }
    {
        self.word.count_ones()
    }

    // Whether there is none.
    pub fn is_empty(self) -> bool
        ensures { IsTrue result ↔ (places_of self ≡ []) }
    {
        self.word == 0
    }

    // Puts the place into the set; one of 64 or more changes nothing.
    pub fn insert(&mut self, place: u8)
        ensures { self.new ≡ with_place self.old place }
    {
        if place < 64 {
            self.word |= 1 << place;
        }
    }

    // The places of either set.
    pub fn union(self, other: PlaceSet) -> PlaceSet
        ensures { result.word ≡ bit_or self.word other.word }
    {
        PlaceSet {
            word: self.word | other.word,
        }
    }

    // The lowest place of the set from `from` on, if there is one.
    pub fn next(self, from: u8) -> Option<u8>
        ensures { NextPlace self.word from result }
    {
        let rest = self.word.checked_shr(u32::from(from))?;
        if rest == 0 {
            return None;
        }
        Some(from + rest.trailing_zeros() as u8)
    }

    // The places of the set, lowest first.
    pub fn iter(self) -> Places
        ensures { result.set ≡ self }
    {
        Places { set: self }
    }
}

impl IntoIterator for PlaceSet {
    type Item = u8;

    type IntoIter = Places;

    ghost into_iter_gives = { λ s i. i.set ≡ s };

    fn into_iter(self) -> Places {
        self.iter()
    }
}

// The places of a set that are still to come, lowest first: it takes as many turns as there are places.
#[derive(Clone, Debug, Drop)]
pub struct Places {
    set: PlaceSet,
}

impl Iterator for Places {
    type Item = u8;

    ghost next_gives = { YieldsFirst places_left };

    ghost remaining = { item_count places_left };

    fn next(&mut self) -> Option<u8> {
        let word = self.set.word;
        if word == 0 {
            return None;
        }
        self.set.word = word & (word - 1);
        Some(word.trailing_zeros() as u8)
    }
}
