// The serial of each slot's access.
ghost use Rattle.std.specs.Prelude.{◌≡◌, ℕ, ◌≤◌, ◌&&◌, if◌then◌else◌, ◌==◌};
ghost use Rattle.keepers.specs.Meaning.{is_slot};
ghost use Rattle.slots.specs.Serials.{Emptied, number_at, some_serial};

use keepers::SLOTS;

#[derive(Drop)]
pub struct Serials {
    // 0 where the slot is empty, as in the theory: a row of `Option`s would take twice the memory,
    // and `put` would have to tell 0 apart
    numbers: [u32; SLOTS],
}

impl Serials {
    // Every slot is empty.
    pub(crate) fn new() -> Serials
        ensures { (s : ℕ) → number_at result s ≡ 0 }
    {
        Serials {
            numbers: [0; SLOTS],
        }
    }

    // The serial of the slot's access; a slot that is empty or out of range has none.
    pub(crate) fn at(&self, slot: usize) -> Option<u32>
        ensures { result ≡ some_serial (number_at self.now slot) }
    {
        let serial = *self.numbers.get(slot)?;
        (serial != 0).then_some(serial)
    }

    // Writes the slot's serial, if the slot is in range.
    pub(crate) fn put(&mut self, slot: usize, serial: u32)
        ensures { (s : ℕ) → number_at self.new s ≡ (if is_slot slot && s == slot then serial else number_at self.old s) }
    {
        // by index, since after a `get_mut` a proof knows none of the array's numbers
        if slot < SLOTS {
            self.numbers[slot] = serial;
        }
    }
    // Empties so many slots from the first on.
    pub(crate) fn empty(&mut self, first: usize, count: usize)
        requires { (first ≤ 10000) × (count ≤ 36) }
        ensures { Emptied self.old self.new first count }
    {
        for slot in first..first + count {
            self.put(slot, 0);
        }
    }
}
