// Which thread began each slot, as far as it is remembered.
ghost use Rattle.std.specs.Prelude.{◌≡◌, Some, None};
ghost use Rattle.shortcut.specs.Owners.{owner_at, Remembers, no_owners};

use keepers::SLOTS;

#[derive(Drop)]
pub(crate) struct OwnerTable {
    owners: [Option<u8>; SLOTS],
}

impl OwnerTable {
    pub fn new() -> OwnerTable
        ensures { result ≡ no_owners }
    {
        OwnerTable {
            owners: [None; SLOTS],
        }
    }

    // The thread that began the slot; none is remembered out of range.
    pub fn owner(&self, slot: usize) -> Option<u8>
        ensures { result ≡ owner_at self.now slot }
    {
        self.owners.get(slot).copied().flatten()
    }

    // Writes what is remembered of the slot, if it is in range. By index, since `get_mut` leaves a
    // proof nothing of the other owners.
    fn write(&mut self, slot: usize, owner: Option<u8>)
        ensures { Remembers self.old self.new slot owner }
    {
        if slot < SLOTS {
            self.owners[slot] = owner;
        }
    }

    // Remembers who began the slot, if it is in range. Two promises, this and `forget`, and one private
    // function does the work of both.
    pub fn remember(&mut self, slot: usize, thread: u8)
        ensures { Remembers self.old self.new slot (Some thread) }
    {
        self.write(slot, Some(thread));
    }

    // Remembers nobody for the slot.
    pub fn forget(&mut self, slot: usize)
        ensures { Remembers self.old self.new slot None }
    {
        self.write(slot, None);
    }

    // Remembers nobody at all.
    pub fn clear(&mut self)
        ensures { self.new ≡ no_owners }
    {
        *self = OwnerTable::new();
    }
}
