// What is asked of the keeper: whether the access of a slot has reached a holder, and how many passes there were.
ghost use Rattle.std.specs.Prelude.{◌≡◌};
ghost use Rattle.slots.specs.Made.{held};

use crate::table::Slots;
use keepers::Keeper;

impl<K: Keeper> Slots<K> {
    // Whether the holder is in the slot's set. Neither is out of range there.
    pub(crate) fn holds(&self, slot: usize, holder: u8) -> bool
        ensures { result ≡ held (K.meaning self.now.keeper) slot holder }
    {
        self.keeper.ask(slot, holder).unwrap_or(false)
    }

    // How many passes the keeper has counted.
    pub fn passes(&self) -> u32
        ensures { result ≡ (K.meaning self.now.keeper).passes }
    {
        self.keeper.count()
    }
}
