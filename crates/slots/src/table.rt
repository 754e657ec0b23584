// The slots over a keeper.
ghost use Rattle.std.specs.Prelude.{◌≡◌, ℕ, ◌+◌, ◌*◌, ◌&&◌, if◌then◌else◌, None, nat_lt};
ghost use Rattle.keepers.specs.Meaning.{cleared};
ghost use Rattle.order.specs.Questions.{cell_told};
ghost use Rattle.slots.specs.Made.{set_at};
ghost use Rattle.slots.specs.Serials.{serial_at};
ghost use Rattle.slots.specs.Told.{told_as};

use crate::serials::Serials;
use keepers::{Keeper, THREADS};

// The number of slot k of a place, as the rules have it.
#[inline(always)]
pub(crate) fn slot_of(place: u8, k: u8) -> usize
    ensures { result ≡ 9 * place + k }
{
    9 * place as usize + k as usize
}

// The keeper has the set of each slot, the table the serial of its access.
#[derive(Drop)]
pub struct Slots<K: Keeper> {
    pub(crate) keeper: K,
    pub(crate) serials: Serials,
    // the keeper has been cleared
    ghost lives: { ∥ K.live keeper ∥₁ },
}

// What is told of a slot that is not empty.
#[derive(Clone, Copy)]
pub struct Told {
    // the serial of its access
    pub serial: u32,
    // whether that has reached the thread
    pub reached: bool,
}

impl<K: Keeper> Slots<K> {
    // Clears the keeper; every slot is empty.
    pub fn start(mut keeper: K) -> Slots<K>
        ensures lives { K.live result.keeper }
        ensures keeper { K.meaning result.keeper ≡ cleared }
        ensures serials { (p k : ℕ) → serial_at result.serials p k ≡ 0 }
    {
        keeper.clear();
        Slots {
            keeper,
            serials: Serials::new(),
        }
    }

    // Hands the keeper back.
    pub fn into_keeper(self) -> K
        ensures { result ≡ self.keeper }
    {
        let Slots { keeper, serials: _ } = self;
        keeper
    }

    // What is told of slot k of a place: 0 for its write, t + 1 for thread t's read; and whether
    // that access has reached the thread. Nothing is told of what is out of range. The slot is a
    // number since the rules number a place's slots; the monitor's `Access` is made of that.
    pub fn tell(&self, place: u8, slot: u8, thread: u8) -> Option<Told>
        ensures { told_as result ≡ (if nat_lt place 64 && (nat_lt slot 9 && nat_lt thread 8) then cell_told (serial_at self.now.serials place slot) (set_at (K.meaning self.now.keeper) place slot) thread else None) }
    {
        if place >= 64 || slot >= 9 || thread >= THREADS {
            return None;
        }
        let at = slot_of(place, slot);
        let serial = self.serials.at(at)?;
        let reached = self.holds(at, thread);
        Some(Told { serial, reached })
    }
}
