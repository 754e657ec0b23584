// What a keeper promises: each call's answer, and what it does to the keeper's meaning.
//
// A slot is a `usize`, so that it indexes a table as it stands; holders and threads are `u8`. Each
// type reaches past the range of its argument, and every call is total: what is out of range is
// refused.
ghost use Rattle.std.specs.Prelude.{◌≡◌};
ghost use Rattle.keepers.specs.Meaning.{Meaning, cleared, begun, forgotten, passed};
ghost use Rattle.keepers.specs.Meaning.{begin_answer, forget_answer, pass_answer, ask_answer};

use crate::fault::KeeperFault;

// A type that implements this is lawful. Nothing is promised of a keeper that was never cleared, and
// a layer may be made over such a one: so `live` stands in the clauses and in no keeper's type.
// A refused call leaves the meaning as it was; what it leaves of the value, each keeper's own clauses say.
pub trait Keeper {
    // the set of each slot, and the count of passes
    ghost meaning: { Self → Meaning };

    // it has been cleared
    ghost live: { Self → Type 0 };

    // Empties every set and sets the count to 0, whatever went before.
    fn clear(&mut self)
        ensures lives { live self.new }
        ensures effect { meaning self.new ≡ cleared };

    // Makes the slot's set just the thread.
    fn begin(&mut self, slot: usize, thread: u8) -> Result<(), KeeperFault>
        ensures lives { live self.old → live self.new }
        ensures effect { live self.old → meaning self.new ≡ begun (meaning self.old) slot thread }
        ensures answer { live self.old → result ≡ begin_answer slot thread };

    // Empties the slot's set.
    fn forget(&mut self, slot: usize) -> Result<(), KeeperFault>
        ensures lives { live self.old → live self.new }
        ensures effect { live self.old → meaning self.new ≡ forgotten (meaning self.old) slot }
        ensures answer { live self.old → result ≡ forget_answer slot };

    // Adds the second holder to every set that has the first, and counts one.
    fn pass(&mut self, from: u8, to: u8) -> Result<(), KeeperFault>
        ensures lives { live self.old → live self.new }
        ensures effect { live self.old → meaning self.new ≡ passed (meaning self.old) from to }
        ensures answer { live self.old → result ≡ pass_answer (meaning self.old) from to };

    // Whether the holder is in the slot's set.
    fn ask(&self, slot: usize, holder: u8) -> Result<bool, KeeperFault>
        ensures answer { live self.now → result ≡ ask_answer (meaning self.now) slot holder };

    // The count of passes.
    fn count(&self) -> u32
        ensures answer { live self.now → result ≡ (meaning self.now).passes };
}
