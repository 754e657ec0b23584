// The layer over a keeper.
ghost use Rattle.std.specs.Prelude.{◌≡◌, ◌⊎◌, true, Some, None, Ok, IfOk, OnErr, OnOk};
ghost use Rattle.shortcut.specs.Owners.{Owned, Remembers, no_owners, owner_at};
ghost use Rattle.keepers.specs.Calls.{answers_to, after_all};
ghost use Rattle.keepers.specs.Meaning.{cleared, begun, forgotten, passed};
ghost use Rattle.keepers.specs.Meaning.{begin_answer, forget_answer, pass_answer, ask_answer};

use crate::owners::OwnerTable;
use keepers::{BothAnswers, Keeper, KeeperCall, KeeperFault, alike};
use std::alloc::{AllocError, Global};

// The keeper below holds the sets; the table only saves questions to it.
#[derive(Drop)]
pub struct ShortCut<K> {
    below: K,
    owners: OwnerTable,
}

impl<K: Keeper> ShortCut<K> {
    pub fn new(below: K) -> ShortCut<K>
        ensures below { result.below ≡ below }
        ensures owners { result.owners ≡ no_owners }
    {
        ShortCut {
            below,
            owners: OwnerTable::new(),
        }
    }
}

// The meaning is that of the keeper below. While live, every remembered owner is in its slot's set.
// `new` does not clear the keeper below, so neither is a fact of the type.
//
// `lives`, `effect` and `answer` are the interface's clauses. The others are the layer's own: they speak of its
// table, and hold whether the keeper below has been cleared or not.
//
// A refused call leaves the table as it was; of the keeper below, known by its interface, the meaning alone.
impl<K: Keeper> Keeper for ShortCut<K> {
    ghost meaning = { λ k. K.meaning k.below };

    ghost live = { λ k. K.live k.below × Owned (K.meaning k.below) k.owners };

    #[tactic(auto, using(crate::proofs::Agree::owned_none))]
    fn clear(&mut self)
        ensures lives { ⟦<Self as Keeper>⟧.live self.new }
        ensures effect { K.meaning self.new.below ≡ cleared }
        ensures owners { self.new.owners ≡ no_owners }
    {
        self.below.clear();
        self.owners.clear();
    }

    #[tactic(auto, using(crate::proofs::Agree::agree_begun))]
    fn begin(&mut self, slot: usize, thread: u8) -> Result<(), KeeperFault>
        ensures lives { ⟦<Self as Keeper>⟧.live self.old → ⟦<Self as Keeper>⟧.live self.new }
        ensures effect { ⟦<Self as Keeper>⟧.live self.old
            → K.meaning self.new.below ≡ begun (K.meaning self.old.below) slot thread }
        ensures answer { ⟦<Self as Keeper>⟧.live self.old → result ≡ begin_answer slot thread }
        ensures owners { OnOk result (Remembers self.old.owners self.new.owners slot (Some thread)) }
        ensures unchanged { OnErr result (self.new.owners ≡ self.old.owners) }
    {
        self.below.begin(slot, thread)?;
        self.owners.remember(slot, thread);
        Ok(())
    }

    #[tactic(auto, using(crate::proofs::Agree::agree_forgotten))]
    fn forget(&mut self, slot: usize) -> Result<(), KeeperFault>
        ensures lives { ⟦<Self as Keeper>⟧.live self.old → ⟦<Self as Keeper>⟧.live self.new }
        ensures effect { ⟦<Self as Keeper>⟧.live self.old
            → K.meaning self.new.below ≡ forgotten (K.meaning self.old.below) slot }
        ensures answer { ⟦<Self as Keeper>⟧.live self.old → result ≡ forget_answer slot }
        ensures owners { OnOk result (Remembers self.old.owners self.new.owners slot None) }
        ensures unchanged { OnErr result (self.new.owners ≡ self.old.owners) }
    {
        self.below.forget(slot)?;
        self.owners.forget(slot);
        Ok(())
    }

    // A pass takes nobody out of a set, so every owner stays.
    #[tactic(auto, using(crate::proofs::Agree::agree_passed))]
    fn pass(&mut self, from: u8, to: u8) -> Result<(), KeeperFault>
        ensures lives { ⟦<Self as Keeper>⟧.live self.old → ⟦<Self as Keeper>⟧.live self.new }
        ensures effect { ⟦<Self as Keeper>⟧.live self.old
            → K.meaning self.new.below ≡ passed (K.meaning self.old.below) from to }
        ensures answer { ⟦<Self as Keeper>⟧.live self.old → result ≡ pass_answer (K.meaning self.old.below) from to }
        ensures owners { self.new.owners ≡ self.old.owners }
    {
        self.below.pass(from, to)
    }

    // Says yes to the owner without asking below. No answer from below would do for `owner`: of a keeper that
    // was never cleared nothing is promised.
    #[tactic(auto, using(crate::proofs::Agree::owner_answered))]
    fn ask(&self, slot: usize, holder: u8) -> Result<bool, KeeperFault>
        ensures answer { ⟦<Self as Keeper>⟧.live self.now → result ≡ ask_answer (K.meaning self.now.below) slot holder }
        ensures owner { owner_at self.now.owners slot ≡ Some holder → result ≡ Ok true }
    {
        if self.owners.owner(slot) == Some(holder) {
            return Ok(true);
        }
        self.below.ask(slot, holder)
    }

    fn count(&self) -> u32 {
        self.below.count()
    }
}

// A keeper of any type and a layer over one answer alike; with a layer for K, so does a pile. One
// call of `alike`: this is the law of layers as a function, which its contract states.
pub fn layer_alike<K: Keeper>(
    heap: Global,
    plain: &mut K,
    layered: &mut ShortCut<K>,
    calls: &[KeeperCall],
) -> Result<BothAnswers, AllocError>
    ensures same { IfOk result (λ both. both.first.items ≡ both.second.items) }
    ensures answers { IfOk result (λ both. both.first.items ≡ answers_to cleared calls.now) }
    ensures ends { OnOk result (K.meaning plain.new ≡ K.meaning layered.new.below) }
    ensures effect { OnOk result (K.meaning plain.new ≡ after_all cleared calls.now) }
    ensures lives { OnOk result (K.live plain.new × ⟦<ShortCut<K> as Keeper>⟧.live layered.new) }
    ensures first { OnErr result ((plain.new ≡ plain.old) ⊎ (K.live plain.new × (K.meaning plain.new ≡ after_all cleared calls.now))) }
    ensures second { OnErr result (layered.new ≡ layered.old) }
{
    alike(heap, plain, layered, calls)
}
