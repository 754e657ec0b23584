// The keeper that holds a set for each slot.
ghost use Rattle.std.specs.Prelude.{◌≡◌, ℕ, ◌<◌, OnErr};
ghost use Rattle.keepers.specs.Meaning.{begun, forgotten, passed, begin_answer, forget_answer, pass_answer};
ghost use Rattle.locksets.specs.Kept.{locksets_mean, no_sets, Carries};

use crate::set::LockSet;
use keepers::{Keeper, KeeperFault, SLOTS, check_ask, check_begin, check_forget, check_pass};

#[derive(Drop)]
pub struct Locksets {
    sets: [LockSet; SLOTS],
    passes: u32,
}

impl Locksets {
    pub fn new() -> Locksets
        ensures { result ≡ no_sets }
    {
        Locksets {
            sets: [LockSet::empty(); SLOTS],
            passes: 0,
        }
    }

    // Does a pass to the set of every slot.
    #[tactic(auto, using(crate::proofs::Means::carried_more, crate::proofs::Means::rest_more))]
    fn carry_all(&mut self, from: u8, to: u8)
        ensures sets { (s : ℕ) → s < 576 → Carries self.old.sets self.new.sets from to s }
        ensures passes { self.new.passes ≡ self.old.passes }
    {
        for set in &mut self.sets {
            set.carry(from, to);
        }
    }
}

// Any value means what it holds, so a lockset keeper is lawful from the start. One frame over any table
// would be no plainer: each call is a check, a write and a count, and a trait of tables would carry as
// many laws as this interface.
//
// `effect` and `answer` are the interface's clauses, without its premise, since a lockset keeper always lives. The
// interface promises of a refused call that the meaning stays; here the value does.
impl Keeper for Locksets {
    ghost meaning = { locksets_mean };

    ghost live = { λ _. Unit {0} };

    #[tactic(auto, using(crate::proofs::Means::means_cleared))]
    fn clear(&mut self) {
        *self = Locksets::new();
    }

    #[tactic(auto, using(keepers::proofs::Laws::begun_refused, crate::proofs::Means::means_begun))]
    fn begin(&mut self, slot: usize, thread: u8) -> Result<(), KeeperFault>
        ensures effect { locksets_mean self.new ≡ begun (locksets_mean self.old) slot thread }
        ensures answer { result ≡ begin_answer slot thread }
        ensures unchanged { OnErr result (self.new ≡ self.old) }
    {
        check_begin(slot, thread)?;
        self.sets[slot] = LockSet::only(thread);
        Ok(())
    }

    #[tactic(auto, using(keepers::proofs::Laws::forgotten_refused, crate::proofs::Means::means_forgotten))]
    fn forget(&mut self, slot: usize) -> Result<(), KeeperFault>
        ensures effect { locksets_mean self.new ≡ forgotten (locksets_mean self.old) slot }
        ensures answer { result ≡ forget_answer slot }
        ensures unchanged { OnErr result (self.new ≡ self.old) }
    {
        check_forget(slot)?;
        self.sets[slot] = LockSet::empty();
        Ok(())
    }

    #[tactic(auto, using(crate::proofs::Means::pass_answered, crate::proofs::Means::pass_refused, crate::proofs::Means::means_passed))]
    fn pass(&mut self, from: u8, to: u8) -> Result<(), KeeperFault>
        ensures effect { locksets_mean self.new ≡ passed (locksets_mean self.old) from to }
        ensures answer { result ≡ pass_answer (locksets_mean self.old) from to }
        ensures unchanged { OnErr result (self.new ≡ self.old) }
    {
        check_pass(self.passes, from, to)?;
        self.carry_all(from, to);
        self.passes += 1;
        Ok(())
    }

    #[tactic(auto, using(crate::proofs::Means::means_asked), unfolding(keepers::specs::Meaning::ask_answer))]
    fn ask(&self, slot: usize, holder: u8) -> Result<bool, KeeperFault> {
        check_ask(slot, holder)?;
        Ok(self.sets[slot].contains(holder))
    }

    #[tactic(auto, unfolding(crate::specs::Kept::locksets_mean))]
    fn count(&self) -> u32 {
        self.passes
    }
}
