// The keeper over clock vectors.
ghost use Rattle.std.specs.Prelude.{◌≡◌, ℕ, ◌<◌, if◌then◌else◌, nat_eq, OnErr};
ghost use Rattle.keepers.specs.Meaning.{begun, forgotten, passed, begin_answer, forget_answer, pass_answer};
ghost use Rattle.clocks.specs.Vectors.{heard_of};
ghost use Rattle.clocks.specs.Kept.{clock_at, moved, clocks_mean, Running, Started};

use crate::vector::{ClockVector, Epoch};
use keepers::{
    HOLDERS, Keeper, KeeperFault, SLOTS, THREADS, check_ask, check_begin, check_forget, check_pass,
};

// As many as there are holders.
const CLOCKS: usize = HOLDERS as usize;

#[derive(Drop)]
pub struct Clocks {
    clocks: [ClockVector; CLOCKS],
    epochs: [Option<Epoch>; SLOTS],
    passes: u32,
}

// Each thread's own count is 1 and every other count 0, so that nobody has heard of what a thread
// is about to do. Of the holders the threads come first.
fn first_clocks() -> [ClockVector; CLOCKS]
    ensures { (h t : ℕ) → h < 136 → t < 8 → heard_of result h t ≡ (if nat_eq h t then 1 else 0) }
{
    let mut clocks = [ClockVector::zero(); CLOCKS];
    for (thread, clock) in clocks[..THREADS as usize].iter_mut().enumerate() {
        clock.tick(thread as u8);
    }
    clocks
}

impl Clocks {
    pub fn new() -> Clocks
        ensures { Started result }
    {
        Clocks {
            clocks: first_clocks(),
            epochs: [None; SLOTS],
            passes: 0,
        }
    }

    // After a hand-over the thread's clock moves on, or its next access would seem handed over too.
    // No count outgrows the count of passes by more than one, so none runs out before the limit.
    #[tactic(auto, using(crate::proofs::Starts::moved_set))]
    fn hand_over(&mut self, from: u8, to: u8)
        requires from { from < 136 }
        requires to { to < 136 }
        ensures clocks { (h t : ℕ) → h < 136 → t < 8 → clock_at self.new h t ≡ moved (clock_at self.old) from to h t }
        ensures epochs { self.new.epochs ≡ self.old.epochs }
        ensures passes { self.new.passes ≡ self.old.passes }
    {
        let heard = self.clocks[from as usize];
        self.clocks[to as usize].join(&heard);
        self.clocks[from as usize].tick(from);
    }
}

// While live, a thread's own count is ahead of what every other holder has heard of it. As a ghost
// field this would be no plainer: it stands in no contract here but by `live`, which the trait asks for.
// One frame over any table would be no plainer: each call is a check, a write and a count, and a trait of
// tables would carry as many laws as this interface.
//
// `lives`, `effect` and `answer` are the interface's clauses. The interface promises of a refused call that the
// meaning stays; here the value does, also before the first clear.
impl Keeper for Clocks {
    ghost meaning = { clocks_mean };

    ghost live = { Running };

    #[tactic(auto, using(crate::proofs::Means::runs_started, crate::proofs::Means::means_started))]
    fn clear(&mut self) {
        *self = Clocks::new();
    }

    #[tactic(auto, using(keepers::proofs::Laws::begun_refused, crate::proofs::Means::runs_begun, crate::proofs::Means::means_begun))]
    fn begin(&mut self, slot: usize, thread: u8) -> Result<(), KeeperFault>
        ensures lives { Running self.old → Running self.new }
        ensures effect { Running self.old → clocks_mean self.new ≡ begun (clocks_mean self.old) slot thread }
        ensures answer { Running self.old → result ≡ begin_answer slot thread }
        ensures unchanged { OnErr result (self.new ≡ self.old) }
    {
        check_begin(slot, thread)?;
        let count = self.clocks[thread as usize].count(thread);
        self.epochs[slot] = Some(Epoch { thread, count });
        Ok(())
    }

    #[tactic(auto, using(keepers::proofs::Laws::forgotten_refused, crate::proofs::Means::runs_forgotten, crate::proofs::Means::means_forgotten))]
    fn forget(&mut self, slot: usize) -> Result<(), KeeperFault>
        ensures lives { Running self.old → Running self.new }
        ensures effect { Running self.old → clocks_mean self.new ≡ forgotten (clocks_mean self.old) slot }
        ensures answer { Running self.old → result ≡ forget_answer slot }
        ensures unchanged { OnErr result (self.new ≡ self.old) }
    {
        check_forget(slot)?;
        self.epochs[slot] = None;
        Ok(())
    }

    #[tactic(auto, using(crate::proofs::Means::pass_answered, crate::proofs::Means::pass_refused, crate::proofs::Means::runs_passed, crate::proofs::Means::means_passed))]
    fn pass(&mut self, from: u8, to: u8) -> Result<(), KeeperFault>
        ensures lives { Running self.old → Running self.new }
        ensures effect { Running self.old → clocks_mean self.new ≡ passed (clocks_mean self.old) from to }
        ensures answer { Running self.old → result ≡ pass_answer (clocks_mean self.old) from to }
        ensures unchanged { OnErr result (self.new ≡ self.old) }
    {
        check_pass(self.passes, from, to)?;
        self.hand_over(from, to);
        self.passes += 1;
        Ok(())
    }

    #[tactic(auto, using(crate::proofs::Means::means_asked), unfolding(keepers::specs::Meaning::ask_answer))]
    fn ask(&self, slot: usize, holder: u8) -> Result<bool, KeeperFault> {
        check_ask(slot, holder)?;
        let clock = &self.clocks[holder as usize];
        Ok(self.epochs[slot].is_some_and(|epoch| clock.reaches(epoch)))
    }

    #[tactic(auto, unfolding(crate::specs::Kept::clocks_mean))]
    fn count(&self) -> u32 {
        self.passes
    }
}
