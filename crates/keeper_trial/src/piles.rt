// One keeper of every kind: the two engines, the layer over each, and a layer over a layer.
ghost use Rattle.std.specs.Prelude.{◌≡◌, IfOk, OnOk};
ghost use Rattle.clocks.specs.Kept.{clocks_mean};
ghost use Rattle.keepers.specs.Calls.{answers_to, after_all};
ghost use Rattle.keepers.specs.Meaning.{cleared};
ghost use Rattle.locksets.specs.Kept.{locksets_mean};

use clocks::Clocks;
use keepers::{HOLDERS, Keeper, KeeperAnswer, KeeperCall, SLOTS, alike, drive};
use locksets::Locksets;
use shortcut::ShortCut;
use std::alloc::{AllocError, Global};

#[derive(Drop)]
pub struct Piles {
    locksets: Locksets,
    clocks: Clocks,
    over_locksets: ShortCut<Locksets>,
    over_clocks: ShortCut<Clocks>,
    twice: ShortCut<ShortCut<Clocks>>,
}

// What each answered to the same calls.
#[derive(Drop)]
pub struct PileAnswers {
    pub locksets: Vec<KeeperAnswer>,
    pub clocks: Vec<KeeperAnswer>,
    pub over_locksets: Vec<KeeperAnswer>,
    pub over_clocks: Vec<KeeperAnswer>,
    pub twice: Vec<KeeperAnswer>,
}

impl Piles {
    pub(crate) fn new() -> Piles {
        Piles {
            locksets: Locksets::new(),
            clocks: Clocks::new(),
            over_locksets: ShortCut::new(Locksets::new()),
            over_clocks: ShortCut::new(Clocks::new()),
            twice: ShortCut::new(ShortCut::new(Clocks::new())),
        }
    }

    // Clears each and gives it the calls: all answer alike, and end with the same sets and count.
    pub(crate) fn drive_all(
        &mut self,
        heap: Global,
        calls: &[KeeperCall],
    ) -> Result<PileAnswers, AllocError>
        ensures locksets { IfOk result (λ p. p.locksets.items ≡ answers_to cleared calls.now) }
        ensures clocks { IfOk result (λ p. p.clocks.items ≡ p.locksets.items) }
        ensures over_locksets { IfOk result (λ p. p.over_locksets.items ≡ p.locksets.items) }
        ensures over_clocks { IfOk result (λ p. p.over_clocks.items ≡ p.locksets.items) }
        ensures twice { IfOk result (λ p. p.twice.items ≡ p.locksets.items) }
        ensures sets { OnOk result (locksets_mean self.new.locksets ≡ after_all cleared calls.now) }
        ensures clock_sets { OnOk result (clocks_mean self.new.clocks ≡ locksets_mean self.new.locksets) }
        ensures layer_sets { OnOk result (locksets_mean self.new.over_locksets.below ≡ after_all cleared calls.now) }
        ensures clock_layer_sets { OnOk result (clocks_mean self.new.over_clocks.below ≡ after_all cleared calls.now) }
        ensures twice_sets { OnOk result (clocks_mean self.new.twice.below.below ≡ after_all cleared calls.now) }
    {
        let plain = alike(heap, &mut self.locksets, &mut self.clocks, calls)?;
        let layers = alike(heap, &mut self.over_locksets, &mut self.over_clocks, calls)?;
        let twice = drive(heap, &mut self.twice, calls)?;
        Ok(PileAnswers {
            locksets: plain.first,
            clocks: plain.second,
            over_locksets: layers.first,
            over_clocks: layers.second,
            twice,
        })
    }

    // Whether all answer alike to one question.
    fn agree(&self, slot: usize, holder: u8) -> bool {
        let expected = self.locksets.ask(slot, holder);
        [
            self.clocks.ask(slot, holder),
            self.over_locksets.ask(slot, holder),
            self.over_clocks.ask(slot, holder),
            self.twice.ask(slot, holder),
        ]
        .iter()
        .all(|answer| *answer == expected)
    }

    // How many holders the sets have together.
    pub(crate) fn members(&self) -> usize {
        how_many(|slot, holder| self.locksets.ask(slot, holder) == Ok(true))
    }

    // How many questions are answered differently.
    pub(crate) fn disagreements(&self) -> usize {
        how_many(|slot, holder| !self.agree(slot, holder))
    }
}

// Over every holder of every slot, and the first past each range: how many pass the test.
fn how_many<F: Fn(usize, u8) -> bool>(test: F) -> usize
    requires { F.IsAlwaysCallable test }
{
    (0..=SLOTS)
        .map(|slot| (0..=HOLDERS).filter(|holder| test(slot, *holder)).count())
        .fold(0, usize::saturating_add)
}
