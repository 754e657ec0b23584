// What a list of calls comes to on any keeper, and that two keepers cannot be told apart.
ghost use Rattle.std.specs.Prelude.{◌≡◌, ◌≤◌, ◌⊎◌, IfOk, OnErr, OnOk};
ghost use Rattle.keepers.specs.Meaning.{cleared};
ghost use Rattle.keepers.specs.Calls.{answers_to, after_all};

use crate::calls::{KeeperAnswer, KeeperCall};
use crate::keeper::Keeper;
use std::alloc::{AllocError, Global};

// Clears the keeper and makes the calls in order. Room for the answers is found first: where there
// is none, the keeper is not touched.
#[tactic(auto, using(crate::proofs::Driven::driven))]
pub fn drive<K: Keeper>(
    heap: Global,
    keeper: &mut K,
    calls: &[KeeperCall],
) -> Result<Vec<KeeperAnswer>, AllocError>
    ensures lives { OnOk result (K.live keeper.new) }
    ensures answers { IfOk result (λ v. v.items ≡ answers_to cleared calls.now) }
    ensures effect { OnOk result (K.meaning keeper.new ≡ after_all cleared calls.now) }
    ensures within { OnOk result ((K.meaning keeper.new).passes ≤ 200000000) }
    ensures unchanged { OnErr result (keeper.new ≡ keeper.old) }
{
    let mut answers = Vec::with_capacity(heap, calls.len())?;
    keeper.clear();
    for call in calls {
        answers.push(call.make(keeper)).unwrap();
    }
    Ok(answers)
}

// What two keepers answered to the same calls, in their order.
#[derive(Drop)]
pub struct BothAnswers {
    pub first: Vec<KeeperAnswer>,
    pub second: Vec<KeeperAnswer>,
}

// Two keepers of any two types, in any state, are cleared and given the same calls: they answer
// alike, call by call, and end with equal sets and counts. Where room for the second's answers is
// wanting, the first has made all calls and the second none.
pub fn alike<A: Keeper, B: Keeper>(
    heap: Global,
    a: &mut A,
    b: &mut B,
    calls: &[KeeperCall],
) -> Result<BothAnswers, AllocError>
    ensures same { IfOk result (λ both. both.first.items ≡ both.second.items) }
    ensures answers { IfOk result (λ both. both.first.items ≡ answers_to cleared calls.now) }
    ensures ends { OnOk result (A.meaning a.new ≡ B.meaning b.new) }
    ensures effect { OnOk result (A.meaning a.new ≡ after_all cleared calls.now) }
    ensures lives { OnOk result (A.live a.new × B.live b.new) }
    ensures first { OnErr result ((a.new ≡ a.old) ⊎ (A.live a.new × (A.meaning a.new ≡ after_all cleared calls.now))) }
    ensures second { OnErr result (b.new ≡ b.old) }
{
    let first = drive(heap, a, calls)?;
    let second = drive(heap, b, calls)?;
    Ok(BothAnswers { first, second })
}
