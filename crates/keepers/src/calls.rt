// Calls on a keeper as values.
ghost use Rattle.std.specs.Prelude.{◌≡◌, MatchResult};
ghost use Rattle.keepers.specs.Calls.{answer_to, after};
ghost use Rattle.keepers.specs.declared.calls.KeeperAnswer.TheVariants.{Done, Refused, Holds, Passes};

use crate::fault::KeeperFault;
use crate::keeper::Keeper;

#[derive(Clone, Copy)]
pub enum KeeperCall {
    Clear,
    Begin { slot: usize, thread: u8 },
    Forget { slot: usize },
    Pass { from: u8, to: u8 },
    Ask { slot: usize, holder: u8 },
    Count,
}

#[derive(Clone, Copy, PartialEq, Eq, Debug)]
pub enum KeeperAnswer {
    Done,
    Refused(KeeperFault),
    // to a question for a holder
    Holds(bool),
    // to a question for the count
    Passes(u32),
}

// What each method of a keeper returns, as an answer.
impl From<()> for KeeperAnswer {
    ghost from_gives = { λ _ answer. answer ≡ Done };

    fn from(_done: ()) -> KeeperAnswer {
        KeeperAnswer::Done
    }
}

impl From<bool> for KeeperAnswer {
    ghost from_gives = { λ holds answer. answer ≡ Holds holds };

    fn from(holds: bool) -> KeeperAnswer {
        KeeperAnswer::Holds(holds)
    }
}

impl From<u32> for KeeperAnswer {
    ghost from_gives = { λ passes answer. answer ≡ Passes passes };

    fn from(passes: u32) -> KeeperAnswer {
        KeeperAnswer::Passes(passes)
    }
}

impl<T: Into<KeeperAnswer>> From<Result<T, KeeperFault>> for KeeperAnswer {
    ghost from_gives = { λ returned answer. MatchResult returned (λ value. T.converts value answer) (λ fault. answer ≡ Refused fault) };

    fn from(returned: Result<T, KeeperFault>) -> KeeperAnswer {
        match returned {
            Ok(value) => value.into(),
            Err(fault) => KeeperAnswer::Refused(fault),
        }
    }
}

impl KeeperCall {
    // Makes the call on the keeper.
    pub fn make<K: Keeper>(self, keeper: &mut K) -> KeeperAnswer
        ensures lives { K.live keeper.old → K.live keeper.new }
        ensures effect { K.live keeper.old → K.meaning keeper.new ≡ after (K.meaning keeper.old) self }
        ensures answer { K.live keeper.old → result ≡ answer_to (K.meaning keeper.old) self }
    {
        match self {
            KeeperCall::Clear => keeper.clear().into(),
            KeeperCall::Begin { slot, thread } => keeper.begin(slot, thread).into(),
            KeeperCall::Forget { slot } => keeper.forget(slot).into(),
            KeeperCall::Pass { from, to } => keeper.pass(from, to).into(),
            KeeperCall::Ask { slot, holder } => keeper.ask(slot, holder).into(),
            KeeperCall::Count => keeper.count().into(),
        }
    }
}
