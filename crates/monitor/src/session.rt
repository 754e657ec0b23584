// A whole list of calls on a new monitor, answered one after another.
ghost use Rattle.std.specs.Prelude.{◌≡◌, ◌<◌, ◌≤◌, ◌↔◌, List, [], ◌∷◌, ◌++◌, length, vec_capacity, IsOk, IfOk, IfErr, OnOk, OnErr};
ghost use Rattle.events.specs.declared.Event.{Event as AnEvent};
ghost use Rattle.std.specs.List.{AllByRecursion};
ghost use Rattle.std.specs.VecDeque.{deque_len, deque_capacity};
ghost use Rattle.order.specs.Examples.{examples};
ghost use Rattle.monitor.specs.Promise.{RightReply, after, record_after, Promise, AnsweredAs};
ghost use Rattle.monitor.specs.Stands.{Stands};

use crate::monitor::Monitor;
use crate::slip::Slip;
use crate::verdict::{Question, Verdict};
use events::Event;
use keepers::Keeper;
use roster::RuleFault;
use slots::Told;
use std::alloc::AllocError;
use std::collections::VecDeque;

// What can be asked of a monitor. A slip to commit is a real one, so a call is spent too.
pub enum Call {
    Offer(Event),
    Commit(Slip),
    Count,
    Ask(Question),
}

// The answer to a call.
#[derive(Clone, Copy)]
pub enum Reply {
    Judged(Verdict),
    Counted(u32),
    Shown(Result<Option<Told>, RuleFault>),
}

// Makes one call.
fn answer<K: Keeper>(monitor: &mut Monitor<K>, call: Call) -> Reply
    ensures { (rec : List AnEvent) → Stands rec monitor.old → RightReply rec call result × Stands (after rec call result) monitor.new }
{
    match call {
        Call::Offer(event) => Reply::Judged(monitor.offer(event)),
        Call::Commit(slip) => Reply::Judged(slip.commit(monitor)),
        Call::Count => Reply::Counted(monitor.accepted()),
        Call::Ask(question) => Reply::Shown(monitor.ask(question)),
    }
}

impl Call {
    // Puts the call after those that wait. Where that wants memory and there is none, it is let go.
    pub fn queue(self, calls: &mut VecDeque<Call>) -> Result<(), AllocError>
        ensures ok { OnOk result (calls.new.items ≡ calls.old.items ++ self ∷ []) }
        ensures err { OnErr result (calls.new.items ≡ calls.old.items) }
        ensures room { deque_len calls.old < deque_capacity calls.old → IsOk result }
        ensures capacity { deque_capacity calls.old ≤ deque_capacity calls.new }
    {
        calls.push_back(self).map_err(|back| {
            back.value.abandon();
            AllocError
        })
    }

    // Lets a call go that is not made.
    fn abandon(self) {
        match self {
            Call::Commit(slip) => slip.abandon(),
            Call::Offer(_) | Call::Count | Call::Ask(_) => {}
        }
    }
}

// Lets all calls go. A call has no `Drop`, since a slip has none, so the queue is emptied call by call; being empty, it
// may then be destroyed.
pub fn abandon_all(calls: &mut VecDeque<Call>)
    ensures { calls.new.items ≡ [] }
{
    while let Some(call) = calls.pop_front() {
        call.abandon();
    }
}

// Starts a monitor over the keeper, whatever that held before, makes the calls in order, and lists the replies in place of
// what was listed. The caller lends the room for them: with less room than calls no call is made, and slips are abandoned.
pub fn answer_all<K: Keeper>(
    keeper: K,
    mut calls: VecDeque<Call>,
    replies: &mut Vec<Reply>,
) -> Result<Monitor<K>, K>
    ensures promise { OnOk result (Promise [] calls.items replies.new.items) }
    ensures stands { IfOk result (λ monitor. Stands (record_after [] calls.items replies.new.items) monitor) }
    ensures examples { OnOk result (AllByRecursion (AnsweredAs calls.items replies.new.items) examples) }
    ensures room { IsOk result ↔ (length calls.items ≤ vec_capacity replies.old) }
    ensures capacity { vec_capacity replies.new ≡ vec_capacity replies.old }
    ensures keeper { IfErr result (λ back. back ≡ keeper) }
    ensures unchanged { OnErr result (replies.new ≡ replies.old) }
{
    if replies.capacity() < calls.len() {
        abandon_all(&mut calls);
        calls.destroy_empty();
        return Err(keeper);
    }
    replies.clear();
    let mut monitor = Monitor::start(keeper);
    while let Some(call) = calls.pop_front() {
        replies.push_reserved(answer(&mut monitor, call));
    }
    calls.destroy_empty();
    Ok(monitor)
}
