// Passes between a thread and those with whom its event shares, and how many an event makes.
ghost use Rattle.std.specs.Prelude.{◌≡◌};
ghost use Rattle.order.specs.Work.{passes_of};
ghost use Rattle.slots.specs.Made.{Made, passes_in, passes_out};
ghost use Rattle.slots.specs.HoldersLeft.{holders_left};

use crate::holders::Holders;
use events::{Action, Event};
use keepers::Keeper;

// Passes from each holder to the thread. What the keeper refuses changes nothing.
pub(crate) fn pass_in<K: Keeper>(keeper: &mut K, holders: Holders, thread: u8)
    ensures { Made K.live K.meaning (passes_in thread (holders_left holders)) keeper.old keeper.new }
{
    for holder in holders {
        let _ = keeper.pass(holder, thread);
    }
}

// Passes from the thread to each holder. One function that is told the way would say it in a test
// or a closure at each pass, where two loops of one line do.
pub(crate) fn pass_out<K: Keeper>(keeper: &mut K, holders: Holders, thread: u8)
    ensures { Made K.live K.meaning (passes_out thread (holders_left holders)) keeper.old keeper.new }
{
    for holder in holders {
        let _ = keeper.pass(thread, holder);
    }
}

// How many passes the event makes where it is accepted.
pub fn passes_of(event: Event) -> u32
    ensures { result ≡ passes_of event }
{
    match event.action {
        Action::Read { .. } | Action::Write { .. } | Action::Allocate { .. } => 0,
        Action::Acquire { .. } | Action::ReadFlag { .. } | Action::Join { .. } => 1,
        Action::Release { .. } | Action::WriteFlag { .. } | Action::Fork { .. } => 1,
        // from each place of either set to the thread, and back
        Action::Commit { reads, writes } => 2 * reads.union(writes).len(),
    }
}
