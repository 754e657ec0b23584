// The list of calls that the steps ask for. Calls and slips may not be dropped, so where there is no memory they are let go.
ghost use Rattle.std.specs.Prelude.{◌≡◌, ◌++◌, map, IfOk, OnOk};
ghost use Rattle.weighings.specs.Steps.{slip_with, call_of, calls_of};

use crate::steps::{Part, Step};
use events::{Event, PlaceSet};
use monitor::{Call, Slip, abandon_all};
use std::alloc::{AllocError, Global};
use std::collections::VecDeque;

// A slip with the places of both sets. No place is past the end, so none is refused.
fn slip_of(thread: u8, reads: PlaceSet, writes: PlaceSet) -> Slip
    ensures { result ≡ slip_with thread reads writes }
{
    let mut slip = Slip::open(thread);
    for place in 0..64 {
        if reads.contains(place) {
            let _ = slip.add_read(place);
        }
        if writes.contains(place) {
            let _ = slip.add_write(place);
        }
    }
    slip
}

impl Step {
    fn call(self) -> Call
        ensures { result ≡ call_of self }
    {
        match self {
            Step::Offer(thread, action) => Call::Offer(Event { thread, action }),
            Step::Commit {
                thread,
                reads,
                writes,
            } => Call::Commit(slip_of(thread, reads, writes)),
            Step::Count => Call::Count,
            Step::Ask(question) => Call::Ask(question),
        }
    }
}

// Lets all calls go, and the list of them.
pub(crate) fn let_go(mut calls: VecDeque<Call>) {
    abandon_all(&mut calls);
    calls.destroy_empty();
}

impl Part {
    // Lists the calls of the part behind the others.
    fn queue(&self, calls: &mut VecDeque<Call>) -> Result<(), AllocError>
        ensures { OnOk result (calls.new.items ≡ calls.old.items ++ map call_of self.now.steps.now) }
    {
        for step in self.steps {
            step.call().queue(calls)?;
        }
        Ok(())
    }
}

// The calls of all parts, in order.
pub(crate) fn listed(heap: Global, parts: &[Part]) -> Result<VecDeque<Call>, AllocError>
    ensures { IfOk result (λ calls. calls.items ≡ calls_of parts.now) }
{
    let mut calls = VecDeque::new(heap);
    for part in parts {
        if let Err(fault) = part.queue(&mut calls) {
            let_go(calls);
            return Err(fault);
        }
    }
    Ok(calls)
}
