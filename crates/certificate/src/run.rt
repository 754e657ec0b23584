// A run: a monitor, and what is found in a file whose events it is offered.
use crate::fault::Fault;
use crate::finding::Findings;
use keepers::Keeper;
use monitor::Monitor;

// The monitor that is offered the events, and the findings so far.
#[derive(Drop)]
pub struct Run<K: Keeper> {
    pub(crate) monitor: Monitor<K>,
    pub(crate) findings: Findings,
}

// What a run leaves: the monitor, the findings, and the fault that ended it, if one did.
#[derive(Drop)]
pub struct Ran<K: Keeper> {
    pub monitor: Monitor<K>,
    pub findings: Findings,
    pub end: Option<Fault>,
}
