// Which threads run and who holds each lock; what refuses an event by number; what an accepted event changes.
#![tactic(auto)]

mod fault;
mod locks;
mod ranges;
mod roster;

pub use fault::RuleFault;
pub use roster::Roster;
