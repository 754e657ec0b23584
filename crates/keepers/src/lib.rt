// The interface of a keeper: which accesses have reached whom, and how each call answers.
#![tactic(auto)]

mod calls;
mod fault;
mod keeper;
mod law;
mod limits;
mod ranges;

pub use calls::{KeeperAnswer, KeeperCall};
pub use fault::KeeperFault;
pub use keeper::Keeper;
pub use law::{BothAnswers, alike, drive};
pub use limits::{HOLDERS, PASS_LIMIT, SLOTS, THREADS};
pub use ranges::{check_ask, check_begin, check_forget, check_pass};
