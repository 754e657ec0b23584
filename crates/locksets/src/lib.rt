// The lockset keeper: the set of holders of each slot, kept as it stands.
#![tactic(auto)]

mod keeper;
mod set;

pub use keeper::Locksets;
pub use set::LockSet;
