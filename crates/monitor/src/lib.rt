// The monitor: events are offered to it, and it answers whether each may stand.
#![tactic(auto)]

mod monitor;
mod offering;
mod questions;
mod session;
mod slip;
mod theorems;
mod verdict;

pub use monitor::Monitor;
pub use session::{Call, Reply, abandon_all, answer_all};
pub use slip::Slip;
pub use theorems::{
    commits_pass_twice, examples_are_judged, one_answer_is_right, order_is_decided,
    reached_is_ordered, slots_stand_for_latest, standing_is_sound,
};
pub use verdict::{Access, Decision, Question, Verdict};
