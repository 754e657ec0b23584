// The clock keeper: a clock vector for each holder and an epoch for each slot.
#![tactic(auto)]

mod keeper;
mod vector;

pub use keeper::Clocks;
pub use vector::{ClockVector, Epoch};
