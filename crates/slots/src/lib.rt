// Slots over any keeper: the work of an accepted event, the search for a race, the question about a slot.
#![tactic(auto)]

mod acts;
mod asking;
mod holders;
mod passes;
mod race;
mod serials;
mod table;
mod work;

pub use passes::passes_of;
pub use race::Racing;
pub use serials::Serials;
pub use table::{Slots, Told};
