// What inspect does: the listing of all that a source gives is printed to a sink.
#![tactic(auto)]

mod listing;
mod work;

pub use work::{Failure, inspect};
