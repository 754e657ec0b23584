// The short-cut layer: stands over any keeper, and answers for the thread that began a slot by itself.
#![tactic(auto)]

mod layer;
mod owners;

pub use layer::{ShortCut, layer_alike};
