// Reading and writing with every failure told, over any source and any sink.
#![tactic(auto)]

mod memory;
mod reading;
mod sink;
mod source;
mod system;
mod tries;
mod writing;

pub use memory::Memory;
pub use reading::read_up_to;
pub use sink::Sink;
pub use source::Source;
pub use system::System;
pub use writing::write_whole;
