// How often a read or a write that a signal interrupts is tried again.
ghost use Rattle.std.specs.Prelude.{◌<◌, OnOk};
ghost use Rattle.streams.specs.Told.{GoesOn};

use std::io::{Error, ErrorKind, Result};

// More than any call meets, and few enough that a source or a sink that is always interrupted comes to an end.
const MOST: u32 = 1_000_000;

// The tries that are left.
#[derive(Drop)]
pub(crate) struct Tries {
    pub(crate) left: u32,
}

impl Tries {
    pub(crate) fn new() -> Tries {
        Tries { left: MOST }
    }

    // Whether to try again after the error: where it was an interruption, and tries are left.
    pub(crate) fn after(&mut self, error: Error) -> Result<()>
        ensures fewer { OnOk result (self.new.left < self.old.left) }
        ensures retried { GoesOn result }
    {
        if error.kind() != ErrorKind::Interrupted {
            return Err(error);
        }
        if self.left == 0 {
            return Err(Error::new(ErrorKind::TimedOut, "interrupted too often"));
        }
        self.left -= 1;
        Ok(())
    }
}
