// Pseudo-random calls from a fixed seed, within the ranges and just past them.
ghost use Rattle.std.specs.Prelude.{◌<◌, ◌≤◌};

use keepers::KeeperCall;
use std::alloc::{AllocError, Global};

// A xorshift generator.
#[derive(Clone, Copy)]
struct Random {
    state: u64,
}

impl Random {
    fn next(&mut self) -> u64 {
        self.state ^= self.state << 13;
        self.state ^= self.state >> 7;
        self.state ^= self.state << 17;
        self.state >> 20
    }

    // A number below `all`, every other time one of the first few, so that calls meet.
    fn below(&mut self, few: u64, all: u64) -> u64
        requires few { 0 < few }
        requires all { few ≤ all }
        ensures { result < all }
    {
        if self.next() % 2 == 0 {
            self.next() % few
        } else {
            self.next() % all
        }
    }

    fn slot(&mut self) -> usize {
        self.below(20, 580) as usize
    }

    fn holder(&mut self) -> u8 {
        self.below(12, 138) as u8
    }

    fn thread(&mut self) -> u8 {
        (self.next() % 9) as u8
    }

    fn call(&mut self) -> KeeperCall {
        match self.next() % 64 {
            0..=19 => KeeperCall::Begin {
                slot: self.slot(),
                thread: self.thread(),
            },
            20..=23 => KeeperCall::Forget { slot: self.slot() },
            24..=43 => KeeperCall::Pass {
                from: self.holder(),
                to: self.holder(),
            },
            44..=62 => KeeperCall::Ask {
                slot: self.slot(),
                holder: self.holder(),
            },
            _ => self.rare(),
        }
    }

    // A count, or now and then a clear.
    fn rare(&mut self) -> KeeperCall {
        if self.next() % 16 == 0 {
            KeeperCall::Clear
        } else {
            KeeperCall::Count
        }
    }
}

pub(crate) fn calls(heap: Global, how_many: usize) -> Result<Vec<KeeperCall>, AllocError> {
    let mut random = Random {
        state: 0x9E37_79B9_7F4A_7C15,
    };
    (0..how_many).map(|_| random.call()).collect(heap)
}
