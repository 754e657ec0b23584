// The last value of each range and the first past it, with what is to be answered.
use keepers::KeeperAnswer::{Done, Holds, Passes, Refused};
use keepers::{KeeperAnswer, KeeperCall, KeeperFault};

const OUT: KeeperAnswer = Refused(KeeperFault::OutOfRange);

fn begin(slot: usize, thread: u8) -> KeeperCall {
    KeeperCall::Begin { slot, thread }
}

fn pass(from: u8, to: u8) -> KeeperCall {
    KeeperCall::Pass { from, to }
}

fn ask(slot: usize, holder: u8) -> KeeperCall {
    KeeperCall::Ask { slot, holder }
}

pub(crate) fn answered() -> [(KeeperCall, KeeperAnswer); 18] {
    [
        (begin(575, 7), Done),
        (begin(576, 7), OUT),
        (begin(575, 8), OUT),
        (ask(575, 7), Holds(true)),
        (ask(575, 135), Holds(false)),
        (ask(575, 136), OUT),
        (ask(576, 135), OUT),
        (pass(7, 135), Done),
        (pass(7, 136), OUT),
        (pass(136, 7), OUT),
        (pass(135, 0), Done),
        (ask(575, 135), Holds(true)),
        (ask(575, 0), Holds(true)),
        (ask(575, 1), Holds(false)),
        (KeeperCall::Count, Passes(2)),
        (KeeperCall::Forget { slot: 576 }, OUT),
        (KeeperCall::Forget { slot: 575 }, Done),
        (ask(575, 7), Holds(false)),
    ]
}
