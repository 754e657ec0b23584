// How many slots, holders and threads there are, and how many passes are counted.

// Place p has its write slot at 9p and the read slot of thread t at 9p + 1 + t, for 64 places.
pub const SLOTS: usize = 576;

// Threads are 0 to 7, locks 8 to 39, flags 40 to 71 and places 72 to 135.
pub const HOLDERS: u8 = 136;

pub const THREADS: u8 = 8;

pub const PASS_LIMIT: u32 = 200_000_000;
