// Clock vectors: how far a holder has heard of each thread.
ghost use Rattle.std.specs.Prelude.{◌≡◌, ℕ, ◌+◌, ◌-◌, ◌^◌, min, max, ◌&&◌, if◌then◌else◌, ◌==◌, nat_le};
ghost use Rattle.keepers.specs.Meaning.{is_thread};
ghost use Rattle.clocks.specs.Vectors.{count_at, never_heard};

use keepers::THREADS;

// The time of an access: the thread that made it, and that thread's own count then.
#[derive(Clone, Copy)]
pub struct Epoch {
    pub thread: u8,
    pub count: u32,
}

// A count for each thread; there is none beyond the eight threads, which reads as 0.
#[derive(Clone, Copy)]
pub struct ClockVector {
    counts: [u32; 8],
}

impl ClockVector {
    pub fn zero() -> ClockVector
        ensures { result ≡ never_heard }
    {
        ClockVector { counts: [0; 8] }
    }

    // The count of the thread.
    pub fn count(&self, thread: u8) -> u32
        ensures { result ≡ count_at self.now thread }
    {
        self.counts.get(thread as usize).copied().unwrap_or(0)
    }

    // Whether the epoch lies at or before this time.
    pub fn reaches(&self, epoch: Epoch) -> bool
        ensures { result ≡ nat_le epoch.count (count_at self.now epoch.thread) }
    {
        epoch.count <= self.count(epoch.thread)
    }

    // Takes over whatever the other has heard: the larger count of each thread. Not by `zip`, which
    // leaves a proof nothing of the counts that were written.
    pub fn join(&mut self, other: &ClockVector)
        ensures { (t : ℕ) → count_at self.new t ≡ max (count_at self.old t) (count_at other.now t) }
    {
        for (thread, count) in self.counts.iter_mut().enumerate() {
            *count = (*count).max(other.counts[thread]);
        }
    }

    // Moves the count of the thread on by one; a number that is no thread has none to move. By index,
    // since `get_mut` leaves a proof nothing of the other counts.
    pub fn tick(&mut self, thread: u8)
        ensures { (t : ℕ) → count_at self.new t ≡ (if is_thread t && t == thread then min (count_at self.old t + 1) (2 ^ 32 - 1) else count_at self.old t) }
    {
        if thread < THREADS {
            let at = thread as usize;
            self.counts[at] = self.counts[at].saturating_add(1);
        }
    }
}
