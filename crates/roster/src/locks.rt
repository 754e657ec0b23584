// The lock table: who holds each of the 32 locks.
ghost use Rattle.std.specs.Prelude.{◌≡◌, ℕ, ◌&&◌, if◌then◌else◌, Some, None, ◌==◌, nat_eq, nat_lt};
ghost use Rattle.order.specs.Faults.{held_by};
ghost use Rattle.roster.specs.States.{holder_of, holds_some};

// One lock, and the thread that holds it.
#[derive(Clone, Copy)]
struct Lock {
    holder: Option<u8>,
}

impl Lock {
    fn free() -> Lock
        ensures { result.holder ≡ None }
    {
        Lock { holder: None }
    }
}

// One record for each lock, so that one element is read or changed at a time.
#[derive(Drop)]
pub(crate) struct LockTable {
    locks: [Lock; 32],
}

impl LockTable {
    // All locks are free.
    pub(crate) fn new() -> LockTable
        ensures { holder_of result ≡ (λ _. None) }
    {
        LockTable {
            locks: [Lock::free(); 32],
        }
    }

    // The thread that holds the lock; no lock of 32 or more is ever held.
    pub(crate) fn holder(&self, lock: u8) -> Option<u8>
        ensures { result ≡ holder_of self.now lock }
    {
        self.locks.get(usize::from(lock))?.holder
    }

    pub(crate) fn is_held_by(&self, lock: u8, thread: u8) -> bool
        ensures { result ≡ held_by (holder_of self.now lock) thread }
    {
        self.holder(lock) == Some(thread)
    }

    // Whether the thread holds any lock. Only a join asks, so that it is kept out of what asks each event.
    #[inline(never)]
    pub(crate) fn holds_any(&self, thread: u8) -> bool
        ensures { result ≡ holds_some 32 (holder_of self.now) thread }
    {
        self.locks.iter().any(|lock| lock.holder == Some(thread))
    }

    // The thread now holds the lock. This and `release` are two promises; the work is done once, by `set_holder`.
    pub(crate) fn acquire(&mut self, lock: u8, thread: u8)
        ensures { (l : ℕ) → holder_of self.new l ≡ (if nat_lt l 32 && lock == l then Some thread else holder_of self.old l) }
    {
        self.set_holder(lock, Some(thread))
    }

    // Nobody holds the lock now.
    pub(crate) fn release(&mut self, lock: u8)
        ensures { (l : ℕ) → holder_of self.new l ≡ (if nat_eq lock l then None else holder_of self.old l) }
    {
        self.set_holder(lock, None)
    }

    fn set_holder(&mut self, lock: u8, holder: Option<u8>)
        ensures { (l : ℕ) → holder_of self.new l ≡ (if nat_lt l 32 && lock == l then holder else holder_of self.old l) }
    {
        // By an index: a slice's `get_mut` tells a proof nothing of the elements.
        if lock < 32 {
            self.locks[usize::from(lock)].holder = holder;
        }
    }
}
