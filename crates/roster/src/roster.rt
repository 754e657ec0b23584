// The roster: the state of each thread, and the locks.
ghost use Rattle.std.specs.Prelude.{◌≡◌, ℕ, ◌&&◌, if◌then◌else◌, ◌==◌, nat_lt};
ghost use Rattle.roster.specs.Checks.{range_number, state_number, lock_number, count_number};
ghost use Rattle.roster.specs.Follows.{Fresh, Noted};
ghost use Rattle.roster.specs.Numbers.{numbered, refused};
ghost use Rattle.roster.specs.States.{state_of, begun, holders};

use crate::fault::RuleFault;
use crate::locks::LockTable;
use crate::ranges::{no_such_thing, no_such_thread};
use events::{Action, Event};

// A thread is forked once, runs, and has ended when it is first joined.
#[derive(Clone, Copy)]
enum ThreadState {
    Unstarted,
    Running,
    Ended,
}

#[derive(Drop)]
pub struct Roster {
    threads: [ThreadState; 8],
    locks: LockTable,
}

impl Roster {
    // Thread 0 runs, no other has started, and all locks are free.
    pub fn new() -> Roster
        ensures { Fresh result }
    {
        let mut threads = [ThreadState::Unstarted; 8];
        threads[0] = ThreadState::Running;
        Roster {
            threads,
            locks: LockTable::new(),
        }
    }

    // Refuses the event by the first of numbers 1 to 9 that applies, after so many accepted ones.
    // It is asked of each event of a file: as a call it would have the event laid out in memory.
    #[inline(always)]
    pub fn rule(&self, accepted: u32, event: Event) -> Result<(), RuleFault>
        ensures { numbered result ≡ refused self.now accepted event }
    {
        check_ranges(event)?;
        self.check_states(event)?;
        self.check_locks(event)?;
        check_count(accepted)
    }

    // What an accepted event changes.
    pub fn note(&mut self, event: Event)
        ensures { Noted self.old event self.new }
    {
        match event.action {
            Action::Fork { child } => self.set_state(child, ThreadState::Running),
            Action::Join { child } => self.set_state(child, ThreadState::Ended),
            Action::Acquire { lock } => self.locks.acquire(lock, event.thread),
            Action::Release { lock } => self.locks.release(lock),
            _ => {}
        }
    }

    // Numbers 3, 4 and 5.
    fn check_states(&self, event: Event) -> Result<(), RuleFault>
        ensures { numbered result ≡ state_number (state_of self.now event.thread) (begun self.now) event.thread event.action }
    {
        if !matches!(self.state(event.thread), ThreadState::Running) {
            return Err(RuleFault::NotRunning);
        }
        match event.action {
            Action::Fork { child } if self.has_started(child) => Err(RuleFault::ForkedBefore),
            Action::Join { child } if child == event.thread || !self.has_started(child) => {
                Err(RuleFault::JoinsAmiss)
            }
            _ => Ok(()),
        }
    }

    // Numbers 6, 7 and 8.
    #[inline(always)]
    fn check_locks(&self, event: Event) -> Result<(), RuleFault>
        ensures { numbered result ≡ lock_number (holders self.now) event.thread event.action }
    {
        match event.action {
            Action::Acquire { lock } if self.locks.holder(lock).is_some() => {
                Err(RuleFault::LockHeld)
            }
            Action::Release { lock } if !self.locks.is_held_by(lock, event.thread) => {
                Err(RuleFault::LockNotHeld)
            }
            Action::Join { child } if self.locks.holds_any(child) => Err(RuleFault::JoinedHolds),
            _ => Ok(()),
        }
    }

    fn has_started(&self, thread: u8) -> bool
        ensures { result ≡ begun self.now thread }
    {
        !matches!(self.state(thread), ThreadState::Unstarted)
    }

    // No thread of 8 or more ever starts.
    fn state(&self, thread: u8) -> ThreadState
        ensures { result ≡ state_of self.now thread }
    {
        self.threads
            .get(usize::from(thread))
            .copied()
            .unwrap_or(ThreadState::Unstarted)
    }

    fn set_state(&mut self, thread: u8, state: ThreadState)
        ensures threads { (t : ℕ) → state_of self.new t ≡ (if nat_lt t 8 && thread == t then state else state_of self.old t) }
        ensures locks { (l : ℕ) → holders self.new l ≡ holders self.old l }
    {
        // By an index: a slice's `get_mut` tells a proof nothing of the elements.
        if thread < 8 {
            self.threads[usize::from(thread)] = state;
        }
    }
}

// Numbers 1 and 2.
fn check_ranges(event: Event) -> Result<(), RuleFault>
    ensures { numbered result ≡ range_number event.thread event.action }
{
    if no_such_thread(event) {
        return Err(RuleFault::NoSuchThread);
    }
    if no_such_thing(event) {
        return Err(RuleFault::NoSuchThing);
    }
    Ok(())
}

// Number 9: a record has room for a million events.
fn check_count(accepted: u32) -> Result<(), RuleFault>
    ensures { numbered result ≡ count_number accepted }
{
    if accepted >= 1_000_000 {
        return Err(RuleFault::RecordFull);
    }
    Ok(())
}
