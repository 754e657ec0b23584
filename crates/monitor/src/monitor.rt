// A monitor over any keeper: how many events it accepted, threads and locks, and slots. It stores no record.
use keepers::Keeper;
use roster::Roster;
use slots::Slots;

// Clauses take the record and that the monitor stands for it as a premise: a ghost field may hold a fact, but no record.
#[derive(Drop)]
pub struct Monitor<K: Keeper> {
    pub(crate) accepted: u32,
    pub(crate) roster: Roster,
    pub(crate) slots: Slots<K>,
}
