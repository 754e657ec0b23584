// A keeper at the limit of passes, reached by making them all.
use keepers::{HOLDERS, Keeper, KeeperAnswer, PASS_LIMIT, THREADS};

// How many of one more pass than the limit allows are taken.
pub(crate) fn passes_taken<K: Keeper>(keeper: &mut K) -> usize {
    keeper.clear();
    (0..=PASS_LIMIT)
        .map(|turn| {
            let from = (turn % THREADS as u32) as u8;
            let to = (turn % HOLDERS as u32) as u8;
            keeper.pass(from, to)
        })
        .filter(|answer| answer.is_ok())
        .count()
}

// What a full keeper answers to a pass in range and to one out of range.
pub(crate) fn refusals<K: Keeper>(keeper: &mut K) -> (KeeperAnswer, KeeperAnswer) {
    (keeper.pass(0, 1).into(), keeper.pass(HOLDERS, 1).into())
}
