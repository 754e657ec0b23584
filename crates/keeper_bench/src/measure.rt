// Runs one keeper through each kind of call, and prints how many it makes in a second.
use keepers::{HOLDERS, Keeper, SLOTS, THREADS};
use std::time::{Duration, Instant};

const BEGINS: u64 = 20_000_000;

const PASSES: u64 = 2_000_000;

const ASKS: u64 = 20_000_000;

// Made before the questions, so that both answers come.
const FIRST_PASSES: u64 = 600;

// A number that changes with each turn and follows no short pattern.
fn scrambled(turn: u64) -> u64 {
    turn.wrapping_mul(0x9E37_79B9_7F4A_7C15) >> 32
}

fn slot_of(number: u64) -> usize {
    (number % SLOTS as u64) as usize
}

fn holder_of(number: u64) -> u8 {
    (number % HOLDERS as u64) as u8
}

fn begins<K: Keeper>(keeper: &mut K) {
    for number in (0..BEGINS).map(scrambled) {
        let _ = keeper.begin(slot_of(number), (number % THREADS as u64) as u8);
    }
}

fn passes<K: Keeper>(keeper: &mut K, how_many: u64) {
    for number in (0..how_many).map(scrambled) {
        let _ = keeper.pass(holder_of(number), holder_of(number >> 8));
    }
}

// How many were answered yes, so that no question can be left out. A loop: with `filter` and `count`
// locksets answer 110 million a second in place of 290, and the figures of docs/PERFORMANCE.md would no
// longer compare.
fn asks<K: Keeper>(keeper: &K) -> u64 {
    let mut yes: u64 = 0;
    for number in (0..ASKS).map(scrambled) {
        if keeper.ask(slot_of(number), holder_of(number >> 8)) == Ok(true) {
            yes = yes.saturating_add(1);
        }
    }
    yes
}

// How many calls a second.
fn rate(calls: u64, span: Duration) -> u128 {
    (calls as u128 * 1_000_000_000)
        .checked_div(span.as_nanos())
        .unwrap_or(0)
}

// What the work gives, and how long it takes.
fn timed<T: Drop, F: FnOnce() -> T>(rt: &HostRuntime, work: F) -> anyhow::Result<(T, Duration)>
    requires { F.IsAlwaysCallable work }
{
    let start = Instant::now(rt)?;
    let done = work();
    Ok((done, start.elapsed(rt)?))
}

pub(crate) fn run<K: Keeper>(rt: &HostRuntime, name: &str, keeper: &mut K) -> anyhow::Result<()> {
    keeper.clear();
    let ((), begun) = timed(rt, || begins(keeper))?;
    passes(keeper, FIRST_PASSES);
    let (yes, asked) = timed(rt, || asks(keeper))?;
    let ((), passed) = timed(rt, || passes(keeper, PASSES))?;
    println!(rt;
        "{name}: {} begins/s, {} passes/s, {} asks/s ({yes} yes, {} passes made)",
        rate(BEGINS, begun),
        rate(PASSES, passed),
        rate(ASKS, asked),
        keeper.count()
    )?;
    Ok(())
}
