//! Callers of the lock with a history, proved and run: a counter that knows what was added to it.
ghost use Rattle.std.specs.Prelude.{◌≡◌, IfSome, sum, true};
ghost use Rattle.history_lock.specs.History.{IsPrefixOf};
ghost use Rattle.test_stack_pools.specs.Sums.{WasAdded, IsAmong};

use history_lock::{HistoryLock, Law, Section, Seen};
use std::sync::Wait;
use std::thread::{Threads, join};

/// A counter goes up by what is added.
struct Adds;

impl Law<u64, u64> for Adds {
    ghost use Rattle.std.specs.Prelude.{◌≡◌, sum};

    ghost leaves = { λ history value. value ≡ sum history };
}

/// A section adds by how much it left the counter higher.
struct Grows;

impl Section<u64, u64> for Grows {
    ghost use Rattle.std.specs.Prelude.{◌-◌, sum};

    ghost adds = { λ history value. value - sum history };
}

/// A counter that threads share, which begins at 0.
type Counter = HistoryLock<u64, u64, Adds>;

/// Adds to a counter, unless the sum is too large for a word.
fn add<W: Wait>(rt: &W, counter: &Counter, amount: u64) -> (bool, Seen<u64>)
    ensures of { result.1.table ≡ counter.now }
    ensures added { WasAdded result.0 amount result.1.history }
{
    let (value, turn) = counter.lock(rt);
    match value.checked_add(amount) {
        Some(sum) => (true, turn.release::<Grows>(sum)),
        None => (false, turn.release::<Grows>(value)),
    }
}

/// Reads a counter, which is what was added.
fn read<W: Wait>(rt: &W, counter: &Counter) -> (u64, Seen<u64>)
    ensures of { result.1.table ≡ counter.now }
    ensures sum { result.0 ≡ sum result.1.history }
{
    let (value, turn) = counter.lock(rt);
    (value, turn.release::<Grows>(value))
}

/// Reads a counter again, after all that was known of it.
fn read_after<W: Wait>(rt: &W, counter: &Counter, seen: Seen<u64>) -> (u64, Seen<u64>)
    requires { seen.table ≡ counter.now }
    ensures sum { result.0 ≡ sum result.1.history }
    ensures after { IsPrefixOf seen.history result.1.history }
{
    let (value, turn) = counter.lock_after(rt, seen);
    (value, turn.release::<Grows>(value))
}

/// Adds to a counter, or returns nothing.
fn added<W: Wait>(rt: &W, counter: &Counter, amount: u64) -> Option<Seen<u64>>
    ensures { IfSome result (λ seen. (seen.table ≡ counter.now) × WasAdded true amount seen.history) }
{
    let (done, seen) = add(rt, counter, amount);
    if done { Some(seen) } else { None }
}

/// Two threads add. If both did, both amounts stand in one history.
fn add_both<R: Threads + Wait + Sync>(
    rt: &R,
    counter: &Counter,
    first: u64,
    second: u64,
) -> Option<Seen<u64>>
    ensures of { IfSome result (λ seen. seen.table ≡ counter.now) }
    ensures first { IfSome result (λ seen. IsAmong first seen.history) }
    ensures second { IfSome result (λ seen. IsAmong second seen.history) }
{
    let (one, other) = join(
        rt,
        || -> Option<Seen<u64>>
            ensures { IfSome result (λ seen. (seen.table ≡ counter.entry.now) × WasAdded true first seen.history) }
        { added(rt, counter, first) },
        || -> Option<Seen<u64>>
            ensures { IfSome result (λ seen. (seen.table ≡ counter.entry.now) × WasAdded true second seen.history) }
        { added(rt, counter, second) },
    );
    Some(counter.learn(one?, other?))
}

#[test]
fn two_threads_add(rt: HostRuntime) {
    let counter = Counter::new(rt.alloc(), 0)
        .ok()
        .expect(&rt, "memory is left");
    let both = add_both(&rt, &counter, 3, 4).expect(&rt, "both threads end");
    let (value, _) = read_after(&rt, &counter, both);
    assert_eq!(rt; value, 7);
}

#[test]
fn a_sum_that_is_too_large_is_not_added(rt: HostRuntime) {
    let counter = Counter::new(rt.alloc(), 0)
        .ok()
        .expect(&rt, "memory is left");
    let (first, _) = add(&rt, &counter, u64::MAX);
    let (second, _) = add(&rt, &counter, 1);
    let (value, _) = read(&rt, &counter);
    assert_eq!(rt; (first, second, value), (true, false, u64::MAX));
}
