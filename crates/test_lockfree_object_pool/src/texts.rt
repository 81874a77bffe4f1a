//! How types are shown, compared and hashed: pools, items, guards, what makes and resets, and the
//! causes and answers, of which different ones differ.
use crate::assert_equal::{assert_equal, assert_shown};
use lockfree_object_pool::clean::{AnyValue, Empty};
use lockfree_object_pool::closures::{Clear, Keep, WithCapacity};
use lockfree_object_pool::free_list::FreeList;
use lockfree_object_pool::made_or_reset::MadeOrReset;
use lockfree_object_pool::recycling::{
    FixedPool, LazyPool, MutexPool, Pool, Recycler, SpinLockPool,
};
use lockfree_object_pool::spin_lock::SpinLock;
use lockfree_object_pool::stack_object_pool::StackObjectPool;
use lockfree_object_pool::stack_reusable::{SharedStackPool, StackReusable};
use lockfree_object_pool::{NoneObjectPool, PullError};
use object_pool_cores::buffers::BufferPool;
use object_pool_cores::engine::{EngineError, Kind, Reset};
use object_pool_cores::interleave::Seen;
use object_pool_cores::sequential::{AttachError, Command, Reply, RunError};
use std::alloc::Global;
use std::collections::HashSet;
use std::fmt::{Debug, Display};
use std::hash::Hash;
use std::ops::DerefMut;
use std::process::Abort;
use std::sync::{Arc, Wait};

/// What `{:?}` and `{:#?}` show of a value.
fn shows<T: Debug>(rt: &impl Abort, alloc: Global, value: &T, plain: &str, pretty: &str) {
    assert_shown(rt, alloc, value, plain);
    let shown = format!(in alloc; "{value:#?}").expect(rt, "memory is left");
    assert_equal(rt, shown.as_str(), pretty);
}

/// An item, or a guard, shows the value that is written to it.
fn item_is_shown<T: DerefMut<Target = Vec<u8>> + Debug + Drop>(
    rt: &impl Abort,
    alloc: Global,
    pulled: Result<T, PullError>,
) {
    let mut item = pulled.expect(rt, "an item is given");
    item.push(5).expect(rt, "memory is left");
    shows(rt, alloc, &item, "[5]", "[\n    5,\n]");
}

fn linear_is_shown(rt: &impl Abort, alloc: Global) {
    let pool = Pool::<Vec<u8>>::with_recycler_within(alloc, 2).expect(rt, "a pool is made");
    let pool = Arc::new(alloc, pool).expect(rt, "memory is left");
    item_is_shown(rt, alloc, pool.pull());
    item_is_shown(rt, alloc, pool.pull_owned());
    let plain = "LinearObjectPool { limit: Some(2), .. }";
    let pretty = "LinearObjectPool {\n    limit: Some(\n        2,\n    ),\n    ..\n}";
    shows(rt, alloc, &*pool, plain, pretty);
}

fn fixed_is_shown(rt: &impl Abort, alloc: Global) {
    let pool = FixedPool::<Vec<u8>>::with_recycler(alloc, 33).expect(rt, "a pool is made");
    let pool = Arc::new(alloc, pool).expect(rt, "memory is left");
    item_is_shown(rt, alloc, pool.pull());
    item_is_shown(rt, alloc, pool.pull_owned());
    let plain = "FixedObjectPool { items: 33, .. }";
    let pretty = "FixedObjectPool {\n    items: 33,\n    ..\n}";
    shows(rt, alloc, &*pool, plain, pretty);
}

#[test]
fn each_pool_that_never_waits_is_shown(rt: HostRuntime) {
    linear_is_shown(&rt, rt.alloc());
    fixed_is_shown(&rt, rt.alloc());
}

fn lazy_is_shown(rt: &impl Abort, alloc: Global) {
    let pool = LazyPool::<Vec<u8>>::with_recycler(alloc, 3).expect(rt, "a pool is made");
    let pool = Arc::new(alloc, pool).expect(rt, "memory is left");
    item_is_shown(rt, alloc, pool.pull());
    item_is_shown(rt, alloc, pool.pull_owned());
    let plain = "LazyObjectPool { items: 3, made: 1, .. }";
    let pretty = "LazyObjectPool {\n    items: 3,\n    made: 1,\n    ..\n}";
    shows(rt, alloc, &*pool, plain, pretty);
}

fn buffer_pool_is_shown(rt: &impl Abort, alloc: Global) {
    let init = WithCapacity::new(alloc, 0);
    let pool = BufferPool::new(alloc, init, Clear, 1).expect(rt, "a pool is made");
    let mut buffer = pool.pull().expect(rt, "a buffer is free");
    buffer.append(&[5]).expect(rt, "memory is left");
    shows(rt, alloc, &buffer, "[5]", "[\n    5,\n]");
    let plain = "BufferPool { pool: LinearObjectPool { limit: Some(1), .. } }";
    let pretty =
        "BufferPool {\n    pool: LinearObjectPool {\n        limit: Some(\n            1,\n        ),\n        ..\n    },\n}";
    shows(rt, alloc, &pool, plain, pretty);
}

#[test]
fn each_other_pool_is_shown(rt: HostRuntime) {
    let alloc = rt.alloc();
    lazy_is_shown(&rt, alloc);
    buffer_pool_is_shown(&rt, alloc);
    let pool = NoneObjectPool::new(|| Some(Vec::<u8>::new(alloc)));
    item_is_shown(&rt, alloc, pool.pull());
    let text = "NoneObjectPool { .. }";
    shows(&rt, alloc, &pool, text, text);
}

/// A mutex pool or a spin lock pool, by its free list, and what it keeps.
type Stack<F> = StackObjectPool<Vec<u8>, Recycler, Recycler, Recycler, F>;

type Recycled = MadeOrReset<Recycler, Recycler, Recycler>;

/// As `item_is_shown`, of an item of a stack pool. Where its proof names no pool, it is short.
fn stack_item_is_shown<P: SharedStackPool<Vec<u8>>, W: Abort + Wait + Copy>(
    rt: &W,
    alloc: Global,
    pulled: Result<StackReusable<Vec<u8>, P, W>, PullError>,
) {
    item_is_shown(rt, alloc, pulled);
}

/// The items of a stack pool are shown. The pool, in which they are.
fn stack_items_are_shown<F: FreeList<Vec<u8>, Recycled>, W: Abort + Wait + Copy>(
    rt: &W,
    alloc: Global,
    pool: Stack<F>,
) -> Arc<Stack<F>> {
    let pool = Arc::new(alloc, pool).expect(rt, "memory is left");
    stack_item_is_shown(rt, alloc, pool.pull(rt));
    stack_item_is_shown(rt, alloc, pool.pull_owned(rt));
    pool
}

/// Beside the pools, a guard of a spin lock shows the value that is written to it.
#[test]
fn each_pool_that_waits_is_shown(rt: HostRuntime) {
    let alloc = rt.alloc();
    let pool = stack_items_are_shown(&rt, alloc, MutexPool::with_recycler(alloc));
    let text = "MutexObjectPool { .. }";
    shows(&rt, alloc, &*pool, text, text);
    let pool = SpinLockPool::with_recycler(alloc).expect(&rt, "a pool is made");
    let pool = stack_items_are_shown(&rt, alloc, pool);
    let text = "SpinLockObjectPool { .. }";
    shows(&rt, alloc, &*pool, text, text);
    let lock = SpinLock::new(alloc, Vec::<u8>::new(alloc)).expect(&rt, "memory is left");
    item_is_shown(&rt, alloc, Ok(lock.lock(&rt)));
}

/// As the limits of one page and of two above.
#[test]
fn each_limit_is_shown(rt: HostRuntime) {
    let alloc = rt.alloc();
    let most = Pool::<Vec<u8>>::with_recycler_within(alloc, usize::MAX);
    let text = "LinearObjectPool { limit: Some(18446744073709551615), .. }";
    assert_shown(&rt, alloc, &most.expect(&rt, "a pool is made"), text);
    let pool = Pool::<Vec<u8>>::with_recycler(alloc).expect(&rt, "a pool is made");
    assert_shown(&rt, alloc, &pool, "LinearObjectPool { limit: None, .. }");
}

/// A copy, by its type's own call, is shown as what was copied.
fn is_copied<T: Clone + Debug + Drop>(rt: &impl Abort, alloc: Global, value: &T, text: &str) {
    let copy = value.clone().expect(rt, "memory is left");
    let told = format!(in alloc; "{copy:?}").expect(rt, "memory is left");
    assert!(*rt; told.as_str().starts_with(text));
}

#[test]
fn what_makes_and_resets_is_copied_and_shown(rt: HostRuntime) {
    let alloc = rt.alloc();
    is_copied(&rt, alloc, &AnyValue, "AnyValue");
    is_copied(&rt, alloc, &Empty, "Empty");
    is_copied(&rt, alloc, &Keep, "Keep");
    is_copied(&rt, alloc, &Clear, "Clear");
    is_copied(&rt, alloc, &WithCapacity::new(alloc, 7), "WithCapacity");
    is_copied(&rt, alloc, &Recycler::new(alloc), "Recycler");
}

/// Each of these values has a place of its own in a set, and words of its own.
fn have_their_hash_and_words<T: Eq + Hash + Display + Debug + Copy + Drop>(
    rt: &impl Abort,
    alloc: Global,
    values: &[T],
    words: &str,
) {
    let mut set = HashSet::new(alloc);
    let mut told = String::new(alloc);
    for value in values {
        set.insert(*value).expect(rt, "memory is left");
        let copy = value.clone().expect(rt, "memory is left");
        set.insert(copy).expect(rt, "memory is left");
        let word = format!(in alloc; "{value:?}: {value}; ").expect(rt, "memory is left");
        told.push_str(word.as_str()).expect(rt, "memory is left");
    }
    assert_equal(rt, (set.len(), told.as_str()), (values.len(), words));
}

#[test]
fn different_causes_differ(rt: HostRuntime) {
    let alloc = rt.alloc();
    let causes = [PullError::Memory, PullError::Init, PullError::Limit];
    let words = "Memory: out of memory; Init: init gave no item; Limit: the pool is at its limit; ";
    have_their_hash_and_words(&rt, alloc, &causes, words);
    have_their_hash_and_words(&rt, alloc, &[RunError::Memory], "Memory: out of memory; ");
    let errors = [EngineError::Read, EngineError::Write, EngineError::Memory];
    let words = "Read: read failed; Write: write failed; Memory: out of memory; ";
    have_their_hash_and_words(&rt, alloc, &errors, words);
}

/// How many of these values are equal to this one.
fn equal_to<T: PartialEq>(pairs: &[[T; 2]], one: &T) -> usize {
    let mut equal = 0usize;
    for pair in pairs {
        for value in pair {
            equal = equal.saturating_add(usize::from(value == one));
        }
    }
    equal
}

/// Each of these values is equal to itself alone, and shown as no other is.
fn differ<T: PartialEq + Debug>(rt: &impl Abort, alloc: Global, pairs: &[[T; 2]]) {
    let mut texts = HashSet::new(alloc);
    for pair in pairs {
        for value in pair {
            assert_equal(rt, equal_to(pairs, value), 1);
            let text = format!(in alloc; "{value:?}").expect(rt, "memory is left");
            texts.insert(text).expect(rt, "memory is left");
        }
    }
    assert_equal(rt, texts.len(), pairs.len().saturating_mul(2));
}

const SEEN: [[Seen; 2]; 13] = [
    [Seen::Began(0), Seen::Began(1)],
    [Seen::Word(0, 1), Seen::Word(0, 2)],
    [Seen::Word(1, 1), Seen::MovedOut(0)],
    [Seen::Found(0, 1), Seen::Found(0, 2)],
    [Seen::Pulled(0, 1), Seen::Pulled(0, 2)],
    [Seen::Next(0, true), Seen::Next(0, false)],
    [Seen::Made(0), Seen::Made(1)],
    [Seen::Linked(0), Seen::Linked(1)],
    [Seen::Lost(0), Seen::Lost(1)],
    [Seen::Refused(0, PullError::Init), Seen::NotEnabled],
    [Seen::Refused(0, PullError::Limit), Seen::NoMemory],
    [Seen::Wrote(0), Seen::MovedHome(0)],
    [Seen::Returned(0, 1), Seen::Returned(0, 2)],
];

const REPLIES: [[Reply<u32>; 2]; 6] = [
    [Reply::Pulled(0, None), Reply::Pulled(0, Some(1))],
    [Reply::Pulled(1, None), Reply::NoSuchHolder],
    [Reply::Refused(PullError::Init), Reply::Written],
    [Reply::Refused(PullError::Limit), Reply::Returned],
    [Reply::Forgotten, Reply::Attached(0)],
    [
        Reply::AttachRefused(AttachError::Memory(1)),
        Reply::AttachRefused(AttachError::NotOffered(1)),
    ],
];

const COMMANDS: [[Command<u32>; 2]; 4] = [
    [Command::Write(0, 1), Command::Write(0, 2)],
    [Command::Write(1, 1), Command::Pull],
    [Command::Return(0), Command::Forget(0)],
    [Command::Attach(1), Command::Attach(2)],
];

#[test]
fn different_answers_differ(rt: HostRuntime) {
    let alloc = rt.alloc();
    differ(&rt, alloc, &SEEN);
    differ(&rt, alloc, &REPLIES);
    differ(&rt, alloc, &COMMANDS);
    let (one, two) = (Kind::Bounded(1), Kind::Bounded(2));
    differ(&rt, alloc, &[[one, two]]);
    let rest = [[Kind::Linear, Kind::Stack], [Kind::None, one]];
    differ(&rt, alloc, &rest);
    differ(&rt, alloc, &[[Reset::Zero, Reset::Keep]]);
}
