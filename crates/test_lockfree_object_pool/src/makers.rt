//! What makes and resets the values of a pool: closures, ready-made ones, those of vectors, and types
//! that say it themselves. Where a value takes memory of its own and is refused it, what makes it is
//! asked once, and the pull is refused.
ghost use Rattle.std.specs.Prelude.{◌≡◌, ◌≤◌, [], ⊤, IfSome};

use crate::assert_equal::assert_equal;
use lockfree_object_pool::clean::{AnyValue, Clean, Empty};
use lockfree_object_pool::closures::{
    Clear, Copied, Init, InitBy, Keep, Kept, Makes, Reset, ResetBy, Resets, WithCapacity,
};
use lockfree_object_pool::recycling::{
    FixedPool, LazyPool, MutexPool, Pool, Recyclable, SpinLockPool,
};
use lockfree_object_pool::{MutexObjectPool, PullError};
use rows::asked_again;
use rows::refusals::Refusals;
use std::alloc::Global;
use std::cell::Cell;
use std::sync::Arc;
use std::sync::atomic::AtomicUsize;
use std::sync::atomic::Ordering::SeqCst;
use test_values::sizes::SIZES;
use test_values::tallied::Tallied;
use test_values::tally::{Tally, new_tally};

/// What a maker by a closure answers twice.
fn answers_of<I: InitBy<u32>>(init: I) -> [Option<u32>; 2]
    requires { I.may_make init }
{
    let maker = Makes::<u32, I, AnyValue>::new(init);
    [maker.make(), maker.make()]
}

/// What a reset leaves of 7, exactly.
fn left_of_seven<R: Reset<u32, AnyValue>>(reset: &R) -> u32
    ensures { R.leaves reset.now 7 result }
{
    let mut value = 7;
    reset.reset(&mut value);
    value
}

/// What a closure leaves of 7, exactly.
fn left_by<R: ResetBy<u32>>(reset: R) -> u32
    requires { R.may_reset reset }
    ensures { R.resets reset 7 result }
{
    left_of_seven(&Resets::<u32, R, AnyValue>::new(reset))
}

/// What a reset that keeps, one that copies a 3, and a closure leave of 7.
fn left_by_each() -> (u32, u32, u32)
    ensures kept { result.0 ≡ 7 }
    ensures copied { result.1 ≡ 3 }
    ensures by_closure { result.2 ≡ 9 }
{
    let three = Copied::<u32, AnyValue>::new(3);
    let nine = left_by(|value: &mut u32| *value = 9);
    (left_of_seven(&Keep), left_of_seven(&three), nine)
}

/// Each closure is called once, also where it refuses.
#[test]
fn bare_closures(rt: HostRuntime) {
    let calls = Cell::new(0u32);
    let answers = answers_of(|| {
        calls.set(calls.get().saturating_add(1));
        (calls.get() == 1).then_some(5)
    });
    assert_equal(&rt, (answers, calls.get()), ([Some(5), None], 2));
    let left = left_by(|value: &mut u32| {
        calls.set(calls.get().saturating_add(1));
        *value = 9;
    });
    assert_equal(&rt, (left, calls.get()), (9, 3));
}

#[derive(Clone, Copy)]
struct Percent {
    value: u8,
    ghost in_range: { value ≤ 100 },
}

/// The part is at most the whole, as that of each `Percent` is.
struct AtMostWhole;

impl Clean<Percent> for AtMostWhole {
    ghost meets = { λ percent. percent.value ≤ 100 };
}

/// A reset that keeps a value keeps the condition, where each value of the type meets it.
fn kept_part(mut percent: Percent) -> u8
    ensures kept { result ≡ percent.value }
    ensures meets { result ≤ 100 }
{
    Kept::<Percent, AtMostWhole>::new().reset(&mut percent);
    percent.value
}

#[test]
fn ready_ones(rt: HostRuntime) {
    assert_equal(&rt, left_by_each(), (7, 3, 9));
    assert_equal(&rt, kept_part(Percent { value: 70 }), 70);
}

/// The greatest number of values that a test has time to put into a vector.
const MOST_IN_VECTOR: usize = 65_537;

/// A vector with room for so many items, with as many tallied values as a test has time for.
fn filled(alloc: Global, tally: &Arc<Tally>, count: usize) -> Option<Vec<Tallied>> {
    let mut values: Vec<Tallied> = WithCapacity::new(alloc, count).make()?;
    if values.capacity() != count {
        return None;
    }
    for _ in 0..count.min(MOST_IN_VECTOR) {
        values.push(Tallied::new(tally)?).ok()?;
    }
    Some(values)
}

/// A vector has room for as many items as are asked for, and a reset drops each of them and keeps
/// their room.
#[test]
fn vectors_of_each_length_are_made_and_cleared(rt: HostRuntime) {
    let tally = new_tally(rt.alloc()).expect(&rt, "memory is left");
    for count in (2..40).chain(SIZES) {
        let mut values = filled(rt.alloc(), &tally, count).expect(&rt, "room for each");
        assert_equal(&rt, tally.living(), count.min(MOST_IN_VECTOR));
        Clear.reset(&mut values);
        assert_equal(&rt, (tally.living(), values.capacity()), (0, count));
    }
}

/// How long a vector of a fixed pool is as it is pulled, which is then written.
fn use_once(pool: &FixedPool<Vec<u8>>) -> Option<usize>
    ensures { IfSome result (λ found. found ≡ 0) }
{
    let mut vector = pool.pull().ok()?;
    let found = vector.len();
    vector.push(5).ok()?;
    Some(found)
}

#[test]
fn each_use_of_a_fixed_pool_finds_the_vector_clean(rt: HostRuntime) {
    let pool = FixedPool::with_recycler(rt.alloc(), 1).expect(&rt, "a pool is made");
    for _ in 0..3 {
        assert_equal(&rt, use_once(&pool), Some(0));
    }
}

/// A vector or a text, which has a length and room.
trait Roomy: Recyclable + Drop {
    /// Returns its length and its room. Then makes room for so many bytes, and writes one.
    fn fill(&mut self, room: usize) -> Option<(usize, usize)>;
}

impl Roomy for Vec<u8> {
    fn fill(&mut self, room: usize) -> Option<(usize, usize)> {
        let found = (self.len(), self.capacity());
        self.reserve(room).ok()?;
        self.push(7).ok()?;
        Some(found)
    }
}

impl Roomy for String {
    fn fill(&mut self, room: usize) -> Option<(usize, usize)> {
        let found = (self.len(), self.capacity());
        self.reserve(room).ok()?;
        self.push_str("a").ok()?;
        Some(found)
    }
}

/// Whether a pool's first item is made without length or room, and comes again without length and
/// with so much room as it was given. So it takes no memory before it is used.
fn comes_empty<T: Roomy>(alloc: Global, room: usize) -> Option<bool> {
    let pool = Pool::<T>::with_recycler(alloc).ok()?;
    let made = pool.pull().ok()?.fill(room)?;
    let mut item = pool.pull().ok()?;
    let is_first = item.page_id() == 0;
    let (length, left) = item.fill(room)?;
    Some(is_first && made == (0, 0) && length == 0 && left >= room)
}

#[test]
fn vectors_and_texts_come_empty_with_their_room(rt: HostRuntime) {
    for room in [5, 100_000] {
        assert_equal(&rt, comes_empty::<Vec<u8>>(rt.alloc(), room), Some(true));
        assert_equal(&rt, comes_empty::<String>(rt.alloc(), room), Some(true));
    }
}

#[derive(Drop)]
struct Never;

impl Recyclable for Never {
    ghost is_clean = { λ _. ⊤ };

    fn make(_alloc: Global) -> Option<Never> {
        None
    }

    fn reset(&mut self) {}
}

#[test]
fn each_kind_of_pool_tells_that_a_recyclable_type_refused(rt: HostRuntime) {
    let alloc = rt.alloc();
    let init = Some(PullError::Init);
    let linear = Pool::<Never>::with_recycler(alloc).err();
    let bounded = Pool::<Never>::with_recycler_within(alloc, 2).err();
    let fixed = FixedPool::<Never>::with_recycler(alloc, 3).err();
    assert_equal(&rt, (linear, bounded, fixed), (init, init, init));
    let mutex = MutexPool::<Never>::with_recycler(alloc);
    assert_equal(&rt, mutex.pull(&rt).err(), init);
    let spin_lock = SpinLockPool::<Never>::with_recycler(alloc).expect(&rt, "a pool is made");
    assert_equal(&rt, spin_lock.pull(&rt).err(), init);
}

/// A value that adds its digit to a number when it is reset.
#[derive(Drop)]
struct Listed {
    list: Option<(Arc<AtomicUsize>, usize)>,
}

impl Recyclable for Listed {
    ghost is_clean = { λ _. ⊤ };

    fn make(_alloc: Global) -> Option<Listed> {
        Some(Listed { list: None })
    }

    fn reset(&mut self) {
        if let Some((list, digit)) = &self.list {
            let said = list.load(SeqCst).wrapping_mul(10);
            list.store(said.wrapping_add(*digit), SeqCst);
        }
    }
}

/// Lets the two values of a pair say 1 and 2 when they are reset, and returns it.
fn list_a_pair(pool: &Pool<(Listed, Listed)>, list: &Arc<AtomicUsize>) -> Option<()> {
    let mut pair = pool.pull().ok()?;
    pair.0.list = Some((Arc::try_clone(list).ok()?, 1));
    pair.1.list = Some((Arc::try_clone(list).ok()?, 2));
    Some(())
}

/// Each value of a pair is reset once a return, and keeps its place.
#[test]
fn a_pair_resets_its_first_value_first(rt: HostRuntime) {
    let list = Arc::new(rt.alloc(), AtomicUsize::new(0)).expect(&rt, "memory is left");
    let pool = Pool::with_recycler(rt.alloc()).expect(&rt, "a pool is made");
    assert!(rt; list_a_pair(&pool, &list).is_some());
    for expected in [1212, 121212] {
        drop(pool.pull().expect(&rt, "an item is free"));
        assert_equal(&rt, list.load(SeqCst), expected);
    }
}

/// How many tallied values live while an item holds one in each of its parts, and when it has come
/// back.
fn living_in_an_item(alloc: Global, tally: &Arc<Tally>) -> Option<(usize, usize)> {
    let pool = Pool::<(Option<Tallied>, Vec<Tallied>)>::with_recycler(alloc).ok()?;
    let mut item = pool.pull().ok()?;
    item.0 = Some(Tallied::new(tally)?);
    item.1.push(Tallied::new(tally)?).ok()?;
    let living = tally.living();
    drop(item);
    Some((living, tally.living()))
}

#[test]
fn what_a_recyclable_value_holds_is_dropped_at_its_return(rt: HostRuntime) {
    let tally = new_tally(rt.alloc()).expect(&rt, "memory is left");
    assert_equal(&rt, living_in_an_item(rt.alloc(), &tally), Some((2, 0)));
}

/// A sheet that has its room from the start.
#[derive(Drop)]
struct Sheet {
    letters: Vec<u8>,
}

impl Recyclable for Sheet {
    ghost is_clean = { λ sheet. sheet.letters.items ≡ [] };

    fn make(alloc: Global) -> Option<Sheet> {
        let letters = Vec::with_capacity(alloc, 16).ok()?;
        Some(Sheet { letters })
    }

    fn reset(&mut self) {
        self.letters.clear();
    }
}

/// What was pulled. A refusal by what makes the value is told as `Memory`, as that of the room for
/// its return is.
fn told<X: Drop>(pulled: Result<X, PullError>) -> Result<X, PullError> {
    match pulled {
        Err(PullError::Init) => Err(PullError::Memory),
        pulled => pulled,
    }
}

/// A refusal that the maker hides is missed between those of the rooms.
#[test]
fn vectors_with_room_come_again_where_memory_was_refused(rt: HostRuntime) {
    let (alloc, refusals) = (rt.alloc(), Refusals::new());
    let init = WithCapacity::new(alloc, 16);
    let pool: MutexObjectPool<Vec<u8>, _, _, Empty> = MutexObjectPool::new(alloc, init, Clear);
    let first = asked_again!(&rt, refusals, told(pool.pull(&rt)));
    let second = asked_again!(&rt, refusals, told(pool.pull(&rt)));
    assert_equal(&rt, (first.len(), second.len()), (0, 0));
    refusals.tell(&rt);
}

fn lazy_pool(alloc: Global) -> Result<Arc<LazyPool<Sheet>>, PullError> {
    Ok(Arc::new(alloc, LazyPool::with_recycler(alloc, 33)?)?)
}

/// After a refusal the place is empty, and is pulled again.
#[test]
fn recyclable_values_with_room_come_again_where_memory_was_refused(rt: HostRuntime) {
    let refusals = Refusals::new();
    let pool = asked_again!(&rt, refusals, lazy_pool(rt.alloc()));
    let first = asked_again!(&rt, refusals, told(pool.pull()));
    let second = asked_again!(&rt, refusals, told(pool.pull_owned()));
    let third = asked_again!(&rt, refusals, told(pool.pull_wait(&rt)));
    asked_again!(&rt, refusals, told(pool.fill(4)));
    let numbers = (first.number(), second.number(), third.number());
    assert_equal(&rt, (numbers, pool.made()), ((0, 1, 2), 4));
    refusals.tell(&rt);
}
