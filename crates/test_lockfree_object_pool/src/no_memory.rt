//! Calls that ask for no memory, of a lazy pool and of the parts of pools and cores.
//!
//! Each test prints when it has all that it needs. `ci/refuse_memory` refuses each of its requests
//! in turn, and fails where one comes after that line. Before it, a request that is refused ends
//! the test. `ci/no_memory_calls` finds a call of `ci/calls_without_memory` that no test makes.
use crate::assert_equal::assert_equal;
use crate::kinds::{Lazy, Linear, Stack};
use lockfree_object_pool::clean::AnyValue;
use lockfree_object_pool::closures::{Clear, Init, WithCapacity};
use lockfree_object_pool::linear_page::Chain;
use lockfree_object_pool::page::{
    Allocated, Page, PageId, PullPass, has_bit, take_least, with_bit, without_bit,
};
use object_pool_cores::buffers::{self, BufferPool};
use object_pool_cores::interleave::{Event, Prepared, Seen, World};
use object_pool_cores::sequential::{Command, CorePage, NoneCore, Player, SequentialPool};
use rows::setting::{Makes, Resets, Setting, function_objects};
use std::alloc::Global;
use std::process::Abort;
use std::sync::{Arc, Wait};
use std::time::{Clock, Duration};
use test_values::counted::NEVER;
use test_values::tallied::Tallied;

/// Prints that no memory is asked for from here on.
fn is_ready(rt: &(impl Abort + Print)) {
    let told = println!(rt; "from here on no memory is asked for");
    told.expect(rt, "standard output is there");
}

/// What is made before a test is ready. If it isn't there, the test ends.
macro_rules! got {
    ($made:expr) => {
        match $made {
            Some(made) => made,
            None => return,
        }
    };
}

/// What makes and resets values.
fn parts(alloc: Global) -> Option<(Makes, Resets)> {
    function_objects(&Setting::new(alloc, NEVER).ok()?).ok()
}

fn new_lazy(alloc: Global) -> Option<Arc<Lazy>> {
    let (init, reset) = parts(alloc)?;
    Arc::new(alloc, Lazy::new(alloc, init, reset, 96).ok()?).ok()
}

/// Pulls of a lazy pool, of which some may wait, and values that leave it.
fn pull_lazy<R: Wait + Clock>(rt: &R, pool: &Arc<Lazy>) -> Option<()> {
    let pass = PullPass::new();
    pool.fill(2).ok()?;
    drop(pool.near().pull().ok()?);
    drop(pool.try_pull(&pass).ok()?);
    drop(pool.pull_owned().ok()?);
    drop(pool.pull_wait(rt).ok()?);
    drop(pool.pull_timeout(rt, Duration::from_millis(1)).ok()?);
    pool.pull().ok()?.discard();
    drop(pool.pull().ok()?.detach());
    Some(())
}

/// What is told of an item of a lazy pool.
fn told_of_lazy(pool: &Lazy) -> Option<(usize, usize, PageId)> {
    let mut item = pool.pull().ok()?;
    let mut note = pool.note();
    pool.tell(&mut note, item.witness());
    let place = (item.number(), item.page_number(), item.page_id());
    drop(item.give_back());
    Some(place)
}

#[test]
fn calls_of_a_lazy_pool_ask_for_no_memory(rt: HostRuntime) {
    let pool = got!(new_lazy(rt.alloc()));
    is_ready(&rt);
    assert_equal(&rt, pull_lazy(&rt, &pool), Some(()));
    assert_equal(&rt, told_of_lazy(&pool), Some((0, 0, 0)));
    assert_equal(&rt, (pool.items(), pool.made(), pool.in_use()), (96, 2, 0));
}

/// Makes the values of pages and of chains.
fn new_seven() -> Option<u64> {
    Some(7)
}

/// A slot of a page is freed and pulled again, by a note, and then an owned one.
fn use_slots(page: &Arc<Page<u64, AnyValue>>) -> Option<u64> {
    let pass = PullPass::default();
    let mut slot = page.alloc().ok()??;
    let mut note = page.note();
    page.tell(&mut note, slot.witness());
    let first = u64::from(slot.id());
    drop(Page::free(slot));
    let Allocated::Slot(again) = page.try_alloc_from(&pass, note).ok()? else {
        return None;
    };
    let Allocated::Slot(other) = page.try_alloc(&pass).ok()? else {
        return None;
    };
    drop(other.into_owned(Arc::try_clone(page).ok()?).free());
    Some(first + u64::from(again.id()))
}

#[test]
fn calls_of_a_page_ask_for_no_memory(rt: HostRuntime) {
    let page = got!(Page::new(rt.alloc(), &new_seven).ok());
    let page = got!(Arc::new(rt.alloc(), page).ok());
    is_ready(&rt);
    let found = (use_slots(&page), page.is_full(), page.get_mask());
    assert_equal(&rt, found, (Some(0), false, u32::MAX - 1));
}

#[test]
fn calls_of_a_chain_ask_for_no_memory(rt: HostRuntime) {
    let chain = got!(Chain::<u64, AnyValue>::new(rt.alloc(), &new_seven).ok());
    is_ready(&rt);
    let first = chain.first();
    let found = (first.number(), first.page().get_mask());
    assert_equal(&rt, (found, first.next().is_none()), ((0, u32::MAX), true));
}

#[test]
fn calls_of_words_ask_for_no_memory(rt: HostRuntime) {
    is_ready(&rt);
    let bits = (with_bit(6, 0), without_bit(6, 1), has_bit(6, 1));
    assert_equal(&rt, (take_least(6), bits), (Some((4, 1)), (7, 4, true)));
}

#[test]
fn calls_of_a_core_page_ask_for_no_memory(rt: HostRuntime) {
    let mut page = got!(CorePage::<u64, AnyValue>::new(rt.alloc(), &new_seven).ok());
    is_ready(&rt);
    let (id, value) = page.alloc().expect(&rt, "each item is free");
    let is_out = page.is_out(id);
    page.free(id, value);
    let found = (is_out, page.is_full(), page.get_mask());
    assert_equal(&rt, found, (true, false, u32::MAX));
}

/// An item of a core is pulled and returned. Its number.
fn use_core<P: SequentialPool<Tallied>>(core: &mut P) -> Option<Option<u128>> {
    let item = core.pull().ok()?;
    let number = item.number();
    if core.is_mine(&item) {
        core.give(item);
    }
    Some(number)
}

#[test]
fn calls_of_a_linear_core_ask_for_no_memory(rt: HostRuntime) {
    let (init, reset) = got!(parts(rt.alloc()));
    let mut core = got!(Linear::new(rt.alloc(), init, reset).ok());
    is_ready(&rt);
    assert_equal(&rt, use_core(&mut core), Some(Some(0)));
    let found = (core.limit(), core.pages(), core.pages_looked());
    assert_equal(&rt, found, (None, 1, 1));
}

#[test]
fn calls_of_a_stack_core_ask_for_no_memory(rt: HostRuntime) {
    let (init, reset) = got!(parts(rt.alloc()));
    let mut core = Stack::new(rt.alloc(), init, reset);
    got!(use_core(&mut core));
    is_ready(&rt);
    assert_equal(&rt, use_core(&mut core), Some(None));
}

/// What opens without memory, and is used until it would take some.
fn open_all(alloc: Global, setting: &Arc<Setting>) -> Option<()> {
    let (init, reset) = function_objects(setting).ok()?;
    drop(Player::new(alloc, Stack::new(alloc, init, reset)));
    let (init, _) = function_objects(setting).ok()?;
    let mut core = NoneCore::<Tallied, Makes>::new(init);
    use_core(&mut core)?.is_none().then_some(())
}

#[test]
fn openings_without_items_and_calls_of_a_none_core_ask_for_no_memory(rt: HostRuntime) {
    let setting = got!(Setting::new(rt.alloc(), NEVER).ok());
    is_ready(&rt);
    assert_equal(&rt, open_all(rt.alloc(), &setting), Some(()));
    assert_equal(&rt, Arc::strong_count(&setting), 1);
}

/// A player that holds two items.
fn player_of_two(alloc: Global, setting: &Arc<Setting>) -> Option<Player<Tallied, Stack>> {
    let (init, reset) = function_objects(setting).ok()?;
    let mut player = Player::new(alloc, Stack::new(alloc, init, reset));
    player.play(Command::Pull).ok()?;
    player.play(Command::Pull).ok()?;
    player.held(1)?;
    Some(player)
}

#[test]
fn calls_of_a_player_ask_for_no_memory(rt: HostRuntime) {
    let setting = got!(Setting::new(rt.alloc(), NEVER).ok());
    let mut player = got!(player_of_two(rt.alloc(), &setting));
    is_ready(&rt);
    let value = Tallied::new(&setting.tally).expect(&rt, "few own the tally");
    assert!(rt; player.play(Command::Write(0, value)).is_ok());
    assert!(rt; player.play(Command::Return(0)).is_ok());
    assert!(rt; player.play(Command::Forget(1)).is_ok());
    assert_equal(&rt, player.held(0).is_none(), true);
}

/// A world with one agent, which has begun.
fn world_of_one(alloc: Global, setting: &Arc<Setting>) -> Option<World<Tallied, Resets>> {
    let (init, reset) = function_objects(setting).ok()?;
    let first = Prepared::make(alloc, &|| init.make()).ok()?;
    let mut world = World::new(alloc, first, reset).ok()?;
    matches!(world.step(Event::Begin), Seen::Began(_)).then_some(world)
}

#[test]
fn calls_of_a_world_ask_for_no_memory(rt: HostRuntime) {
    let setting = got!(Setting::new(rt.alloc(), NEVER).ok());
    let mut world = got!(world_of_one(rt.alloc(), &setting));
    is_ready(&rt);
    let value = Tallied::new(&setting.tally).expect(&rt, "few own the tally");
    world.step(Event::ReadMask(0));
    world.step(Event::ClearBit(0));
    world.step(Event::MoveOut(0));
    world.step(Event::Write(0, value));
    assert_equal(&rt, world.held(0).is_some(), true);
    world.step(Event::MoveHome(0));
    world.step(Event::OrMask(0));
    assert_equal(&rt, world.place(0, 0).is_some(), true);
    let found = (world.word(0), world.pages(), world.limit());
    assert_equal(&rt, found, (Some(u32::MAX), 1, None));
}

#[test]
fn calls_of_a_buffer_ask_for_no_memory(rt: HostRuntime) {
    let alloc = rt.alloc();
    let pool = got!(BufferPool::new(alloc, WithCapacity::new(alloc, 8), Clear, 1).ok());
    let mut bytes = got!(buffers::fresh(alloc, 8));
    is_ready(&rt);
    buffers::clear(&mut bytes);
    let mut buffer = pool.pull().expect(&rt, "a buffer is free");
    buffer.append(&[5]).expect(&rt, "there is room");
    assert_equal(&rt, buffer.as_slice(), [5].as_slice());
    assert_equal(&rt, (buffer.page_number(), buffer.page_id()), (0, 0));
}
