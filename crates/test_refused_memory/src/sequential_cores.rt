//! Pools of one owner: what is refused changes nothing, and can be asked for again.
use crate::assert_equal::assert_equal;
use crate::refusals::{Refusals, again};
use lockfree_object_pool::PullError;
use lockfree_object_pool::clean::AnyValue;
use lockfree_object_pool::closures::Keep;
use object_pool_cores::sequential::{
    AttachError, CorePage, Item, LinearCore, NoneCore, SequentialPool, StackCore,
};
use std::alloc::Global;
use std::process::Abort;
use std::sync::Arc;
use test_values::tallied::{Tallied, TalliedValues};
use test_values::tally::Tally;

type Linear = LinearCore<Tallied, TalliedValues, Keep, AnyValue>;

type Stack = StackCore<Tallied, TalliedValues, Keep, AnyValue>;

fn page(alloc: Global, tally: &Arc<Tally>) -> Result<CorePage<Tallied, AnyValue>, PullError> {
    CorePage::new(alloc, &|| Tallied::new(tally))
}

#[test]
fn a_page_that_was_refused_is_asked_again(rt: HostRuntime) {
    let refusals = Refusals::new();
    let tally = refusals.tally(&rt);
    let page = again!(&rt, refusals, page(rt.alloc(), &tally));
    assert_equal(&rt, (page.get_mask(), tally.living()), (u32::MAX, 32));
    refusals.tell(&rt);
}

fn unbounded(alloc: Global, tally: &Arc<Tally>) -> Result<Linear, PullError> {
    LinearCore::new(alloc, TalliedValues::new(tally)?, Keep)
}

fn bounded(alloc: Global, tally: &Arc<Tally>) -> Result<Linear, PullError> {
    LinearCore::with_limit(alloc, TalliedValues::new(tally)?, Keep, 2)
}

/// Takes all items of the first page out for good, and one item of the second page.
fn grows(rt: &impl Abort, refusals: &Refusals, core: &mut Linear, tally: &Tally) {
    assert_equal(rt, tally.living(), 32);
    for _ in 0..32 {
        drop(core.pull().expect(rt, "32 items are free"));
    }
    let mut item = core.pull();
    if refusals.are_told_by(&item) {
        assert_equal(rt, (core.pages(), tally.living()), (1, 0));
        item = core.pull();
    }
    let item = item.expect(rt, "one request alone is refused");
    assert_equal(rt, item.number(), Some(32));
    assert_equal(rt, (core.pages(), tally.living()), (2, 32));
}

#[test]
fn a_linear_pull_that_was_refused_is_asked_again(rt: HostRuntime) {
    let refusals = Refusals::new();
    let tally = refusals.tally(&rt);
    let mut core = again!(&rt, refusals, unbounded(rt.alloc(), &tally));
    grows(&rt, &refusals, &mut core, &tally);
    drop(core);
    let tally = refusals.tally(&rt);
    let mut core = again!(&rt, refusals, bounded(rt.alloc(), &tally));
    grows(&rt, &refusals, &mut core, &tally);
    refusals.tell(&rt);
}

fn stack(rt: &impl Abort, alloc: Global, tally: &Arc<Tally>) -> Stack {
    let init = TalliedValues::new(tally).expect(rt, "an owner takes no memory");
    StackCore::new(alloc, init, Keep)
}

/// Gives an item back, which is the pool's own, and pulls it again.
fn gives_again(rt: &impl Abort, core: &mut Stack, item: Item<Tallied>, tally: &Tally) {
    let is_mine = core.is_mine(&item);
    assert_equal(rt, is_mine, true);
    if is_mine {
        core.give(item);
    }
    let again = core.pull().expect(rt, "an item is kept").number;
    assert_equal(rt, (again, tally.made()), (0, 1));
}

#[test]
fn a_stack_pull_that_was_refused_is_asked_again(rt: HostRuntime) {
    let refusals = Refusals::new();
    let tally = refusals.tally(&rt);
    let mut core = stack(&rt, rt.alloc(), &tally);
    let mut item = core.pull();
    if refusals.are_told_by(&item) {
        assert_equal(&rt, tally.made(), 0);
        item = core.pull();
    }
    let item = item.expect(&rt, "one request alone is refused");
    gives_again(&rt, &mut core, item, &tally);
    refusals.tell(&rt);
}

#[test]
fn an_attached_value_comes_back(rt: HostRuntime) {
    let refusals = Refusals::new();
    let tally = refusals.tally(&rt);
    let mut core = stack(&rt, rt.alloc(), &tally);
    let value = Tallied::new(&tally).expect(&rt, "a value takes no memory");
    let attached = match core.attach(value) {
        Err(AttachError::Memory(back)) => {
            refusals.note();
            assert_equal(&rt, tally.living(), 1);
            core.attach(back)
        }
        answer => answer,
    };
    let item = attached.ok().expect(&rt, "one request alone is refused");
    gives_again(&rt, &mut core, item, &tally);
    refusals.tell(&rt);
}

#[test]
fn fresh_items_take_no_memory(rt: HostRuntime) {
    let refusals = Refusals::new();
    let tally = refusals.tally(&rt);
    let init = TalliedValues::new(&tally).expect(&rt, "an owner takes no memory");
    let mut core = NoneCore::new(init);
    for number in 0..3usize {
        let item = core.pull().expect(&rt, "an item takes no memory");
        assert_equal(&rt, item.number, number);
        core.give(item);
    }
    assert_equal(&rt, tally.living(), 0);
    refusals.tell(&rt);
}
