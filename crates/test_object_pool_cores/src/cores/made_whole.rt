//! Each call of `init` for a page may refuse: what was made is dropped then.
use super::opening::{Linear, Opens, refusing};
use crate::assert_equal::assert_equal;
use crate::values::{ends, made_tally};
use object_pool_cores::interleave::Prepared;
use object_pool_cores::sequential::{CorePage, SequentialPool};
use pool_parts::PullError;
use pool_parts::clean::AnyValue;
use std::alloc::Global;
use std::process::Abort;
use std::sync::Arc;
use test_values::tallied::Tallied;
use test_values::tally::Tally;

/// What is made of the answers to 32 calls of `init`.
trait Whole {
    /// Makes one whose `init` refuses at this call, counted from 0. Returns why it isn't made.
    fn refusal(alloc: Global, tally: &Arc<Tally>, refused: usize) -> Option<PullError>;
}

impl Whole for Linear {
    fn refusal(alloc: Global, tally: &Arc<Tally>, refused: usize) -> Option<PullError> {
        Linear::open(alloc, tally, refusing(refused)).err()
    }
}

impl Whole for CorePage<Tallied, AnyValue> {
    fn refusal(alloc: Global, tally: &Arc<Tally>, refused: usize) -> Option<PullError> {
        let made: Result<CorePage<Tallied, AnyValue>, PullError> = CorePage::new(
            alloc,
            &|| Tallied::new_but(tally, refused),
        );
        made.err()
    }
}

impl Whole for Prepared<Tallied> {
    fn refusal(alloc: Global, tally: &Arc<Tally>, refused: usize) -> Option<PullError> {
        Prepared::make(alloc, &|| Tallied::new_but(tally, refused)).err()
    }
}

/// Each of the 32 calls refuses once, and what was made before is dropped.
fn is_made_whole<M: Whole>(rt: &(impl Abort + AllocGlobal)) {
    for made in 0..32usize {
        let tally = made_tally(rt);
        let refusal = M::refusal(rt.alloc(), &tally, made);
        let wanted = (Some(PullError::Init), (made.saturating_add(1), made));
        assert_equal(rt, (refusal, tally.now()), wanted);
    }
}

#[test]
fn each_call_of_init_may_refuse_the_first_page(rt: HostRuntime) {
    is_made_whole::<Linear>(&rt);
}

#[test]
fn a_page_that_init_refuses_isnt_made(rt: HostRuntime) {
    is_made_whole::<CorePage<Tallied, AnyValue>>(&rt);
}

#[test]
fn a_page_is_made_whole_or_not_at_all(rt: HostRuntime) {
    is_made_whole::<Prepared<Tallied>>(&rt);
}

/// With a page held, the pull that is refused by this call of `init` for the next page, counted
/// from 0, drops what it made, and changes nothing else: the next pull makes that page.
fn second_page_refused(rt: &(impl Abort + AllocGlobal), made: usize) {
    let tally = made_tally(rt);
    let refused = made.saturating_add(32);
    let core = Linear::open(rt.alloc(), &tally, refusing(refused));
    let mut core = core.expect(rt, "a core is made");
    for _ in 0..32 {
        drop(core.pull().expect(rt, "an item is free"));
    }
    let told = (core.pull().err(), tally.now(), core.pages());
    let wanted = (
        Some(PullError::Init),
        (refused.saturating_add(1), refused),
        1,
    );
    assert_equal(rt, told, wanted);
    let next = core.pull().expect(rt, "an item is free");
    let told = (next.number(), tally.calls(), core.pages());
    assert_equal(rt, told, (Some(32), refused.saturating_add(33), 2));
    drop(next);
    ends(rt, core, &tally);
}

#[test]
fn each_call_of_init_may_refuse_the_second_page(rt: HostRuntime) {
    for made in 0..32usize {
        second_page_refused(&rt, made);
    }
}
