//! Chains that are refused memory: nothing is linked in part, and what was refused can be asked for
//! again.
use super::*;
use crate::assert_equal::assert_equal;
use crate::zero::zero;
use test_values::again;

/// Holds with each request for memory refused in turn too: what was refused is asked for again.
#[test]
fn a_chain_goes_on_where_memory_was_refused(rt: HostRuntime) {
    let made = again!(Zeros::new(rt.alloc(), &zero));
    let chain = made.expect(&rt, "a chain is made");
    let first = chain.first();
    forget_all(&rt, &first);
    let linked = behind_full(&first, &zero).is_some();
    let led_on = first.next().is_some();
    let place = place_behind(&first, &zero);
    assert_equal(&rt, (led_on, place), (linked, Some((1, Some(0)))));
}
