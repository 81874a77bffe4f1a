//! A basket that comes again.
use super::*;
use crate::assert_equal::assert_equal;

#[test]
fn a_basket_comes_again_without_its_price(rt: HostRuntime) {
    assert_equal(&rt, none_left(rt.alloc()), Ok(0));
}
