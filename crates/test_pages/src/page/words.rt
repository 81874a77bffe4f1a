//! The steps of a page's word: its lowest free item, and one bit that is set or cleared.
use crate::assert_equal::assert_equal;
use pool_parts::page::{take_least, with_bit, without_bit};

#[test]
fn takes_the_least_set_bit(rt: HostRuntime) {
    for (word, expected) in [
        (0, None),
        (4294967295, Some((4294967294, 0))),
        (2147483648, Some((0, 31))),
        (40, Some((32, 3))),
    ] {
        assert_equal(&rt, take_least(word), expected);
    }
}

#[test]
fn sets_and_clears_one_bit(rt: HostRuntime) {
    for word in [32, 40] {
        assert_equal(&rt, (with_bit(word, 3), without_bit(word, 3)), (40, 32));
    }
}
