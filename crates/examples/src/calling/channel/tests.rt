//! Three letters that a thread reads.
use super::*;
use crate::assert_equal::assert_equal;

#[test]
fn a_thread_reads_three_letters(rt: HostRuntime) {
    assert_equal(&rt, send_three(&rt, rt.alloc()), Ok(15));
}
