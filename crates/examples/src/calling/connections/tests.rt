//! Seven connections, of which two are made beforehand.
use super::*;
use crate::assert_equal::assert_equal;

#[test]
fn four_threads_send_by_seven_connections(rt: HostRuntime) {
    assert_equal(&rt, senders(&rt, rt.alloc()), Ok(4));
}

#[test]
fn two_connections_are_made_beforehand(rt: HostRuntime) {
    let connections = new_connections(rt.alloc()).expect(&rt, "a pool is made");
    let made = connections.made();
    let sent = send(&rt, &connections, b"hello");
    assert_equal(&rt, (made, sent, connections.made()), (2, Ok(true), 2));
}
