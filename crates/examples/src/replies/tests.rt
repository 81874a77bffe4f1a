//! Replies to many names, by threads that share one page of buffers.
use super::*;
use crate::assert_equal::assert_equal;
use crate::home::all_went_well;
use std::sync::Arc;
use std::{mem, thread};

/// Whether a hundred greetings were as they should be.
fn greet_often(alloc: Global, replies: &Replies, name: &[u8], expected: &[u8]) -> bool {
    for _ in 0..100 {
        match greeting(alloc, replies, name) {
            Ok(reply) if reply.as_slice() == expected => {}
            _ => return false,
        }
    }
    true
}

#[test]
fn threads_greet_each_by_its_name(rt: HostRuntime) {
    let alloc = rt.alloc();
    let replies = Arc::new(alloc, new_replies(alloc, 16).expect(&rt, "memory is left")).expect(
        &rt,
        "memory is left",
    );
    let names: [(&'static [u8], &'static [u8]); 3] = [
        (b"Ada", b"hello, Ada\n"),
        (b"Grace Hopper", b"hello, Grace Hopper\n"),
        (b"", b"hello, \n"),
    ];
    let mut threads = Vec::with_capacity(alloc, 3).expect(&rt, "memory is left");
    for (name, expected) in names {
        let replies = Arc::try_clone(&replies).expect(&rt, "memory is left");
        let thread = thread::spawn(&rt, move || greet_often(alloc, &replies, name, expected));
        threads
            .push(thread.expect(&rt, "a thread is made"))
            .expect(&rt, "memory is left");
    }
    assert!(rt; all_went_well(&rt, threads));
}

/// How many buffers are home. Each is taken out for good, so that it takes no memory to hold them.
fn take_all_buffers(replies: &Replies) -> usize {
    for taken in 0..1_000 {
        match replies.pull() {
            Ok(buffer) => mem::forget(buffer),
            Err(_) => return taken,
        }
    }
    1_000
}

#[test]
fn a_page_of_replies_is_all_there_is(rt: HostRuntime) {
    let replies = new_replies(rt.alloc(), 16).expect(&rt, "memory is left");
    for _ in 0..31 {
        mem::forget(replies.pull().expect(&rt, "an item is free"));
    }
    let last = greeting(rt.alloc(), &replies, b"Ada").expect(&rt, "a buffer is free");
    assert_equal(&rt, last.as_slice(), b"hello, Ada\n".as_slice());
    assert_equal(&rt, take_all_buffers(&replies), 1);
    let refused = greeting(rt.alloc(), &replies, b"Ada").err();
    assert_equal(&rt, refused, Some(PullError::Limit));
}

/// Whether a name of so many bytes is greeted a hundred times, which is more often than a page has
/// buffers.
fn greet_at_length(alloc: Global, replies: &Replies, len: usize) -> Result<bool, PullError> {
    let name = vec![in alloc; b'a'; len]?;
    let mut expected = Vec::from_slice(alloc, b"hello, ")?;
    expected.extend_from_slice(&name)?;
    expected.push(b'\n')?;
    Ok(greet_often(alloc, replies, &name, &expected))
}

#[test]
fn names_of_any_length_are_greeted_and_their_buffers_come_home(rt: HostRuntime) {
    let replies = new_replies(rt.alloc(), 16).expect(&rt, "memory is left");
    for len in [0, 1, 5_000, 8_193, 70_000] {
        assert!(rt;
            greet_at_length(rt.alloc(), &replies, len).expect(&rt, "nothing is refused"),
            "a name of {len} bytes"
        );
    }
}

#[test]
fn more_room_than_there_is_memory_is_refused(rt: HostRuntime) {
    let refused = new_replies(rt.alloc(), usize::MAX).err();
    assert_equal(&rt, refused, Some(PullError::Init));
}

#[test]
fn a_name_may_begin_with_any_byte(rt: HostRuntime) {
    let replies = new_replies(rt.alloc(), 16).expect(&rt, "memory is left");
    for byte in 0..=u8::MAX {
        let reply = greeting(rt.alloc(), &replies, &[byte, b'a']).expect(&rt, "nothing is refused");
        let expected = [b'h', b'e', b'l', b'l', b'o', b',', b' ', byte, b'a', b'\n'];
        assert_equal(&rt, reply.as_slice(), expected.as_slice());
    }
}

/// Whichever request is refused, a greeting is whole or refused for memory, and each buffer comes
/// home.
#[test]
fn buffers_come_home_where_memory_was_refused(rt: HostRuntime) {
    let Ok(replies) = new_replies(rt.alloc(), 0) else {
        return;
    };
    for _ in 0..2 {
        match greeting(rt.alloc(), &replies, b"Ada") {
            Ok(reply) => assert_equal(&rt, reply.as_slice(), b"hello, Ada\n".as_slice()),
            Err(cause) => assert_equal(&rt, cause, PullError::Memory),
        }
    }
    assert_equal(&rt, take_all_buffers(&replies), 32);
}
