//! A writer and a reader in two threads. The pool has one page, so sheets that the reader dropped
//! are written on again.
use super::*;
use crate::assert_equal::assert_equal;
use crate::home::take_all;
use crossbeam_channel::{Receiver, Sender, unbounded};
use std::alloc::Global;
use std::process::Abort;
use std::sync::Wait;
use std::thread;

/// A thread that still waits after so many turns gives up, and its test fails.
const MOST_TURNS: u32 = 10_000_000;

const LETTERS: u8 = 200;

/// The next letter, where it comes within so many turns.
fn receive<W: Wait>(rt: &W, from: &Receiver<Letter>) -> Option<Letter> {
    for _ in 0..MOST_TURNS {
        if let Ok(letter) = from.try_recv(rt) {
            return Some(letter);
        }
        thread::yield_now();
    }
    None
}

/// A letter, asked for again while all sheets are out.
fn written(pool: &Arc<SheetPool>, text: &[u8]) -> Option<Letter> {
    for _ in 0..MOST_TURNS {
        match Letter::new(pool, text) {
            Ok(letter) => return Some(letter),
            Err(PullError::Limit) => thread::yield_now(),
            Err(_) => return None,
        }
    }
    None
}

/// Whether all letters could be written and sent.
fn write_all<W: Wait>(rt: &W, pool: &Arc<SheetPool>, to: &Sender<Letter>) -> bool {
    for number in 0..LETTERS {
        let text = [number, number];
        let Some(letter) = written(pool, &text[usize::from(number % 2)..]) else {
            return false;
        };
        if to.send(rt, letter).is_err() {
            return false;
        }
    }
    true
}

/// Whether each letter came with its number, as often as it was written.
fn read_all<W: Wait>(rt: &W, from: &Receiver<Letter>) -> bool {
    for number in 0..LETTERS {
        let Some(letter) = receive(rt, from) else {
            return false;
        };
        let text = [number, number];
        let expected = &text[usize::from(number % 2)..];
        if letter.text() != expected || letter.len() != expected.len() {
            return false;
        }
    }
    true
}

/// Creates a pool of one page, whose sheets have room for four bytes.
fn one_page(rt: &impl Abort, alloc: Global) -> Arc<SheetPool> {
    let pool = LinearObjectPool::with_limit(alloc, WithCapacity::new(alloc, 4), Clear, 1);
    Arc::new(alloc, pool.expect(rt, "a pool is made")).expect(rt, "memory is left")
}

#[test]
fn letters_reach_the_reader_and_their_sheets_come_home(rt: HostRuntime) {
    let pool = one_page(&rt, rt.alloc());
    let (to, from) = unbounded(rt.alloc()).expect(&rt, "a channel is made");
    let reader = thread::spawn(&rt, move || read_all(&rt, &from)).expect(&rt, "a thread is made");
    let all_written = write_all(&rt, &pool, &to);
    assert_equal(&rt, (all_written, reader.join(&rt)), (true, true));
    assert_equal(&rt, take_all(&pool), 32);
    assert_equal(&rt, pool.pull_owned().err(), Some(PullError::Limit));
}

/// Whether a hundred letters with the text are whole, each of them dropped before the next is
/// written.
fn write_often(pool: &Arc<SheetPool>, text: &[u8]) -> bool {
    for _ in 0..100 {
        match Letter::new(pool, text) {
            Ok(letter) if letter.text() == text && letter.len() == text.len() => {}
            _ => return false,
        }
    }
    true
}

#[test]
fn letters_of_any_length_are_whole_and_their_sheets_come_home(rt: HostRuntime) {
    let pool = one_page(&rt, rt.alloc());
    for len in [0, 1, 5_000, 8_193, 70_000] {
        let text = vec![in rt.alloc(); 7u8; len].expect(&rt, "memory is left");
        assert!(rt; write_often(&pool, &text), "letters of {len} bytes");
    }
}

/// Whichever request is refused, a letter is whole or refused for memory, and each sheet comes
/// home.
#[test]
fn sheets_come_home_where_memory_was_refused(rt: HostRuntime) {
    let alloc = rt.alloc();
    let Ok(pool) = LinearObjectPool::with_limit(alloc, WithCapacity::new(alloc, 0), Clear, 1) else {
        return;
    };
    let Ok(pool) = Arc::new(alloc, pool) else {
        return;
    };
    for text in [b"four".as_slice(), b"five.", b"a longer text", b""] {
        match Letter::new(&pool, text) {
            Ok(letter) => assert_equal(&rt, letter.text(), text),
            Err(cause) => assert_equal(&rt, cause, PullError::Memory),
        }
    }
    assert_equal(&rt, take_all(&pool), 32);
}
