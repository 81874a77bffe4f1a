//! Buffers in use: what one thread sees, what five threads see, and proved callers.
ghost use Rattle.std.specs.Prelude.{◌≡◌, ◌++◌, ℕ, [], Option, IfOk, IfSome};
ghost use Rattle.std.specs.Global.{Vec};
ghost use Rattle.object_pool_cores.specs.Buffers.{bytes_of};

use crate::assert_equal::assert_equal;
use object_pool_cores::buffers::*;
use pool_parts::PullError;
use pool_parts::closures::{Init, InitBy, Makes, ResetBy, Resets};
use std::alloc::Global;
use std::process::Abort;
use std::sync::Arc;
use std::thread;

/// A thread that still asks after so many refusals gives up, and its test fails.
const MOST_TURNS: u32 = 10_000_000;

/// A pool that needs no closures.
type ReadyPool = BufferPool<WithCapacity, Clear>;

/// Creates a pool of at most so many pages, whose buffers have room for 16 bytes.
fn made_pool(rt: &(impl Abort + AllocGlobal), pages: usize) -> ReadyPool {
    let init = WithCapacity::new(rt.alloc(), 16);
    BufferPool::new(rt.alloc(), init, Clear, pages.max(1)).expect(rt, "a pool is made")
}

/// What a buffer holds after two appends, and what the same room holds when it is pulled again.
fn written_and_pulled(alloc: Global, pool: &ReadyPool) -> Result<(Vec<u8>, usize), PullError>
    ensures again { IfOk result (λ both. both.1 ≡ 0) }
{
    let mut buffer = pool.pull()?;
    buffer.append(b"ab")?;
    buffer.append(b"c")?;
    let written = Vec::from_slice(alloc, buffer.as_slice())?;
    drop(buffer); // it is in the pool again
    let again = pool.pull()?;
    Ok((written, again.as_slice().len()))
}

/// After two appends a pulled buffer holds both texts, one behind the other.
fn joined(
    buffer: &mut Buffer<'_, WithCapacity, Clear>,
    first: &[u8],
    second: &[u8],
) -> Result<(), PullError>
    requires { bytes_of buffer.old ≡ [] }
    ensures { IfOk result (λ _. bytes_of buffer.new ≡ first.now ++ second.now) }
{
    buffer.append(first)?;
    buffer.append(second)
}

/// A pool of one page, of any two closures that leave each buffer empty.
fn pulled_by<I: InitBy<Vec<u8>>, R: ResetBy<Vec<u8>>>(
    alloc: Global,
    init: I,
    reset: R,
) -> Result<usize, PullError>
    requires may_make { I.may_make init }
    requires makes { (answer : Option (Vec ℕ)) → I.makes init answer
        → IfSome answer (λ bytes. bytes.items ≡ []) }
    requires may_reset { R.may_reset reset }
    requires leaves { (old new : Vec ℕ) → R.resets reset old new → new.items ≡ [] }
    ensures { IfOk result (λ len. len ≡ 0) }
{
    let init = Makes::<Vec<u8>, I, Empty>::new(init);
    let reset = Resets::<Vec<u8>, R, Empty>::new(reset);
    let pool = BufferPool::new(alloc, init, reset, 1)?;
    let mut buffer = pool.pull()?;
    buffer.append(b"left behind")?;
    drop(buffer); // it is in the pool again
    let again = pool.pull()?;
    Ok(again.as_slice().len())
}

#[test]
fn a_buffer_holds_what_was_appended_and_comes_again_empty(rt: HostRuntime) {
    let pool = made_pool(&rt, 1);
    let (written, again) = written_and_pulled(rt.alloc(), &pool).expect(&rt, "nothing is refused");
    assert_equal(&rt, (written.as_slice(), again), (b"abc".as_slice(), 0));
    let mut buffer = pool.pull().expect(&rt, "an item is free");
    assert_equal(&rt, (buffer.page_number(), buffer.page_id()), (0, 0));
    joined(&mut buffer, b"to", b"gether").expect(&rt, "nothing is refused");
    assert_equal(&rt, buffer.as_slice(), b"together".as_slice());
}

#[test]
fn closures_make_and_clear_buffers(rt: HostRuntime) {
    let alloc = rt.alloc();
    let clears = |bytes: &mut Vec<u8>| clear(bytes);
    let made = pulled_by(alloc, || fresh(alloc, 16), clears);
    assert_equal(&rt, made, Ok(0));
    let refused = pulled_by(alloc, || None, clears);
    assert_equal(&rt, refused, Err(PullError::Init));
}

/// Pulls, looks, appends and drops, a hundred times. Whether each buffer was empty and then held what
/// was appended.
fn fill_often(pool: &ReadyPool) -> bool {
    let bytes = [7u8; 100];
    for _ in 0..100 {
        let Some(mut buffer) = pulled_at_last(pool) else {
            return false;
        };
        let empty = buffer.as_slice().is_empty();
        if !empty || buffer.append(&bytes).is_err() || buffer.as_slice() != bytes.as_slice() {
            return false;
        }
    }
    true
}

/// A buffer, asked for again where all are out.
fn pulled_at_last(pool: &ReadyPool) -> Option<Buffer<'_, WithCapacity, Clear>> {
    for _ in 0..MOST_TURNS {
        match pool.pull() {
            Ok(buffer) => return Some(buffer),
            Err(PullError::Limit) => thread::yield_now(),
            Err(_) => return None,
        }
    }
    None
}

#[test]
fn five_threads_find_each_buffer_empty(rt: HostRuntime) {
    let pool = Arc::new(rt.alloc(), made_pool(&rt, 1)).expect(&rt, "memory is left");
    let mut threads = Vec::with_capacity(rt.alloc(), 5).expect(&rt, "memory is left");
    for _ in 0..5 {
        let pool = Arc::try_clone(&pool).expect(&rt, "memory is left");
        threads
            .push(thread::spawn(&rt, move || fill_often(&pool)).expect(&rt, "a thread is made"))
            .expect(&rt, "memory is left");
    }
    for thread in threads {
        assert!(rt; thread.join(&rt));
    }
}

#[test]
fn the_greatest_limit_needs_no_memory_beforehand(rt: HostRuntime) {
    let pool = made_pool(&rt, usize::MAX);
    let buffer = pool.pull().expect(&rt, "an item is free");
    assert_equal(&rt, (buffer.page_number(), buffer.page_id()), (0, 0));
}

/// How many bytes a mebibyte is.
const MEBIBYTE: usize = 1 << 20;

#[test]
fn a_fresh_buffer_has_the_room_that_is_asked_for(rt: HostRuntime) {
    for capacity in [0, 1, 100_000, 2 * MEBIBYTE, 3 * MEBIBYTE] {
        let bytes = fresh(rt.alloc(), capacity).expect(&rt, "there is memory");
        assert!(rt; bytes.is_empty() && bytes.capacity() == capacity);
    }
}

/// A buffer takes parts of so many bytes, holds them all, and is shown as a vector of them is.
fn takes(rt: &(impl Abort + AllocGlobal), parts: &[usize]) {
    let pool = made_pool(rt, 1);
    let mut buffer = pool.pull().expect(rt, "an item is free");
    let mut expected = Vec::new(rt.alloc());
    for (byte, count) in parts.iter().enumerate() {
        let part = vec![in rt.alloc(); (byte % 256) as u8; *count].expect(rt, "memory is left");
        buffer.append(&part).expect(rt, "memory is left");
        expected
            .extend_from_slice(&part)
            .expect(rt, "memory is left");
    }
    assert!(*rt; buffer.as_slice() == expected.as_slice());
    if expected.len() < MEBIBYTE {
        let shown = format!(in rt.alloc(); "{buffer:?}").expect(rt, "memory is left");
        let wanted = format!(in rt.alloc(); "{expected:?}").expect(rt, "memory is left");
        assert_equal(rt, shown.as_str(), wanted.as_str());
    }
}

#[test]
fn a_buffer_takes_long_texts_again_and_again(rt: HostRuntime) {
    takes(&rt, &[5000; 21]);
    takes(&rt, &[MEBIBYTE, 4, 5000]);
    takes(&rt, &[3 * MEBIBYTE]);
}

#[test]
fn buffers_are_shown_empty_and_full_and_long(rt: HostRuntime) {
    takes(&rt, &[]);
    takes(&rt, &[16]);
    takes(&rt, &[1, 255, 300, 0]);
}
