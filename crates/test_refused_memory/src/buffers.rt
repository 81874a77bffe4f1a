//! Buffer pools: an append that is refused leaves the buffer as it was, and can be asked for again.
use crate::assert_equal::assert_equal;
use crate::refusals::{Refusals, again};
use lockfree_object_pool::PullError;
use object_pool_cores::buffers::{Buffer, BufferPool, Clear, WithCapacity, clear, fresh};
use std::process::Abort;

type Buffers = BufferPool<WithCapacity, Clear>;

/// A pool of two pages of buffers without room.
fn new_pool(rt: &(impl Abort + AllocGlobal), refusals: &Refusals) -> Buffers {
    let alloc = rt.alloc();
    again!(
        rt,
        refusals,
        BufferPool::new(alloc, WithCapacity::new(alloc, 0), Clear, 2)
    )
}

/// Appends bytes. Where memory was refused, the buffer is as it was, and they are appended by a
/// second try.
fn append(
    rt: &impl Abort,
    refusals: &Refusals,
    buffer: &mut Buffer<'_, WithCapacity, Clear>,
    bytes: &[u8],
) {
    let before = buffer.as_slice().len();
    if let Err(cause) = buffer.append(bytes) {
        refusals.note();
        assert_equal(rt, cause, PullError::Memory);
        assert_equal(rt, buffer.as_slice().len(), before);
        buffer
            .append(bytes)
            .expect(rt, "one request alone is refused");
    }
}

#[test]
fn an_append_that_was_refused_is_asked_again(rt: HostRuntime) {
    let refusals = Refusals::new();
    let pool = new_pool(&rt, &refusals);
    let mut buffer = pool.pull().expect(&rt, "an item is free");
    append(&rt, &refusals, &mut buffer, b"");
    append(&rt, &refusals, &mut buffer, b"first");
    append(&rt, &refusals, &mut buffer, &[b'x'; 5000]);
    assert_equal(
        &rt,
        (buffer.as_slice().get(..5), buffer.as_slice().len()),
        (Some(b"first".as_slice()), 5005),
    );
    drop(buffer);
    let again = pool.pull().expect(&rt, "an item is free");
    assert_equal(
        &rt,
        (again.page_number(), again.page_id(), again.as_slice().len()),
        (0, 0, 0),
    );
    refusals.tell(&rt);
}

#[test]
fn a_fresh_buffer_that_was_refused_is_asked_again(rt: HostRuntime) {
    let refusals = Refusals::new();
    let mut bytes = again!(
        &rt,
        refusals,
        fresh(rt.alloc(), 4096).ok_or(PullError::Memory)
    );
    let filled = bytes.extend_from_slice(&[b'x'; 4096]);
    filled.expect(&rt, "there is room");
    clear(&mut bytes);
    let filled = bytes.extend_from_slice(&[b'y'; 4096]);
    filled.expect(&rt, "there is room");
    assert_equal(&rt, bytes.len(), 4096);
    refusals.tell(&rt);
}

/// A buffer that comes again has the room that it grew to. What fits there is appended, whichever
/// request is refused.
#[test]
fn an_append_where_there_is_room_takes_no_memory(rt: HostRuntime) {
    let refusals = Refusals::new();
    let pool = new_pool(&rt, &refusals);
    let mut first = pool.pull().expect(&rt, "an item is free");
    append(&rt, &refusals, &mut first, &[b'x'; 64]);
    drop(first);
    let mut again = pool.pull().expect(&rt, "an item is free");
    for _ in 0..64 {
        again.append(b"y").expect(&rt, "there is room");
    }
    assert_equal(&rt, (again.page_id(), again.as_slice().len()), (0, 64));
    refusals.tell(&rt);
}
