//! The calls for C.
ghost use Rattle.std.specs.Prelude.{◌≡◌, Some, None};
ghost use Rattle.fixed_pool_c.specs.Answers.{IsNewAnswer, IsShareAnswer, IsPullAnswer, IsReturnAnswer, IsDropAnswer, handle_items};

use crate::answer::{
    ALL_IN_USE, DONE, HAS_POOL, HOLDS_NONE, HOLDS_ONE, NO_MEMORY, NO_PLACES, NO_POOL,
};
use crate::handle::Handle;
use crate::open_handle::{HandleState, Idle, OpenHandle};
use std::alloc::Global;

/// Makes a pool of `items` free places. Its first handle goes to `out`, which was empty. The
/// places of the pool bear the tag.
///
/// # Errors
///
/// `HAS_POOL`, `NO_PLACES` or `NO_MEMORY`. `out` is as before.
#[unsafe(no_mangle)]
pub extern "C" fn kdr_handle_new(alloc: Global, items: usize, tag: usize, out: &mut Handle) -> u32
    ensures { IsNewAnswer result items tag out.old.held out.new.held }
{
    if let Some(before) = out.take(alloc) {
        out.put(before);
        return HAS_POOL;
    }
    if items == 0 {
        return NO_PLACES;
    }
    let Some(held) = OpenHandle::first(alloc, items, tag) else {
        return NO_MEMORY;
    };
    out.put(held);
    DONE
}

/// Makes a further handle of the same pool, which holds no place. It goes to `out`, which was
/// empty.
///
/// # Errors
///
/// `HAS_POOL`, `NO_POOL` or `NO_MEMORY`. `out` is as before.
#[unsafe(no_mangle)]
pub extern "C" fn kdr_handle_share(alloc: Global, handle: &mut Handle, out: &mut Handle) -> u32
    ensures answer { IsShareAnswer result handle.old.held out.old.held out.new.held }
    ensures same { handle.new.held ≡ handle.old.held }
{
    if let Some(before) = out.take(alloc) {
        out.put(before);
        return HAS_POOL;
    }
    let Some(held) = handle.take(alloc) else {
        return NO_POOL;
    };
    let other = held.share(alloc);
    handle.put(held);
    match other {
        Ok(other) => {
            out.put(other);
            DONE
        }
        Err(answer) => answer,
    }
}

/// Returns how many places the handle's pool has, or 0 if the handle has no pool.
#[unsafe(no_mangle)]
pub extern "C" fn kdr_handle_items(alloc: Global, handle: &mut Handle) -> usize
    ensures items { result ≡ handle_items handle.old.held }
    ensures same { handle.new.held ≡ handle.old.held }
{
    let Some(held) = handle.take(alloc) else {
        return 0;
    };
    let items = held.items();
    handle.put(held);
    items
}

/// Takes a place. The pull begins at a page of the handle's own, and stays there while it has free
/// places.
///
/// # Errors
///
/// `ALL_IN_USE`, `HOLDS_ONE` or `NO_POOL`. `place` is as before.
#[unsafe(no_mangle)]
pub extern "C" fn kdr_pool_pull(alloc: Global, handle: &mut Handle, place: &mut usize) -> u32
    ensures { IsPullAnswer result handle.old.held handle.new.held place.old place.new }
{
    let Some(held) = handle.take(alloc) else {
        return NO_POOL;
    };
    let page = held.way.page();
    pull_at(handle, held, page, place)
}

/// Takes a place. The pull begins at this page of 32 places, counted round and round.
///
/// # Errors
///
/// As of `kdr_pool_pull`.
#[unsafe(no_mangle)]
pub extern "C" fn kdr_pool_pull_near(
    alloc: Global,
    handle: &mut Handle,
    page: usize,
    place: &mut usize,
) -> u32
    ensures { IsPullAnswer result handle.old.held handle.new.held place.old place.new }
{
    let Some(held) = handle.take(alloc) else {
        return NO_POOL;
    };
    pull_at(handle, held, page, place)
}

/// Takes a place for a handle that was taken apart.
#[inline(always)]
fn pull_at(handle: &mut Handle, mut held: Box<OpenHandle>, page: usize, place: &mut usize) -> u32
    requires { handle.old.held ≡ None }
    ensures { IsPullAnswer result (Some held.value) handle.new.held place.old place.new }
{
    match held.state.take() {
        None => {
            handle.put(held);
            NO_POOL
        }
        Some(HandleState::Full(out)) => {
            handle.hold(held, HandleState::Full(out));
            HOLDS_ONE
        }
        Some(HandleState::Empty(Idle { pool, note })) => match pool.pull_by_owner(page, note) {
            Ok(out) => {
                *place = out.number();
                held.way.go_on(page, out.page_number(), out.owner().items());
                handle.hold(held, HandleState::Full(out));
                DONE
            }
            Err((pool, note)) => {
                handle.hold(held, HandleState::Empty(Idle { pool, note }));
                ALL_IN_USE
            }
        },
    }
}

/// Returns the handle's place.
///
/// # Errors
///
/// `HOLDS_NONE` or `NO_POOL`.
#[unsafe(no_mangle)]
pub extern "C" fn kdr_pool_return(alloc: Global, handle: &mut Handle) -> u32
    ensures { IsReturnAnswer result handle.old.held handle.new.held }
{
    let Some(mut held) = handle.take(alloc) else {
        return NO_POOL;
    };
    match held.state.take() {
        None => {
            handle.put(held);
            NO_POOL
        }
        Some(HandleState::Empty(idle)) => {
            handle.hold(held, HandleState::Empty(idle));
            HOLDS_NONE
        }
        Some(HandleState::Full(out)) => {
            let (pool, note) = out.give_back_with_owner();
            handle.hold(held, HandleState::Empty(Idle { pool, note }));
            DONE
        }
    }
}

/// Closes the handle, which is empty from then on. A place that it holds is returned. The pool ends
/// with its last handle.
///
/// # Errors
///
/// `NO_POOL`.
#[unsafe(no_mangle)]
pub extern "C" fn kdr_pool_drop(alloc: Global, handle: &mut Handle) -> u32
    ensures { IsDropAnswer result handle.old.held handle.new.held handle.new.final_note }
{
    let Some(held) = handle.take(alloc) else {
        return NO_POOL;
    };
    let OpenHandle {
        way: _way,
        tag: _tag,
        handles: _handles,
        state,
    } = Box::into_inner(held);
    match state {
        Some(HandleState::Full(out)) => {
            let note = out.give_back();
            handle.close(alloc, note);
            DONE
        }
        Some(HandleState::Empty(Idle { pool: _pool, note })) => {
            handle.close(alloc, note);
            DONE
        }
        None => DONE,
    }
}
