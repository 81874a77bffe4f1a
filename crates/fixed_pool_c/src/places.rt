//! The calls for C on places by themselves.
ghost use Rattle.std.specs.Prelude.{◌≡◌, Some};
ghost use Rattle.fixed_pool_c.specs.Places.{IsPlacePullAnswer, IsPlaceReturnAnswer, IsOwed};

use crate::answer::{ALL_IN_USE, DONE, HOLDS_ONE, NO_POOL};
use crate::handle::Handle;
use crate::open_handle::OpenHandle;
use crate::place::Place;
use std::alloc::Global;

/// Takes a place of the handle's pool, apart from the handle's own. The pull begins at this page of
/// 32 places, counted round and round.
///
/// # Errors
///
/// `ALL_IN_USE`, `HOLDS_ONE` or `NO_POOL`. `place` keeps its number.
#[unsafe(no_mangle)]
pub extern "C" fn kdr_place_pull(
    alloc: Global,
    handle: &mut Handle,
    page: usize,
    place: &mut Place,
) -> u32
    ensures answer { IsPlacePullAnswer result handle.old.held place.old place.new }
    ensures same { handle.new.held ≡ handle.old.held }
{
    let Some(held) = handle.take(alloc) else {
        return NO_POOL;
    };
    let answer = held.pull_place(page, place);
    handle.put(held);
    answer
}

/// Returns a place of the handle's pool, which is empty from then on. The handle's own stays.
///
/// # Errors
///
/// `HOLDS_NONE` if the place is empty, `OTHER_POOL` if it bears another tag than the handle's pool,
/// `NO_SUCH_PLACE` if that pool has no such number, or `NO_POOL`. `place` is as before.
#[unsafe(no_mangle)]
pub extern "C" fn kdr_place_return(alloc: Global, handle: &mut Handle, place: &mut Place) -> u32
    requires { IsOwed place.old handle.old.held }
    ensures answer { IsPlaceReturnAnswer result handle.old.held place.old place.new }
    ensures same { handle.new.held ≡ handle.old.held }
{
    let Some(held) = handle.take(alloc) else {
        return NO_POOL;
    };
    let answer = held.return_place(place);
    handle.put(held);
    answer
}

impl OpenHandle {
    /// Takes a place from the handle's pool.
    #[inline(always)]
    fn pull_place(&self, page: usize, place: &mut Place) -> u32
        ensures { IsPlacePullAnswer result (Some self.now) place.old place.new }
    {
        let Some(pool) = self.pool() else {
            return NO_POOL;
        };
        if place.after != 0 {
            return HOLDS_ONE;
        }
        match pool.pull_item(page) {
            Ok(item) => {
                let _items = pool.items(); // a `usize`, so one more than an item's number is one
                place.hold(item.holding, self.tag);
                DONE
            }
            Err(note) => {
                place.keep(note);
                ALL_IN_USE
            }
        }
    }

    /// Returns a place to the handle's pool.
    #[inline(always)]
    fn return_place(&self, place: &mut Place) -> u32
        requires { IsOwed place.old (Some self.now) }
        ensures { IsPlaceReturnAnswer result (Some self.now) place.old place.new }
    {
        let Some(pool) = self.pool() else {
            return NO_POOL;
        };
        match place.take(self.tag, pool.items()) {
            Ok(holding) => {
                place.keep(pool.give(holding, ()));
                DONE
            }
            Err(answer) => answer,
        }
    }
}
