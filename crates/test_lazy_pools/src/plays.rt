//! How a row is played: on a new pool, whose end is looked at.
ghost use Rattle.std.specs.Prelude.{◌≤◌};

use crate::items::{Owned, Pool};
use crate::player::LazyPlayer;
use crate::watch::Watch;
use lazy_pools::{LazyObjectPool, PullError};
use pool_model::book::{Book, Counts, new_book};
use pool_model::value::Closures;
use rows::row::first_difference;
use std::alloc::Global;
use std::cell::Cell;
use std::process::Abort;
use std::sync::{Arc, Wait};
use std::time::Clock;

/// Creates a pool whose values a book counts.
pub fn pool_of(alloc: Global, book: &Arc<Book>, items: usize) -> Result<Arc<Pool>, PullError>
    requires { 1 ≤ items }
{
    let init = Closures::new(book)?;
    let reset = Closures::new(book)?;
    let pool: Pool = LazyObjectPool::new(alloc, init, reset, items)?;
    Ok(Arc::new(alloc, pool)?)
}

/// Creates the player of a pool.
///
/// # Errors
///
/// `Memory`.
pub fn player_of<'p, R: Wait + Clock>(
    rt: &'p R,
    alloc: Global,
    pool: &'p Arc<Pool>,
    book: &'p Arc<Book>,
    seen: &'p Cell<usize>,
) -> Result<LazyPlayer<'p, R>, PullError> {
    let mut items = Vec::with_capacity(alloc, pool.items())?;
    for _ in 0..pool.items() {
        items.push(None)?;
    }
    Ok(LazyPlayer {
        rt,
        pool,
        book,
        near: pool.near(),
        watch: Watch::new(rt, pool),
        items,
        seen,
        forgotten: 0,
    })
}

/// Ends a pool. If an item owns it too, that one is its last owner. Returns whether the pool dropped
/// nothing until then, and afterwards all, but so many values that were forgotten.
pub fn ends(pool: Arc<Pool>, book: &Arc<Book>, last: Option<Owned>, forgotten: usize) -> bool {
    let before = Arc::strong_count(book);
    let is_owned = last.is_some();
    drop(pool);
    let stood = !is_owned || Arc::strong_count(book) == before;
    drop(last);
    let Counts { made, drops, .. } = book.counts();
    let owners = Arc::strong_count(book);
    stood && made.wrapping_sub(drops) == forgotten && owners == forgotten.wrapping_add(1)
}

/// Plays a row on a new pool.
pub fn plays<R: Abort + Wait + Clock + AllocGlobal>(
    rt: &R,
    items: usize,
    commands: &'static str,
    answers: &'static str,
)
    requires { 1 ≤ items }
{
    let alloc = rt.alloc();
    let book = new_book(alloc).expect(rt, "memory is left");
    let pool = pool_of(alloc, &book, items).expect(rt, "a pool is made");
    let seen = Cell::new(0);
    let player = player_of(rt, alloc, &pool, &book, &seen);
    let mut player = player.expect(rt, "memory is left");
    assert_eq!(*rt; first_difference(&mut player, commands, answers), None);
    let forgotten = player.forgotten;
    let last = player.last_owned();
    drop(player);
    assert!(*rt; ends(pool, &book, last, forgotten));
}
