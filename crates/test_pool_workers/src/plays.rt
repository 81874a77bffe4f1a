//! How rows are played: on a new pool of a kind, whose end is looked at.
use crate::assert_equal::assert_equal;
use crate::player::WorkerPlayer;
use crate::pools::{Shared, fixed_of, lazy_of, linear_of};
use pool_model::book::{Book, new_book};
use pool_model::value::Value;
use pool_parts::PullError;
use pool_workers::{Worker, WorkerPlace};
use std::alloc::Global;
use std::process::Abort;
use std::sync::Arc;

/// A kind of pool, with the number of its items, or of the pages that it may have.
#[derive(Clone, Copy, Debug, PartialEq, Eq)]
pub enum Kind {
    Fixed(usize),
    Lazy(usize),
    Linear(usize),
}

impl Kind {
    /// Returns how many items there may be.
    pub fn items(self) -> usize {
        match self {
            Kind::Fixed(items) | Kind::Lazy(items) => items,
            Kind::Linear(pages) => pages.saturating_mul(32),
        }
    }
}

/// How many items a worker has room for: `None` is a new one, which has room for one.
pub type Room = Option<usize>;

/// Commands and what is said to them.
pub type Lines = (&'static str, &'static str);

/// A worker, and what a game knows of it.
#[derive(Drop)]
pub struct Hired<P: WorkerPlace<Value>> {
    pub room: Room,
    /// The page at which it begins.
    pub page: usize,
    pub worker: Worker<Value, P>,
}

/// Creates workers of a pool.
///
/// # Errors
///
/// `Memory`.
pub fn workers_of<P: WorkerPlace<Value>, S: Shared<P, P::Item>>(
    alloc: Global,
    pool: S,
    rooms: &[Room],
) -> Result<Vec<Hired<P>>, PullError> {
    let mut workers = Vec::with_capacity(alloc, rooms.len())?;
    for room in rooms {
        let (place, page) = pool.place();
        workers.push(hire(alloc, place, page, *room)?)?;
    }
    Ok(workers)
}

fn hire<P: WorkerPlace<Value>>(
    alloc: Global,
    place: P,
    page: usize,
    room: Room,
) -> Result<Hired<P>, PullError> {
    let worker = match room {
        Some(most) => Worker::with_room(alloc, place, most)?,
        None => Worker::new(place),
    };
    Ok(Hired { room, page, worker })
}

/// How many items one worker gets at once. They come back.
fn gets<P: WorkerPlace<Value>>(
    alloc: Global,
    worker: &Worker<Value, P>,
    most: usize,
) -> Option<usize> {
    let mut held = Vec::with_capacity(alloc, most).ok()?;
    for _ in 0..=most {
        match worker.pull() {
            Ok(item) => held.push(item).ok()?,
            Err(_) => break,
        }
    }
    Some(held.len())
}

/// Looks at a pool whose workers ended: no item is in use, and all come to one worker, unless the
/// pool was closed.
pub fn is_left<P: WorkerPlace<Value>, S: Shared<P, P::Item>>(
    rt: &(impl Abort + AllocGlobal),
    pool: S,
    book: &Book,
    items: usize,
) {
    let used = pool.counted().map(|counted| counted.1);
    assert_equal(rt, used.unwrap_or(0), 0);
    book.refuse(false);
    book.reject(false);
    let (place, _) = pool.place();
    let come = if place.is_closed() { 0 } else { items };
    assert_equal(rt, gets(rt.alloc(), &Worker::new(place), items), Some(come));
}

/// Plays lines with workers that end then. Their end resets nothing.
fn plays_lines<P: WorkerPlace<Value>, S: Shared<P, P::Item>>(
    rt: &(impl Abort + AllocGlobal),
    pool: S,
    book: &Arc<Book>,
    rooms: &[Room],
    lines: Lines,
) {
    let workers = workers_of(rt.alloc(), pool, rooms).expect(rt, "memory is left");
    let player = WorkerPlayer::new(rt.alloc(), pool, book, &workers);
    let mut player = player.expect(rt, "memory is left");
    assert_equal(rt, player.first_difference(lines.0, lines.1), None);
    drop(player);
    let resets = book.counts().resets;
    drop(workers);
    assert_equal(rt, book.counts().resets, resets);
}

/// Plays rows on a pool, each with workers of its own.
fn plays_at<P: WorkerPlace<Value>, S: Shared<P, P::Item>>(
    rt: &(impl Abort + AllocGlobal),
    pool: S,
    book: &Arc<Book>,
    (kind, rooms): (Kind, &[Room]),
    rows: &[Lines],
) {
    for lines in rows {
        plays_lines(rt, pool, book, rooms, *lines);
    }
    is_left(rt, pool, book, kind.items());
}

/// Plays rows on a new pool, each with workers of its own, and ends the pool.
pub fn plays(rt: &(impl Abort + AllocGlobal), kind: Kind, rooms: &[Room], rows: &[Lines]) {
    let book = new_book(rt.alloc()).expect(rt, "memory is left");
    match kind {
        Kind::Fixed(items) => {
            let pool = fixed_of(rt.alloc(), &book, items.max(1)).expect(rt, "a pool is made");
            plays_at(rt, &pool, &book, (kind, rooms), rows);
        }
        Kind::Lazy(items) => {
            let pool = lazy_of(rt.alloc(), &book, items.max(1)).expect(rt, "a pool is made");
            plays_at(rt, &pool, &book, (kind, rooms), rows);
        }
        Kind::Linear(pages) => {
            let pool = linear_of(rt.alloc(), &book, pages.max(1)).expect(rt, "a pool is made");
            plays_at(rt, &pool, &book, (kind, rooms), rows);
        }
    }
    let counts = book.counts();
    assert_equal(
        rt,
        (counts.drops, Arc::strong_count(&book)),
        (counts.made, 1),
    );
}
