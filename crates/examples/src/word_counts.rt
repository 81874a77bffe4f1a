//! Threads that count the words of texts. Each has a worker of a pool that they share, and so the
//! same scratch for each line.
ghost use Rattle.std.specs.Prelude.{◌≡◌, ◌≤◌, ◌<◌, [], length, vec_len, IfOk, IfSome};

use lockfree_object_pool::clean::Empty;
use lockfree_object_pool::closures::{Clear, WithCapacity};
use lockfree_object_pool::fixed_object_pool::Near;
use lockfree_object_pool::{FixedObjectPool, Worker};
use std::alloc::{AllocError, Global};
use std::thread;
use std::thread::Threads;

/// A pool of empty lists of places in a text.
pub type PlacesPool = FixedObjectPool<Vec<usize>, WithCapacity, Clear, Empty>;

/// A worker of such a pool.
type PlacesWorker<'p> = Worker<Vec<usize>, Near<'p, Vec<usize>, WithCapacity, Clear, Empty>>;

/// Returns whether a word begins at a place of a text.
fn begins_word(text: &[u8], at: usize) -> bool
    requires { at < length text.now }
{
    text[at] != b' ' && (at == 0 || text[at - 1] == b' ')
}

/// Lists the places at which the words of a text begin, and returns how many there are.
///
/// # Errors
///
/// If the list has too little room, and memory is refused.
pub fn count_words(text: &[u8], places: &mut Vec<usize>) -> Result<usize, AllocError>
    requires { places.old.items ≡ [] }
    ensures { IfOk result (λ count. count ≤ length text.now) }
{
    for at in 0..text.len() {
        if begins_word(text, at) {
            places.push(at)?;
        }
    }
    Ok(places.len())
}

/// Returns the number of a line's words, by a list of this worker, which comes empty. `None` if no
/// list is free, or memory is refused.
fn count_line(worker: &PlacesWorker<'_>, line: &[u8]) -> Option<usize>
    ensures { IfSome result (λ count. count ≤ length line.now) }
{
    let mut places = worker.pull().ok()?;
    count_words(line, &mut places).ok()
}

/// Returns the number of a text's words, line by line, by a worker of its own.
fn count_text(pool: &PlacesPool, lines: &[Vec<u8>]) -> Option<usize> {
    let worker = Worker::new(pool.near());
    let mut total: usize = 0;
    for line in lines {
        total = total.checked_add(count_line(&worker, line)?)?;
    }
    Some(total)
}

/// Returns the numbers of words of all texts, in their order: `None` if a list or memory was
/// refused. Each text has a thread of its own, with a worker.
///
/// # Errors
///
/// If there is no memory for the answers or the threads.
pub fn word_counts<R: Threads + Sync>(
    rt: &R,
    alloc: Global,
    pool: &PlacesPool,
    texts: &[Vec<Vec<u8>>],
) -> Result<Vec<Option<usize>>, AllocError>
    ensures { IfOk result (λ counts. vec_len counts ≡ length texts.now) }
{
    thread::map_indices(rt, alloc, texts.len(), &|i| count_text(pool, &texts[i]))
}

#[cfg(test)]
mod tests;
