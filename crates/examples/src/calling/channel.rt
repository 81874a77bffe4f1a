//! Owned items over a channel, and a permission that goes to a thread.
use crossbeam_channel::{Receiver, unbounded};
use lockfree_object_pool::PullError;
use lockfree_object_pool::recycling::{OwnedReusable, Pool};
use std::alloc::Global;
use std::sync::{Arc, Wait};
use std::thread;
use std::thread::Threads;

/// A letter that any thread may read, and which then returns to its pool.
type Letter = OwnedReusable<Vec<u8>>;

/// Returns how many bytes so many letters have, for which it waits.
fn bytes_of<W: Wait>(rt: &W, letters: &Receiver<Letter>, count: usize) -> usize {
    let mut bytes = 0usize;
    for _ in 0..count {
        if let Ok(letter) = letters.recv(rt) {
            bytes = bytes.saturating_add(letter.len());
        }
    }
    bytes
}

/// Sends three letters to a thread, which has a copy of the permission. Returns how many bytes it
/// read.
fn send_three<R: Threads + Wait + Copy + Send + 'static>(
    rt: &R,
    alloc: Global,
) -> Result<usize, PullError> {
    let pool = Arc::new(alloc, Pool::<Vec<u8>>::with_recycler(alloc)?)?;
    let (sender, receiver) = unbounded(alloc)?;
    let there = *rt;
    let Ok(reader) = thread::spawn(rt, move || bytes_of(&there, &receiver, 3)) else {
        return Err(PullError::Memory);
    };
    for _ in 0..3 {
        let mut letter = pool.pull_owned()?;
        letter.extend_from_slice(b"hello")?;
        if sender.send(rt, letter).is_err() {
            break;
        }
    }
    drop(sender);
    Ok(reader.join(rt))
}

#[cfg(test)]
mod tests;
