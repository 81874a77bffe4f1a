ghost use Rattle.std.specs.Prelude.{◌≡◌, []};

use lockfree_object_pool::PullError;
use lockfree_object_pool::recycling::{LazyPool, Recyclable};
use std::alloc::Global;
use std::sync::Wait;
use std::thread;
use std::thread::Threads;
use std::time::{Clock, Duration};

/// A connection, which here only keeps what is sent by it.
#[derive(Debug, Drop)]
struct Connection {
    sent: Vec<u8>,
}

impl Recyclable for Connection {
    ghost is_clean = { λ connection. connection.sent.items ≡ [] };

    fn make(alloc: Global) -> Option<Connection> {
        Some(Connection {
            sent: Vec::with_capacity(alloc, 16).ok()?,
        })
    }

    fn reset(&mut self) {
        self.sent.clear();
    }
}

/// Creates a pool of seven connections, two of which are made now.
fn new_connections(alloc: Global) -> Result<LazyPool<Connection>, PullError> {
    let connections = LazyPool::with_recycler(alloc, 7)?;
    connections.fill(2)?;
    Ok(connections)
}

/// Sends a message by a connection, for which it waits a second at most. Returns whether one came.
fn send<R: Wait + Clock>(
    rt: &R,
    connections: &LazyPool<Connection>,
    message: &[u8],
) -> Result<bool, PullError> {
    match connections.pull_timeout(rt, Duration::from_secs(1)) {
        Ok(mut connection) => {
            connection.sent.extend_from_slice(message)?;
            Ok(true)
        }
        Err(PullError::Limit) => Ok(false), // a fallback goes here
        Err(error) => Err(error),
    }
}

/// Counts how many of four threads sent their message.
fn senders<R: Threads + Wait + Clock + Sync>(rt: &R, alloc: Global) -> Result<usize, PullError> {
    let connections = new_connections(alloc)?;
    let one_thread = |_thread: usize| send(rt, &connections, b"hello") == Ok(true);
    let sent = thread::map_indices(rt, alloc, 4, &one_thread)?;
    Ok(sent.iter().filter(|sent| **sent).count())
}

#[cfg(test)]
mod tests;
