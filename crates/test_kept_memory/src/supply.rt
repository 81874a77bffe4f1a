//! What makes the buffers of the pools: as many as it is told to make, and then none. What is asked
//! for is refused then.
use lockfree_object_pool::PullError;
use lockfree_object_pool::clean::AnyValue;
use lockfree_object_pool::closures::Init;
use std::alloc::Global;
use std::sync::Arc;
use std::sync::atomic::AtomicUsize;
use std::sync::atomic::Ordering::SeqCst;

/// Each pool's kind of value. It has memory of its own.
pub type Buffer = Vec<u8>;

/// How many bytes a new buffer has room for.
const ROOM: usize = 16;

/// A supply of buffers, which a pool and the one who fills it share.
#[derive(Drop)]
pub struct Supply {
    pub alloc: Global,
    left: Arc<AtomicUsize>,
}

impl Supply {
    /// Creates a supply that has no end.
    pub fn endless(alloc: Global) -> Option<Supply> {
        Some(Supply {
            alloc,
            left: Arc::new(alloc, AtomicUsize::new(usize::MAX)).ok()?,
        })
    }

    /// Returns the same supply for one more.
    pub fn share(&self) -> Option<Supply> {
        Some(Supply {
            alloc: self.alloc,
            left: Arc::try_clone(&self.left).ok()?,
        })
    }

    /// Leaves so many buffers from now on.
    pub fn end_after(&self, buffers: usize) {
        self.left.store(buffers, SeqCst);
    }

    /// Makes a buffer, if one is left.
    pub fn buffer(&self) -> Option<Buffer> {
        let left = self.left.load(SeqCst);
        self.left.store(left.checked_sub(1)?, SeqCst);
        Vec::with_capacity(self.alloc, ROOM).ok()
    }
}

impl Init<Buffer, AnyValue> for Supply {
    fn make(&self) -> Option<Buffer> {
        self.buffer()
    }
}

/// Looks at an answer that has to be a refusal for this cause. `None` if it is another one.
pub fn refused<X: Drop>(answer: Result<X, PullError>, cause: PullError) -> Option<()> {
    match answer {
        Err(found) if found == cause => Some(()),
        _ => None,
    }
}
