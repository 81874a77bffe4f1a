//! The values: each item is made with another number, and so each is known again.
use crate::wrong::Wrong;
use lockfree_object_pool::clean::AnyValue;
use lockfree_object_pool::closures::Init;
use std::alloc::{AllocError, Global};
use std::mem;
use std::sync::Arc;
use std::sync::atomic::AtomicU64;
use std::sync::atomic::Ordering::SeqCst;

/// How many items a page has.
pub const PAGE_ITEMS: u64 = 32;

/// Makes numbers from 0 on. A pool and the one who asks how many were made share it.
#[derive(Drop)]
pub struct Numbers {
    made: Arc<AtomicU64>,
}

impl Numbers {
    /// Creates the count of numbers, from 0 on.
    ///
    /// # Errors
    ///
    /// If memory is refused.
    pub fn new(alloc: Global) -> Result<Numbers, AllocError> {
        Ok(Numbers {
            made: Arc::new(alloc, AtomicU64::new(0))?,
        })
    }

    /// Returns the same numbers for one more.
    ///
    /// # Errors
    ///
    /// If memory is refused.
    pub fn share(&self) -> Result<Numbers, AllocError> {
        Ok(Numbers {
            made: Arc::try_clone(&self.made)?,
        })
    }

    /// Checks that so many numbers were made.
    ///
    /// # Errors
    ///
    /// `Wrong` names what was seen and may not be.
    pub fn expect_made(&self, count: u64) -> Result<(), Wrong> {
        let made = self.made.load(SeqCst);
        if made == count {
            Ok(())
        } else {
            Err(Wrong::Made(made))
        }
    }
}

impl Init<u64, AnyValue> for Numbers {
    fn make(&self) -> Option<u64> {
        Some(self.made.fetch_add(1, SeqCst))
    }
}

/// Which of so many numbers were seen.
#[derive(Drop)]
pub struct SeenNumbers {
    is_seen: Vec<bool>,
}

impl SeenNumbers {
    /// Creates a record that has seen none of so many numbers.
    ///
    /// # Errors
    ///
    /// If memory is refused.
    pub fn none(alloc: Global, count: u64) -> Result<SeenNumbers, AllocError> {
        Ok(SeenNumbers {
            is_seen: vec![in alloc; false; count as usize]?,
        })
    }

    /// Records a number that is seen for the first time.
    ///
    /// # Errors
    ///
    /// `Wrong` names what was seen and may not be.
    pub fn see(&mut self, number: u64) -> Result<(), Wrong> {
        let Some(is_seen) = self.is_seen.get_mut(number as usize) else {
            return Err(Wrong::Value(number));
        };
        if mem::replace(is_seen, true) {
            return Err(Wrong::Value(number));
        }
        Ok(())
    }
}
