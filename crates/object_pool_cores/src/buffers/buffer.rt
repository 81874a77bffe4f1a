//! A buffer that was pulled from a pool.
ghost use Rattle.std.specs.Prelude.{◌≡◌, ◌<◌, ◌≤◌, ◌+◌, ◌++◌, [], length, IsOk, OnOk, OnErr, IfErr};

use crate::buffers::Empty;
use linear_pools::LinearReusable;
use pool_parts::PullError;
use pool_parts::clean::Clean;
use pool_parts::closures::{Init, Reset};
use pool_parts::page::PageId;
use std::fmt::{self, Debug, Formatter, Write};

/// A pulled buffer. Its drop resets it and returns it to its pool.
///
/// `T` and `K` are always as they stand here, as in [`BufferPool`](crate::buffers::BufferPool).
///
/// # Examples
///
/// ```rust
/// let mut buffer = pool.pull()?;
/// buffer.append(b"hello")?;
/// assert_eq!(rt; buffer.as_slice(), b"hello".as_slice());
/// ```
#[derive(Drop)]
pub struct Buffer<'p, I: Init<T, K>, R: Reset<T, K>, T: Drop = Vec<u8>, K: Clean<T> = Empty> {
    item: LinearReusable<'p, T, I, R, K>,
}

impl<'p, I: Init<Vec<u8>, Empty>, R: Reset<Vec<u8>, Empty>> Buffer<'p, I, R> {
    ghost use Rattle.pool_parts.specs.declared.page.word.TheConstants.{PAGE_ITEMS};
    ghost use Rattle.pool_parts.specs.declared.pull_error.PullError.TheVariants.{Memory};
    ghost use Rattle.object_pool_cores.specs.Buffers.{bytes_of, capacity_of, page_of, buffer_id};

    /// Makes a buffer of a pulled item.
    pub(super) fn new(item: LinearReusable<'p, Vec<u8>, I, R, Empty>) -> Buffer<'p, I, R>
        ensures { result.item ≡ item.entry }
    {
        Buffer { item }
    }

    /// Returns the bytes in the buffer.
    pub fn as_slice(&self) -> &[u8]
        ensures { result.now ≡ bytes_of self.now }
    {
        self.item.as_slice()
    }

    /// Appends bytes to those that are there.
    ///
    /// # Errors
    ///
    /// `Memory` if the buffer has too little room for them and can't grow. Its bytes stay as they
    /// were.
    pub fn append(&mut self, bytes: &[u8]) -> Result<(), PullError>
        ensures ok { OnOk result (bytes_of self.new ≡ bytes_of self.old ++ bytes.now) }
        ensures err { OnErr result (bytes_of self.new ≡ bytes_of self.old) }
        ensures refused { IfErr result (λ error. error ≡ Memory) }
        ensures room_is_there { length (bytes_of self.old) + length bytes.now
            ≤ capacity_of self.old → IsOk result }
        ensures nothing { bytes.now ≡ [] → IsOk result }
        ensures room { capacity_of self.old ≤ capacity_of self.new }
        ensures page { page_of self.new ≡ page_of self.old }
        ensures id { buffer_id self.new ≡ buffer_id self.old }
    {
        match self.item.extend_from_slice(bytes) {
            Ok(()) => Ok(()),
            Err(_) => Err(PullError::Memory),
        }
    }

    /// Returns the number of the buffer's page in the pool, counted from 0.
    pub fn page_number(&self) -> usize
        ensures { result ≡ page_of self.now }
    {
        self.item.page_number()
    }

    /// Returns the number of the buffer in its page.
    pub fn page_id(&self) -> PageId
        ensures value { result ≡ buffer_id self.now }
        ensures in_page { result < PAGE_ITEMS }
    {
        self.item.page_id()
    }
}

impl<I: Init<Vec<u8>, Empty>, R: Reset<Vec<u8>, Empty>> Debug for Buffer<'_, I, R> {
    fn fmt<W: Write>(&self, f: &mut Formatter<W>) -> fmt::Result {
        Debug::fmt(&self.item, f)
    }
}
