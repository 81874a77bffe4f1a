//! Letters from one thread to another. The reader drops a letter, and its sheet is written on
//! again.
ghost use Rattle.std.specs.Prelude.{◌≡◌, Err, IsSome, IfOk, vec_len, length};
ghost use Rattle.std.specs.Arc.{arc_value};
ghost use Rattle.linear_pools.specs.LinearPool.{linear_view};

use lockfree_object_pool::clean::Empty;
use lockfree_object_pool::closures::{Clear, WithCapacity};
use lockfree_object_pool::{LinearObjectPool, LinearOwnedReusable, PullError};
use std::sync::Arc;

/// A pool of empty sheets.
pub type SheetPool = LinearObjectPool<Vec<u8>, WithCapacity, Clear, Empty>;

/// A sheet of the pool, which comes home by itself.
type Sheet = LinearOwnedReusable<Vec<u8>, WithCapacity, Clear, Empty>;

/// A letter, as long as its writer says, in whichever thread it is.
#[derive(Drop)]
pub struct Letter {
    sheet: Sheet,
    len: usize,
    ghost whole: { vec_len sheet.item.value ≡ len },
}

impl Letter {
    ghost use Rattle.examples.specs.Letters.{text_of, len_of};

    /// Writes a letter with this text, and nothing of what stood on its sheet before.
    ///
    /// # Errors
    ///
    /// As the pool's `pull_owned`, and `Memory` too if the sheet can't grow.
    pub fn new(pool: &Arc<SheetPool>, text: &[u8]) -> Result<Letter, PullError>
        ensures text { IfOk result (λ letter. text_of letter ≡ text.now) }
        ensures limited { result ≡ Err PullError.Limit → IsSome
            (linear_view (arc_value pool.now)).limit }
    {
        let mut sheet = pool.pull_owned()?;
        sheet.extend_from_slice(text)?;
        Ok(Letter {
            sheet,
            len: text.len(),
        })
    }

    /// Returns what the writer said of its length.
    pub fn len(&self) -> usize
        ensures { result ≡ len_of self.now }
    {
        self.len
    }

    /// Returns the text. It is as long as the writer said, in whichever thread it is read.
    pub fn text(&self) -> &[u8]
        ensures text { result.now ≡ text_of self.now }
        ensures whole { length result.now ≡ len_of self.now }
    {
        self.sheet.as_slice()
    }
}

#[cfg(test)]
mod tests;
