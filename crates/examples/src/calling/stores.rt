//! Types of one's own that keep a pool.
ghost use Rattle.std.specs.Prelude.{◌≡◌, IfOk};

use lockfree_object_pool::clean::{AnyValue, Empty};
use lockfree_object_pool::closures::{Clear, Init, Reset, WithCapacity};
use lockfree_object_pool::recycling::{Pool, Recyclable};
use lockfree_object_pool::{LinearObjectPool, PullError};

/// A store that lends clean values of any recyclable type.
#[derive(Debug, Drop)]
pub struct Store<T: Recyclable> {
    pool: Pool<T>,
}

impl<T: Recyclable> Store<T> {
    /// Returns what the work gives on a clean value.
    pub fn lend<X: Drop, F: Fn(&mut T) -> X>(&self, work: &F) -> Result<X, PullError>
        requires { (value : _) → F.pre work.now value }
    {
        let mut value = self.pool.pull()?;
        Ok(work(&mut value))
    }
}

/// A stock of empty sheets: each type of the pool is named.
#[derive(Debug, Drop)]
pub struct Sheets {
    pool: LinearObjectPool<Vec<u8>, WithCapacity, Clear, Empty>,
}

impl Sheets {
    /// Counts the letters on a sheet that comes.
    pub fn letters(&self) -> Result<usize, PullError>
        ensures { IfOk result (λ letters. letters ≡ 0) }
    {
        Ok(self.pool.pull()?.len())
    }
}

/// A stock of values of any type, whatever makes and resets them: only the condition is named.
#[derive(Debug, Drop)]
pub struct Arena<T: Drop, I: Init<T, AnyValue>, R: Reset<T, AnyValue>> {
    pool: LinearObjectPool<T, I, R>,
}

impl<T: Drop, I: Init<T, AnyValue>, R: Reset<T, AnyValue>> Arena<T, I, R> {
    /// Returns whether a value can be had now.
    pub fn has_one(&self) -> bool {
        self.pool.pull().is_ok()
    }
}

#[cfg(test)]
mod tests;
