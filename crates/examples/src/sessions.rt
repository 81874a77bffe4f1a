//! A table of open sessions. Each has a basket of a pool, into which it puts products, until it is
//! closed.
ghost use Rattle.std.specs.Prelude.{◌≡◌, ◌≢◌, ℕ, [], ◌∷◌, ◌++◌, None, Some, Err, IsSome, OnOk, OnErr, IfErr};
ghost use Rattle.pool_parts.specs.declared.pull_error.PullError.TheVariants.{Memory};

use lockfree_object_pool::clean::Empty;
use lockfree_object_pool::closures::{Clear, WithCapacity};
use lockfree_object_pool::{LinearObjectPool, LinearOwnedReusable, PullError};
use std::alloc::Global;
use std::collections::BTreeMap;
use std::sync::Arc;

/// A pool of empty baskets, which several tables may share.
pub type BasketPool = LinearObjectPool<Vec<u32>, WithCapacity, Clear, Empty>;

/// A basket with the numbers of products. Its drop brings it back to its pool.
pub type Basket = LinearOwnedReusable<Vec<u32>, WithCapacity, Clear, Empty>;

/// The open sessions, by their numbers.
#[derive(Drop)]
pub struct Sessions {
    pool: Arc<BasketPool>,
    open: BTreeMap<u64, Basket>,
}

impl Sessions {
    ghost use Rattle.std.specs.Option.{option_copied, option_map};
    ghost use Rattle.examples.specs.Sessions.{basket_of, limit_of};

    /// Creates a table of no sessions.
    pub fn new(alloc: Global, pool: Arc<BasketPool>) -> Sessions
        ensures { (session : ℕ) → basket_of result session ≡ None }
    {
        Sessions {
            pool,
            open: BTreeMap::new(alloc),
        }
    }

    /// Opens a session, or opens it anew. Its basket is empty, whoever had the number or the basket
    /// before. That of an open session goes back once the new one is there, so at its limit a pool
    /// refuses it.
    ///
    /// # Errors
    ///
    /// As the pool's `pull_owned`, and `Memory` too if the table can't grow. The session is as
    /// before then.
    pub fn open(&mut self, session: u64) -> Result<(), PullError>
        ensures empty { OnOk result (basket_of self.new session ≡ Some []) }
        ensures others { (other : ℕ) → other ≢ session
            → basket_of self.new other ≡ basket_of self.old other }
        ensures refused { OnErr result (basket_of self.new session ≡ basket_of self.old session) }
        ensures limited { result ≡ Err PullError.Limit → IsSome (limit_of self.old) }
    {
        let basket = self.pool.pull_owned()?;
        match self.open.insert(session, basket) {
            Ok(_) => Ok(()),
            Err(_) => Err(PullError::Memory),
        }
    }

    /// Closes a session. Its basket is in the pool again.
    pub fn close(&mut self, session: u64)
        ensures closed { basket_of self.new session ≡ None }
        ensures others { (other : ℕ) → other ≢ session
            → basket_of self.new other ≡ basket_of self.old other }
    {
        self.open.remove(&session);
    }

    /// Puts a product into the basket of a session. If it isn't open, nothing happens.
    ///
    /// # Errors
    ///
    /// `Memory` if the basket can't grow. It is as before then.
    pub fn add(&mut self, session: u64, product: u32) -> Result<(), PullError>
        ensures added { OnOk result (basket_of self.new session
            ≡ option_map (λ products. products ++ product ∷ []) (basket_of self.old session)) }
        ensures others { (other : ℕ) → other ≢ session
            → basket_of self.new other ≡ basket_of self.old other }
        ensures refused { OnErr result (basket_of self.new session ≡ basket_of self.old session) }
        ensures open_alone { OnErr result (IsSome (basket_of self.old session)) }
        ensures memory_alone { IfErr result (λ cause. cause ≡ Memory) }
    {
        if let Some(basket) = self.open.get_mut(&session) {
            basket.push(product)?;
        }
        Ok(())
    }

    /// Returns what an open session has gathered.
    pub fn products(&self, session: u64) -> Option<&[u32]>
        ensures { option_copied result ≡ basket_of self.now session }
    {
        let basket = self.open.get(&session)?;
        Some(basket.as_slice())
    }
}

#[cfg(test)]
mod tests;
