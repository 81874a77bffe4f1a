//! The values of a page before it is linked.
ghost use Rattle.std.specs.Prelude.{◌≡◌, ◌≢◌, Some, None, map, length, All, IfOk, IfErr};
ghost use Rattle.pool_parts.specs.declared.pull_error.PullError.TheVariants.{Init, Limit};

use pool_parts::PullError;
use pool_parts::page::PAGE_ITEMS;
use std::alloc::Global;
use std::marker::Model;

/// 32 values for a new page.
///
/// # Examples
///
/// ```rust
/// let first = Prepared::make(alloc, &|| Some(0u32))?;
/// let mut world = World::new(alloc, first, Keep)?;
/// ```
#[derive(Drop)]
pub struct Prepared<T> {
    places: Vec<Option<T>>,
}

impl<T> Model for Prepared<T> {
    ghost use Rattle.std.specs.Prelude.{List};
    ghost use Rattle.pool_world.specs.World.Inside.Prepared.{values_of, IsComplete};

    ghost Value = { List T };

    ghost view = { λ prepared. values_of prepared.places.items };

    ghost invariant = { λ prepared. IsComplete prepared.places.items };
}

impl<T: Drop> Prepared<T> {
    /// Makes 32 values by `init`, in order.
    ///
    /// # Errors
    ///
    /// `Memory`, or `Init` at the first `None` of `init`. The values that were made are dropped.
    ///
    /// # Examples
    ///
    /// ```rust
    /// let first = Prepared::make(alloc, &|| Some(0u32))?;
    /// ```
    pub fn make<I: Fn() -> Option<T>>(alloc: Global, init: &I) -> Result<Prepared<T>, PullError>
        requires { I.pre init.now }
        ensures values { IfOk result (All (λ value. I.post init.now (Some value))) }
        ensures count { IfOk result (λ values. length values ≡ PAGE_ITEMS) }
        ensures refused { IfErr result (λ cause. cause ≡ Init → I.post init.now None) }
        ensures unlimited { IfErr result (λ cause. cause ≢ Limit) }
    {
        let mut places = Vec::new(alloc);
        places.reserve(PAGE_ITEMS)?;
        for index in 0..PAGE_ITEMS {
            let _ = index;
            match init() {
                Some(value) => places.push(Some(value))?,
                None => return Err(PullError::Init),
            }
        }
        Ok(Prepared { places })
    }

    /// Returns the values, each at its place.
    pub(super) fn into_places(self) -> Vec<Option<T>>
        ensures places { result.items ≡ map Some self }
        ensures count { length self ≡ PAGE_ITEMS }
    {
        self.places
    }
}
