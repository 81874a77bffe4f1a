//! A pool that keeps nothing, to compare others with.
ghost use Rattle.std.specs.Prelude.{◌≡◌, [], ⊤};
ghost use Rattle.std.proofs.Common.{inr, refl};
ghost use Rattle.object_pool_cores.specs.Attach.{RefusesAttach};
ghost use Rattle.object_pool_cores.specs.NoPool.{none_init, NonePulls};

use crate::sequential::{AttachError, Item, SequentialPool};
use pool_parts::PullError;
use pool_parts::clean::AnyValue;
use pool_parts::closures::Init;
use std::marker::PhantomData;
use std::sync::Mutex;

/// A pool whose items are fresh. A return drops the item.
///
/// # Examples
///
/// ```rust
/// let mut core = NoneCore::<u32, _>::new(Copied::new(0));
/// let item = core.pull()?;
/// core.give(item); // drops it
/// ```
#[derive(Drop)]
pub struct NoneCore<T, I: Init<T, AnyValue>> {
    init: I,
    marker: PhantomData<Mutex<T>>,
}

impl<T: Drop, I: Init<T, AnyValue>> NoneCore<T, I> {
    /// Creates a pool of what `init` makes.
    ///
    /// # Examples
    ///
    /// ```rust
    /// let mut core = NoneCore::<u32, _>::new(Copied::new(0));
    /// ```
    pub fn new(init: I) -> NoneCore<T, I>
        ensures { none_init result ≡ init }
    {
        NoneCore {
            init,
            marker: PhantomData,
        }
    }
}

impl<T: Drop, I: Init<T, AnyValue>> SequentialPool<T> for NoneCore<T, I> {
    ghost pulls = { λ old answer new. NonePulls (I.answers (none_init old)) old answer new };

    ghost gives = { λ old _ new. new ≡ old };

    ghost attaches = { λ old value answer new. RefusesAttach old value answer new };

    ghost owns = { λ _ _. ⊤ };

    ghost together = { λ _ _. ⊤ };

    ghost kept = { λ _. [] };

    ghost answers = { λ core answer. I.answers (none_init core) answer };

    ghost leaves = { λ _ _ _. ⊥ };

    fn pull(&mut self) -> Result<Item<T>, PullError>
        ensures { NonePulls (I.answers (none_init self.old)) self.old result self.new }
    {
        match self.init.make() {
            Some(value) => Ok(Item::fresh(value)),
            None => Err(PullError::Init),
        }
    }

    fn give(&mut self, item: Item<T>)
        ensures { self.new ≡ self.old }
    {
        drop(item);
    }

    fn attach(&mut self, value: T) -> Result<Item<T>, AttachError<T>>
        ensures { RefusesAttach self.old value result self.new }
    {
        Err(AttachError::NotOffered(value))
    }

    fn is_mine(&self, item: &Item<T>) -> bool {
        let _ = item;
        true
    }

    ghost use Rattle.object_pool_cores.specs.Laws.FreshBag.{NonePulls-from_bag};

    ghost pull_from_bag = { λ old new answer pulls.
        NonePulls-from_bag (I.answers (none_init old)) old new answer pulls };

    ghost return_to_bag = { λ old new item owned gives. inr refl };

    ghost attach_beside_bag = { λ old new value answer refused. refl };

    ghost together_at_first = { λ core. tt };

    ghost together_is_owned = { λ core held index item together here. tt };

    ghost together_after_pull = { λ old new held item together pulls. tt };

    ghost together_after_refusal = { λ old new held cause together pulls. tt };

    ghost together_after_attach = { λ old new held value item together refused. tt };

    ghost together_after_give = { λ old new held index item together here gives. tt };

    ghost together_after_forget = { λ core held index together. tt };

    ghost together_after_write = { λ core held index item value together here. tt };
}
