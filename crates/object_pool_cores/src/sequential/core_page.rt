//! A sequential page of 32 items.
ghost use Rattle.std.specs.Prelude.{◌≡◌, ◌↔◌, Option, Some, None, MatchOption, IsTrue, IfOk, IfErr, ⊤};
ghost use Rattle.std.specs.Prelude.{IfSome, slice_set};
ghost use Rattle.object_pool_cores.specs.OnePage.{IsMadePage, HasNoFreeId, IsMask, IsOutId};
ghost use Rattle.object_pool_cores.specs.OnePage.{TakesLeastId};
ghost use Rattle.pool_parts.specs.Answers.{MayMake, Refuses};

use pool_parts::PullError;
use pool_parts::clean::Clean;
use pool_parts::page::{PAGE_ITEMS, PageId, take_least, with_bit};
use std::alloc::Global;
use std::marker::{Model, PhantomData};
use std::sync::Mutex;

/// A page of 32 items. The least free id is taken first.
///
/// # Examples
///
/// ```rust
/// let mut page: CorePage<u32, AnyValue> = CorePage::new(alloc, &|| Some(0))?;
/// if let Some((id, value)) = page.alloc() {
///     page.free(id, value);
/// }
/// ```
#[derive(Drop)]
pub struct CorePage<T, K: Clean<T>> {
    word: u32,
    places: Vec<Option<T>>,
    condition: PhantomData<Mutex<K>>,
}

impl<T, K: Clean<T>> Model for CorePage<T, K> {
    ghost use Rattle.std.specs.Prelude.{List, Option};
    ghost use Rattle.object_pool_cores.specs.Inside.PageWord.{IsCorePage};

    ghost Value = { List (Option T) };

    ghost view = { λ page. page.places.items };

    ghost invariant = { λ page. IsCorePage K.meets page.word page.places.items };
}

impl<T: Drop, K: Clean<T>> CorePage<T, K> {
    /// Creates a page of 32 free items. Item `i` is the answer of call `i` of `init`, counted from
    /// 0.
    ///
    /// # Errors
    ///
    /// `Memory`, or `Init` at the first `None` of `init`. The items that were made are dropped.
    ///
    /// # Examples
    ///
    /// ```rust
    /// let mut page: CorePage<u32, AnyValue> = CorePage::new(alloc, &|| Some(0))?;
    /// ```
    pub fn new<I: Fn() -> Option<T>>(alloc: Global, init: &I) -> Result<CorePage<T, K>, PullError>
        requires { MayMake I.pre I.post K.meets init.now }
        ensures made { IfOk result (IsMadePage (λ answer. I.post init.now answer) K.meets) }
        ensures refused { IfErr result (Refuses ⊤ (I.post init.now None) ⊥) }
    {
        Ok(CorePage {
            word: u32::MAX,
            places: made_items::<T, I, K>(alloc, init)?,
            condition: PhantomData,
        })
    }

    /// Takes the least free id, with its value.
    ///
    /// # Errors
    ///
    /// `None` if no id is free.
    pub fn alloc(&mut self) -> Option<(PageId, T)>
        ensures least { MatchOption result (HasNoFreeId self.old)
            (λ taken. TakesLeastId self.old taken.0 taken.1 self.new) }
        ensures kept { result ≡ None → self.new ≡ self.old }
        ensures meets { IfSome result (λ taken. K.meets taken.1) }
    {
        let (word, id) = take_least(self.word)?;
        self.word = word;
        match self.places[usize::from(id)].take() {
            Some(value) => Some((id, value)),
            None => unreachable!(),
        }
    }

    /// Frees an id that is in use, with this value.
    pub fn free(&mut self, id: PageId, value: T)
        requires out { IsOutId self.old id }
        requires meets { K.meets value }
        ensures { self.new ≡ slice_set self.old id (Some value) }
    {
        self.word = with_bit(self.word, id);
        self.places[usize::from(id)] = Some(value);
    }

    /// Returns whether the id is in use. It is `false` from 32 on.
    pub fn is_out(&self, id: PageId) -> bool
        ensures { IsTrue result ↔ IsOutId self.now id }
    {
        match self.places.get(usize::from(id)) {
            Some(place) => place.is_none(),
            None => false,
        }
    }

    /// Returns whether no id is free.
    pub fn is_full(&self) -> bool
        ensures { IsTrue result ↔ HasNoFreeId self.now }
    {
        self.word == 0
    }

    /// Returns the word whose set bits are the free ids.
    pub fn get_mask(&self) -> u32
        ensures { IsMask self.now result }
    {
        self.word
    }
}

/// Makes the items of a new page, each free. It stops at the first `None`.
fn made_items<T: Drop, I: Fn() -> Option<T>, K: Clean<T>>(
    alloc: Global,
    init: &I,
) -> Result<Vec<Option<T>>, PullError>
    requires { MayMake I.pre I.post K.meets init.now }
    ensures made { IfOk result
        (λ page. IsMadePage (λ answer. I.post init.now answer) K.meets page.items) }
    ensures refused { IfErr result (Refuses ⊤ (I.post init.now None) ⊥) }
{
    let mut page = Vec::with_capacity(alloc, PAGE_ITEMS)?;
    for _id in 0..PAGE_ITEMS {
        match init() {
            Some(value) => {
                if page.push(Some(value)).is_err() {
                    unreachable!()
                }
            }
            None => return Err(PullError::Init),
        }
    }
    Ok(page)
}
