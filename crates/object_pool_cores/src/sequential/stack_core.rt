//! A sequential stack pool: the value that was returned last comes first.
ghost use Rattle.std.specs.Prelude.{◌≡◌, [], IfOk, IsTrue};
ghost use Rattle.object_pool_cores.specs.Item.{item_value, has_room};
ghost use Rattle.object_pool_cores.specs.Stack.{kept_of, stack_init, stack_reset, StackPulls};
ghost use Rattle.object_pool_cores.specs.Stack.{StackGives, StackAttaches, HoldRooms};

use crate::sequential::{AttachError, Item, SequentialPool};
use kept_values::stack::{Room, Stack};
use pool_parts::PullError;
use pool_parts::clean::Clean;
use pool_parts::closures::{Init, Reset};
use std::alloc::Global;

/// A pool that keeps what was returned. An item brings its own room, so a return takes no memory.
///
/// # Examples
///
/// ```rust
/// let mut core = StackCore::<u32, _, _, AnyValue>::new(alloc, Copied::new(0), Keep);
/// let item = core.attach(5)?;
/// core.give(item); // the next pull gives it
/// assert_eq!(rt; *core.pull()?, 5);
/// ```
pub struct StackCore<T: Drop, I: Init<T, K>, R: Reset<T, K>, K: Clean<T>> {
    alloc: Global,
    init: I,
    reset: R,
    kept: Stack<T, K>,
}

impl<T: Drop, I: Init<T, K>, R: Reset<T, K>, K: Clean<T>> Drop for StackCore<T, I, R, K> {
    fn drop(self) {
        let StackCore {
            alloc: _,
            init: _,
            reset: _,
            kept: _,
        } = self;
    }
}

impl<T: Drop, I: Init<T, K>, R: Reset<T, K>, K: Clean<T>> StackCore<T, I, R, K> {
    /// Creates a pool that keeps nothing yet.
    ///
    /// # Examples
    ///
    /// ```rust
    /// let mut core = StackCore::<u32, _, _, AnyValue>::new(alloc, Copied::new(0), Keep);
    /// ```
    pub fn new(alloc: Global, init: I, reset: R) -> StackCore<T, I, R, K>
        ensures kept { kept_of result ≡ [] }
        ensures init { stack_init result ≡ init }
        ensures reset { stack_reset result ≡ reset }
    {
        StackCore {
            alloc,
            init,
            reset,
            kept: Stack::new(),
        }
    }
}

impl<T: Drop, I: Init<T, K>, R: Reset<T, K>, K: Clean<T>> SequentialPool<T>
    for StackCore<T, I, R, K> {
    ghost pulls = { λ old answer new. StackPulls (I.answers (stack_init old)) old answer new };

    ghost gives = { λ old item new. StackGives (R.leaves (stack_reset old)) old item new };

    ghost attaches = { λ old value answer new. StackAttaches old value answer new };

    ghost owns = { λ _ item. IsTrue (has_room item) };

    ghost together = { λ _ held. HoldRooms held };

    ghost kept = { λ core. kept_of core };

    ghost answers = { λ core answer. I.answers (stack_init core) answer };

    ghost leaves = { λ core old new. R.leaves (stack_reset core) old new };

    fn pull(&mut self) -> Result<Item<T>, PullError>
        ensures step { StackPulls (I.answers (stack_init self.old)) self.old result self.new }
        ensures meets { IfOk result (λ item. K.meets (item_value item)) }
    {
        if let Some((value, room)) = self.kept.take() {
            return Ok(Item::with_room(value, room));
        }
        let room = Room::new(self.alloc)?;
        match self.init.make() {
            Some(value) => Ok(Item::with_room(value, room)),
            None => Err(PullError::Init),
        }
    }

    fn give(&mut self, item: Item<T>)
        requires { IsTrue (has_room item) }
        ensures { StackGives (R.leaves (stack_reset self.old)) self.old item self.new }
    {
        let (mut value, room) = item.into_parts();
        let Some(room) = room else { unreachable!() };
        self.reset.reset(&mut value);
        self.kept.put(room, value);
    }

    fn attach(&mut self, value: T) -> Result<Item<T>, AttachError<T>>
        ensures { StackAttaches self.old value result self.new }
    {
        match Room::new(self.alloc) {
            Ok(room) => Ok(Item::with_room(value, room)),
            Err(_) => Err(AttachError::Memory(value)),
        }
    }

    fn is_mine(&self, item: &Item<T>) -> bool {
        item.has_room()
    }

    ghost use Rattle.object_pool_cores.specs.Laws.StackLaws.{StackPulls-from_bag};
    ghost use Rattle.object_pool_cores.specs.Laws.StackLaws.{StackGives-to_bag, HoldRooms-push};
    ghost use Rattle.object_pool_cores.specs.Laws.StackLaws.{HoldRooms-less, HoldRooms-written};
    ghost use Rattle.std.proofs.Common.{ap};

    ghost pull_from_bag = { λ old new answer pulls.
        StackPulls-from_bag (I.answers (stack_init old)) old new answer pulls };

    ghost return_to_bag = { λ old new item owned gives.
        StackGives-to_bag (R.leaves (stack_reset old)) old new item gives };

    ghost attach_beside_bag = { λ old new value answer attached.
        ap (λ core. kept_of core) attached.same };

    ghost together_at_first = { λ core index item e. absurd cc };

    ghost together_is_owned = { λ core held index item rooms here. rooms index item here };

    ghost together_after_pull = { λ old new held item rooms pulls.
        HoldRooms-push held item rooms pulls.room };

    ghost together_after_refusal = { λ old new held cause rooms pulls. rooms };

    ghost together_after_attach = { λ old new held value item rooms attached.
        HoldRooms-push held item rooms attached.room };

    ghost together_after_give = { λ old new held index item rooms here gives.
        HoldRooms-less held index rooms };

    ghost together_after_forget = { λ core held index rooms. HoldRooms-less held index rooms };

    ghost together_after_write = { λ core held index item value rooms here.
        HoldRooms-written held index item value rooms here };
}
