//! The list of values that a stack pool keeps under its lock, last returned first.
//!
//! Each value lies in a boxed place that came with it, so keeping a value takes no memory.
ghost use Rattle.std.specs.Prelude.{◌≡◌, [], length, min, IfErr, IfSome, MatchOption, ◌∷◌};
ghost use Rattle.pool_parts.specs.declared.pull_error.PullError.TheVariants.{Memory};

use crate::stack::node::Node;
use atomic_table::Badge;
use pool_parts::PullError;
use pool_parts::clean::Clean;
use std::alloc::Global;
use std::marker::{Model, PhantomData};
use std::sync::Mutex;

mod node;

/// An empty boxed place for one value.
///
/// # Examples
///
/// ```rust
/// let room = Room::new(alloc)?;
/// stack.put(room, 5); // takes no memory
/// ```
#[derive(Drop)]
pub struct Room<T> {
    place: Box<Node<T>>,
}

impl<T> Model for Room<T> {
    ghost use Rattle.std.specs.Prelude.{⊤, box_value};
    ghost use Rattle.kept_values.specs.Kept.{IsVacant};

    ghost Value = { ⊤ };

    ghost view = { λ _. tt };

    ghost invariant = { λ room. IsVacant (box_value room.place) };
}

impl<T: Drop> Room<T> {
    /// Makes an empty place.
    ///
    /// # Errors
    ///
    /// `Memory` if there is no memory for it.
    ///
    /// # Examples
    ///
    /// ```rust
    /// let room = Room::new(alloc)?;
    /// ```
    pub fn new(alloc: Global) -> Result<Room<T>, PullError>
        ensures refused { IfErr result (λ error. error ≡ Memory) }
    {
        let place = Box::new(
            alloc,
            Node {
                value: None,
                next: None,
            },
        )?;
        Ok(Room { place })
    }
}

/// A list of kept values, last returned first. Each meets `K`.
///
/// The marker may be sent and shared whatever `K` is.
///
/// # Examples
///
/// ```rust
/// let mut stack: Stack<u32, AnyValue> = Stack::new();
/// let room = Room::new(alloc)?;
/// stack.put(room, 5); // takes no memory
/// let taken = stack.take(); // 5, with its room
/// ```
pub struct Stack<T, K: Clean<T>> {
    head: Option<Box<Node<T>>>,
    marker: PhantomData<Mutex<Badge<K>>>,
}

impl<T, K: Clean<T>> Model for Stack<T, K> {
    ghost use Rattle.std.specs.Prelude.{List, All};
    ghost use Rattle.kept_values.specs.Kept.{kept_values, IsFullChain};

    ghost Value = { List T };

    ghost view = { λ stack. kept_values stack.head };

    ghost invariant = { λ stack. IsFullChain stack.head × All K.meets (kept_values stack.head) };
}

impl<T: Drop, K: Clean<T>> Stack<T, K> {
    /// Creates a stack that keeps nothing.
    ///
    /// # Examples
    ///
    /// ```rust
    /// let mut stack: Stack<u32, AnyValue> = Stack::new();
    /// ```
    pub fn new() -> Stack<T, K>
        ensures { result ≡ [] }
    {
        Stack {
            head: None,
            marker: PhantomData,
        }
    }

    /// Takes the value that was put last, with its room.
    pub fn take(&mut self) -> Option<(T, Room<T>)>
        ensures first { MatchOption result ((self.old ≡ []) × (self.new ≡ []))
            (λ taken. self.old ≡ taken.0 ∷ self.new) }
        ensures clean { IfSome result (λ taken. K.meets taken.0) }
    {
        let mut place = self.head.take()?;
        self.head = place.next.take();
        match place.value.take() {
            Some(value) => Some((value, Room { place })),
            None => unreachable!(),
        }
    }

    /// Keeps a value in an empty room.
    pub fn put(&mut self, room: Room<T>, value: T)
        requires { K.meets value }
        ensures { self.new ≡ value ∷ self.old }
    {
        let Room { mut place } = room;
        place.value = Some(value);
        place.next = self.head.take();
        self.head = Some(place);
    }

    /// Counts the values that are kept, up to `usize::MAX`.
    pub fn kept(&self) -> usize
        ensures { result ≡ min (length self.now) usize.MAX }
    {
        let mut count = 0usize;
        let mut next = &self.head;
        while let Some(place) = next {
            count = count.saturating_add(1);
            next = &place.next;
        }
        count
    }
}

impl<T: Drop, K: Clean<T>> Drop for Stack<T, K> {
    fn drop(self) {
        let Stack { head: _, marker: _ } = self;
    }
}
