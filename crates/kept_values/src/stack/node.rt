//! One place of a stack, and the link to the next one.

/// A place for one value.
pub struct Node<T> {
    /// The value, or `None` if the place is empty.
    pub value: Option<T>,
    /// The place below this one.
    pub next: Option<Box<Node<T>>>,
}

/// Drops the places one after another, so that the drop of a long stack needs no deep recursion.
impl<T: Drop> Drop for Node<T> {
    fn drop(mut self) {
        loop {
            let Node { value: _, next } = self;
            match next {
                None => return,
                Some(behind) => self = Box::into_inner(behind),
            }
        }
    }
}
