//! Which pool an engine plays on, and how its items are reset.

/// The pool that an engine plays on.
///
/// # Examples
///
/// ```rust
/// let (kind, reset) = (Kind::Linear, Reset::Keep);
/// engine::run(&rt, alloc, kind, reset, &mut input, &mut output)?;
/// ```
#[derive(Clone, Copy, Debug, PartialEq, Eq)]
pub enum Kind {
    /// A linear pool of any number of pages.
    Linear,
    /// A linear pool of at most so many pages, 1 or more.
    Bounded(usize),
    /// A stack of kept items.
    Stack,
    /// No pool: each item is fresh.
    None,
}

/// What a return leaves of an item.
///
/// # Examples
///
/// ```rust
/// let (kind, reset) = (Kind::Linear, Reset::Keep);
/// ```
#[derive(Clone, Copy, Debug, PartialEq, Eq)]
pub enum Reset {
    /// The item becomes 0.
    Zero,
    /// Nothing changes.
    Keep,
}
