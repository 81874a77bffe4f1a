//! Why a pool refused a value from outside.

/// Why a pool didn't make an item of a value from outside. The value comes back, and the pool is as
/// before.
///
/// # Examples
///
/// ```rust
/// let item = core.attach(5)?;
/// ```
#[derive(Debug, PartialEq, Eq, Drop)]
pub enum AttachError<T> {
    /// There is no memory for the item.
    Memory(T),
    /// The pool takes no values from outside.
    NotOffered(T),
}
