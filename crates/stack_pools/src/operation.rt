//! What happens to the values that a stack pool keeps.

/// What happens to the values that a stack pool keeps. No value of this type is made.
///
/// An attached value and a detached one are no operations: an attached value is kept by its return.
pub enum Operation<T> {
    /// A pull took this value.
    Pulled(T),
    /// A pull took nothing, as nothing was kept.
    Missed,
    /// This value was kept, by a return or a filling.
    Kept(T),
    /// All values were taken out and dropped.
    Cleared,
    /// The values were counted.
    Counted,
}
