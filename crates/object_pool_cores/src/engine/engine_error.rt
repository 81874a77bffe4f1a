//! Why an engine stopped before the end of its input.
use thiserror::Error;

/// Why an engine stopped before the end of its input. What was played and written stands.
///
/// # Examples
///
/// ```rust
/// engine::run(&rt, alloc, kind, reset, &mut input, &mut output)?;
/// ```
#[derive(Clone, Copy, Debug, PartialEq, Eq, Hash, Error)]
pub enum EngineError {
    /// A read failed.
    #[error("read failed")]
    Read,
    /// A write failed, or took nothing.
    #[error("write failed")]
    Write,
    /// A table couldn't grow, or there was no memory for the pool.
    #[error("out of memory")]
    Memory,
}
