//! The answers of the exported calls, as numbers. The header has them as an enumeration of C.
//!
//! Both change together.

/// The call was done.
pub const DONE: u32 = 0;

/// All places were in use at one moment of the call, or 2^32 returns and more came within it.
pub const ALL_IN_USE: u32 = 1;

/// The handle holds a place already.
pub const HOLDS_ONE: u32 = 2;

/// The handle holds no place.
pub const HOLDS_NONE: u32 = 3;

/// The handle has no pool.
pub const NO_POOL: u32 = 4;

/// The handle that was to be made has a pool already.
pub const HAS_POOL: u32 = 5;

/// A pool of no places was asked for.
pub const NO_PLACES: u32 = 6;

/// Memory was refused, or the pool can have no more handles.
pub const NO_MEMORY: u32 = 7;

/// The place bears the tag of another pool.
pub const OTHER_POOL: u32 = 8;

/// The pool has no place of that number.
pub const NO_SUCH_PLACE: u32 = 9;
