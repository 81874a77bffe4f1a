//! Pools of types that define how they are made and reset.
//!
//! A type needs one impl of [`Recyclable`]. Its pools are [`Pool`], [`FixedPool`], [`LazyPool`],
//! [`MutexPool`] and [`SpinLockPool`].
pub use fixed_pools::recycling::{FixedPool, FixedPoolOwnedReusable, FixedPoolReusable};
pub use lazy_pools::recycling::{LazyPool, LazyPoolOwnedReusable, LazyPoolReusable};
pub use linear_pools::recycling::{OwnedReusable, Pool, Reusable};
pub use pool_parts::recycling::{Recyclable, Recycler};
pub use stack_pools::recycling::{
    MutexPool, MutexPoolOwnedReusable, MutexPoolReusable, SpinLockPool, SpinLockPoolOwnedReusable,
    SpinLockPoolReusable,
};
