//! The pools that keep returned values on a stack under a lock: behind a mutex and behind a spin
//! lock.
//!
//! Each call that takes the lock may wait, and takes a permission to.
#![tactic(auto)]

pub mod free_list;
pub mod kept_stack;
pub mod mutex_object_pool;
pub mod operation;
pub mod recycling;
pub mod spin_lock;
pub mod spin_lock_object_pool;
pub mod stack_note;
pub mod stack_object_pool;
pub mod stack_reusable;

pub use kept_values::stack;
pub use mutex_object_pool::{MutexObjectPool, MutexOwnedReusable, MutexReusable};
pub use pool_parts::{PullError, clean, closures, made_or_reset};
pub use spin_lock_object_pool::{SpinLockObjectPool, SpinLockOwnedReusable, SpinLockReusable};
