//! Object pools with automatic return: a used object is kept and handed out again.
//!
//! A port of the Rust crate `lockfree-object-pool` 0.1.6 to Rattle. This crate only exports names:
//! each kind of pool has a crate of its own, `linear_pools`, `fixed_pools`, `lazy_pools`,
//! `stack_pools` and `none_pools`, and workers have `pool_workers`.
#![tactic(auto)]

pub mod recycling;

pub use fixed_pools::{
    FixedObjectPool, FixedOwnedReusable, FixedReusable, fixed_object_pool, fixed_owned_reusable,
    fixed_reusable,
};
pub use lazy_pools::{
    LazyObjectPool, LazyOwnedReusable, LazyReusable, lazy_object_pool, lazy_owned_reusable,
    lazy_reusable,
};
pub use linear_pools::{
    LinearObjectPool, LinearOwnedReusable, LinearReusable, linear_object_pool,
    linear_owned_reusable, linear_page, linear_reusable,
};
pub use none_pools::{NoneObjectPool, NoneReusable, none_object_pool, none_reusable};
pub use pool_parts::{PullError, clean, closures, made_or_reset};
pub use pool_workers::{
    Worker, WorkerPlace, WorkerReusable, worker, worker_place, worker_reusable,
};
pub use stack_pools::{
    MutexObjectPool, MutexOwnedReusable, MutexReusable, SpinLockObjectPool, SpinLockOwnedReusable,
    SpinLockReusable, free_list, kept_stack, mutex_object_pool, operation, spin_lock,
    spin_lock_object_pool, stack, stack_note, stack_object_pool, stack_reusable,
};

/// Has the reusable of the mutex pool, as the original's module of this name.
pub mod mutex_reusable {
    pub use stack_pools::MutexReusable;
}

/// Has the owned reusable of the mutex pool, as the original's module of this name.
pub mod mutex_owned_reusable {
    pub use stack_pools::MutexOwnedReusable;
}

/// Has the reusable of the spin lock pool, as the original's module of this name.
pub mod spin_lock_reusable {
    pub use stack_pools::SpinLockReusable;
}

/// Has the owned reusable of the spin lock pool, as the original's module of this name.
pub mod spin_lock_owned_reusable {
    pub use stack_pools::SpinLockOwnedReusable;
}

/// A page of 32 items that threads share without a lock.
pub mod page {
    pub use pool_parts::page::{
        Allocated, FullSeen, OwnedSlot, PAGE_ITEMS, Page, PageAnswer, PageId, PageNote, PageSlot,
        PullPass, Returned, Witness, has_bit, take_least, with_bit, without_bit,
    };
}
