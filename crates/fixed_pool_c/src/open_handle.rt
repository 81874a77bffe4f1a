//! The parts of an open handle: its pool, and a place of it or none.
ghost use Rattle.std.specs.Prelude.{◌≡◌};
ghost use Rattle.std.specs.Arc.{arc_value};
ghost use Rattle.fixed_pools.specs.FixedPool.{fixed_view};
ghost use Rattle.pool_parts.specs.Item.{same_page};

use crate::way::Way;
use fixed_pools::clean::AnyValue;
use fixed_pools::closures::{Copied, Keep};
use fixed_pools::fixed_object_pool::PoolNote;
use fixed_pools::{FixedObjectPool, FixedOwnedReusable};
use std::mem::ManuallyDrop;
use std::sync::Arc;
use std::sync::atomic::AtomicUsize;

/// A pool of places alone.
pub type PlacePool = FixedObjectPool<(), Copied<(), AnyValue>, Keep>;

/// A place in use, with an owner of its pool.
pub type PlaceInUse = FixedOwnedReusable<(), Copied<(), AnyValue>, Keep>;

/// An owner of a pool that holds no place, and what it knows of the pool's history.
#[derive(Drop)]
pub struct Idle {
    pub pool: Arc<PlacePool>,
    pub note: PoolNote<()>,
    pub ghost of_pool: { note.seat.table_id ≡ (fixed_view (arc_value pool)).identity } by { same_page _ _ },
}

/// A place, or none.
#[derive(Drop)]
pub enum HandleState {
    Empty(Idle),
    Full(PlaceInUse),
}

/// The note that a closed handle or cache keeps: what it knew of its pool's history at its end. It
/// has no bytes.
pub struct FinalNote {
    pub note: ManuallyDrop<PoolNote<()>>,
}

/// The contents of an open handle.
#[derive(Drop)]
pub struct OpenHandle {
    pub way: Way,
    /// The pool's tag, which its places bear.
    pub tag: usize,
    /// How many handles and caches the pool has had. It promises nothing but that their ways
    /// differ.
    pub handles: Arc<AtomicUsize>,
    /// `None` only within a call.
    pub state: Option<HandleState>,
}
