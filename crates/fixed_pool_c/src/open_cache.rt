//! The contents of an open cache: an owner of its pool, and the places that it keeps.
ghost use Rattle.std.specs.Prelude.{◌≡◌, All};
ghost use Rattle.std.specs.Arc.{arc_value};
ghost use Rattle.fixed_pools.specs.FixedPool.{fixed_view};
ghost use Rattle.fixed_pool_c.specs.Kept.{IsOfPool, kept_props};
ghost use Rattle.pool_parts.specs.Item.{same_page};

use crate::open_handle::PlacePool;
use crate::way::Way;
use fixed_pools::fixed_object_pool::PoolNote;
use pool_parts::page::inside::Holding;
use std::sync::Arc;

/// The contents of an open cache.
#[derive(Drop)]
pub struct OpenCache {
    /// Where it pulls if it keeps no place.
    pub way: Way,
    /// The pool's tag, which its places bear.
    pub tag: usize,
    pub pool: Arc<PlacePool>,
    /// The places that it keeps, in the order in which they came back. The capacity is its room.
    pub kept: Vec<Holding<()>>,
    /// What it knows of its pool's history: the returns of places that it kept. It has no bytes.
    pub note: PoolNote<()>,
    pub ghost kept_of_pool: { All (IsOfPool (fixed_view (arc_value pool)).identity) kept.items } by { Prim.hlevel kept_props },
    pub ghost note_of_pool: { note.seat.table_id ≡ (fixed_view (arc_value pool)).identity } by { same_page _ _ },
}
