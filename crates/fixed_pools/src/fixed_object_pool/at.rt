//! The pull of one item alone, by its place.
ghost use Rattle.std.specs.Prelude.{◌<◌, IfSome};

use super::items::FixedItems;
use pool_parts::clean::Clean;
use pool_parts::page::inside::{Holding, PulledItem};
use pool_parts::page::{PAGE_ITEMS, PageId, has_bit};

impl<T, K: Clean<T>> FixedItems<T, K> {
    ghost use Rattle.fixed_pools.specs.FixedPool.{PullsItem, pool_of};
    ghost use Rattle.pool_parts.specs.Item.{new_user};
    ghost use Rattle.pool_parts.specs.Page.{view_of};
    ghost use Rattle.pool_parts.specs.PageItems.{items_view};

    /// Pulls the item with this number on this page, if it is free.
    pub fn pull_at(&self, page: usize, bit: PageId) -> Option<PulledItem<T>>
        requires in_pool { page < (pool_of self.now).words }
        requires in_page { bit < 32 }
        ensures { IfSome result (λ item. PullsItem K.meets (pool_of self.now) 1
            (new_user (items_view self.now.shared).opening (view_of item.holding.seat).user) item) }
    {
        let (word, mut seat) = self.shared.look(page);
        if !has_bit(word, bit) {
            return None;
        }
        let (value, _) = self.shared.clear(&mut seat, page, bit)?;
        Some(PulledItem {
            holding: Holding {
                seat,
                number: PAGE_ITEMS * page + bit as usize,
            },
            value,
        })
    }
}
