//! One page in use. Here stands how its tests come to an item.
ghost use Rattle.std.specs.Prelude.{◌≡◌, IfSome};
ghost use Rattle.std.specs.Arc.{arc_value};
ghost use Rattle.pool_parts.specs.Page.{page_view};

use pool_parts::clean::Clean;
use pool_parts::page::{OwnedSlot, Page, PageSlot};
use std::sync::Arc;

mod histories;
mod ids;
pub mod sharing;
mod slots;
mod words;

/// An item that a page gives.
fn item<'s, T: Drop, K: Clean<T>>(page: &'s Page<T, K>) -> Option<PageSlot<'s, T, K>>
    ensures { IfSome result (λ slot. slot.item.page ≡ (page_view page.now).identity) }
{
    page.alloc().ok()?
}

/// An item that a page gives, with an owner of the page.
fn owned_item<T: Drop, K: Clean<T>>(page: &Arc<Page<T, K>>) -> Option<OwnedSlot<T, K>>
    ensures { IfSome result (λ slot. slot.item.page ≡ (page_view (arc_value page.now)).identity) }
{
    let owner = Arc::try_clone(page).ok()?;
    let slot = page.alloc().ok()??;
    Some(slot.into_owned(owner))
}
