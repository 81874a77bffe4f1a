//! The bits that an agent tries, and where it goes next.
ghost use Rattle.std.specs.Prelude.{◌≡◌, ◌<◌, ◌==◌, ◌+◌, ◌-◌, Some, nat_eq, bit_and};
ghost use Rattle.std.specs.Int.{w32, trailing_zeros};
ghost use Rattle.std.specs.Option.{option_eq};
ghost use Rattle.pool_parts.specs.declared.page.word.TheConstants.{PAGE_ITEMS};
ghost use Rattle.pool_world.specs.World.Machine.{tries, tries_hinted};
ghost use Rattle.pool_world.specs.World.Machine.{comes_to};
ghost use Rattle.pool_world.specs.World.Inside.LinkCapacity.{LinksNoPage};

use crate::interleave::point::Point;
use pool_parts::page::{PAGE_ITEMS, PageId, take_least};

/// Returns whether there is a limit, and it is the count after `page`.
pub fn is_last_allowed(limit: Option<usize>, page: usize) -> bool
    ensures { result ≡ option_eq nat_eq limit (Some (page + 1)) }
{
    match limit {
        Some(limit) => is_last(limit, page),
        None => false,
    }
}

/// Returns whether the page is the last of so many.
pub fn is_last(pages: usize, page: usize) -> bool
    ensures { result ≡ (pages == page + 1) }
{
    pages > page && pages - page == 1
}

/// Returns the point to which an agent on a page goes next, with these bits to try.
pub fn tries<T>(page: usize, mask: u32, asked: Option<usize>) -> Point<T>
    ensures value { result ≡ tries page mask asked }
    ensures room { LinksNoPage result }
{
    if mask == 0 {
        Point::AtLink(page, asked)
    } else {
        Point::Clearing(page, mask, asked)
    }
}

/// Returns the point to which an agent on a page that a hint named goes next, with these bits to
/// try.
pub fn tries_hinted<T>(hint: usize, mask: u32) -> Point<T>
    ensures value { result ≡ tries_hinted hint mask }
    ensures room { LinksNoPage result }
{
    if mask == 0 {
        Point::AtLink(0, Some(hint))
    } else {
        Point::ClearingHinted(hint, mask)
    }
}

/// Returns the point of an agent that comes to a page: past it, if a hint led there in vain.
pub fn comes_to<T>(page: usize, asked: Option<usize>) -> Point<T>
    ensures value { result ≡ comes_to page asked }
    ensures room { LinksNoPage result }
{
    if asked == Some(page) {
        Point::AtLink(page, asked)
    } else {
        Point::Reading(page, asked)
    }
}

/// Returns a mask without its lowest set bit, and that bit's place.
pub fn split_lowest(mask: u32) -> (u32, PageId)
    requires { 0 < mask }
    ensures rest { result.0 ≡ bit_and mask (mask - 1) }
    ensures lowest { result.1 ≡ trailing_zeros w32 mask }
    ensures in_page { result.1 < PAGE_ITEMS }
{
    match take_least(mask) {
        Some(split) => split,
        None => (0, 0),
    }
}
