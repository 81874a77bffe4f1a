//! The numbers of items, by their pages and their places there.
ghost use Rattle.std.specs.Prelude.{◌≡◌, ◌≤◌, ◌<◌, ◌*◌, ◌+◌, MatchOption};
ghost use Rattle.pool_parts.specs.declared.page.word.TheConstants.{PAGE_ITEMS};
ghost use Rattle.pool_world.specs.Pool.{number};

use pool_parts::page::{PAGE_ITEMS, PageId};

/// The count of numbers of a page.
const PAGE_NUMBERS: u128 = PAGE_ITEMS as u128;

/// Returns the number of an item, by its page and its id there.
pub fn number(page: usize, id: PageId) -> u128
    ensures { result ≡ number page id }
{
    PAGE_NUMBERS * page as u128 + u128::from(id)
}

/// Returns the page and the id of a number, if it is below the end of so many pages.
pub fn page_and_id(number: u128, pages: usize) -> Option<(usize, PageId)>
    ensures { MatchOption result (PAGE_ITEMS * pages ≤ number)
        (λ at. (number ≡ PAGE_ITEMS * at.0 + at.1) × (at.1 < PAGE_ITEMS) × (at.0 < pages)) }
{
    let page = usize::try_from(number / PAGE_NUMBERS).ok()?;
    if page >= pages {
        return None;
    }
    Some((page, (number % PAGE_NUMBERS) as PageId))
}
