//! At which pages a handle or a cache pulls.
use fixed_pools::page::PAGE_ITEMS;

/// How many pages apart ways begin. In a pool of many pages their words then lie on cache lines of
/// their own.
const PAGES_APART: usize = 17;

/// At which page pulls begin, so that the handles and caches of a pool seldom meet. It promises
/// nothing.
#[derive(Drop)]
pub struct Way {
    page: usize,
    /// How many pages apart from others it goes on.
    apart: usize,
    moves: usize,
}

impl Way {
    /// Makes the way of this number in a pool of so many items. No two begin at one page, while
    /// there are pages.
    pub(crate) fn new(number: usize, items: usize) -> Way {
        let step = if items.div_ceil(PAGE_ITEMS) % PAGES_APART == 0 {
            1
        } else {
            PAGES_APART
        };
        let page = number.wrapping_mul(step);
        Way {
            page,
            apart: page.wrapping_add(step),
            moves: 0,
        }
    }

    /// Makes the same way, but for the page at which it begins.
    pub(crate) fn beginning_at(self, page: usize) -> Way {
        let Way { apart, moves, .. } = self;
        Way { page, apart, moves }
    }

    /// Returns the page at which the next pull begins. Pages are counted round and round.
    #[inline(always)]
    pub(crate) fn page(&self) -> usize {
        self.page
    }

    /// Goes on after a pull that began at one page and found a place at another one, or at the
    /// same.
    #[inline(always)]
    pub(crate) fn go_on(&mut self, begun: usize, found: usize, items: usize) {
        self.page = found;
        if begun != found {
            self.go_apart(begun, items);
        }
    }

    /// Leaves the page of a place. The pull began at another one, which may be full.
    ///
    /// Others whose pages are full come to the same page, by the pool's hint. So the next pull
    /// begins apart from it, on one side or on the other. If it finds nothing there either, the
    /// next ones stay.
    #[cold]
    #[inline(never)]
    fn go_apart(&mut self, begun: usize, items: usize) {
        let pages = items.div_ceil(PAGE_ITEMS);
        if begun.checked_rem(pages) == Some(self.page) {
            return;
        }
        let page = match self.moves % 3 {
            0 => self.page.wrapping_add(self.apart),
            1 => self.page.wrapping_sub(self.apart),
            _ => self.page,
        };
        self.page = page.checked_rem(pages).unwrap_or(0);
        self.moves = self.moves.wrapping_add(1);
    }
}
