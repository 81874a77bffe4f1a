//! The page at which one user of a pool begins its pulls.
use pool_parts::page::PAGE_ITEMS;
use std::sync::atomic::AtomicUsize;
use std::sync::atomic::Ordering::SeqCst;

/// The page at which the next pull of a place begins. It promises nothing.
#[derive(Drop)]
pub struct OwnPage {
    page: AtomicUsize,
}

impl OwnPage {
    /// Begins at this page.
    pub fn new(page: usize) -> OwnPage {
        OwnPage {
            page: AtomicUsize::new(page),
        }
    }

    /// Returns the page at which the next pull begins. Pages are counted round and round.
    #[inline(always)]
    pub fn number(&self) -> usize {
        self.page.load(SeqCst)
    }

    /// Leaves a page if a pull that began there found an item of another one.
    ///
    /// Others whose pages are full come to that other page too, by the pool's hint. So the next
    /// pull begins beside its own page.
    #[inline(always)]
    pub fn go_on(&self, begun: usize, item: usize) {
        if item / PAGE_ITEMS != begun {
            self.page.store(begun.wrapping_add(1), SeqCst);
        }
    }
}
