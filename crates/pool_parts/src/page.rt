//! A page of 32 items that threads share without a lock. Its word has a bit for each item, which is
//! set if the item is free.
//!
//! Its modules, from what others stand on:
//!
//! - `word`: the pure steps on a word
//! - `history`: what users do with the items of a page
//! - `user_view`, `rule`: what a user knows, what holds between two steps, and the kinds of step
//! - `note`, `holding`: what somebody knows who has no item, and what a user has that took one
//! - `items`, `steps`: the words and places of a page or of a fixed pool, and the steps on them
//! - `meeting`: how the holders of two items find that they have two items
//! - `slot`, `owned_slot`: an item in use, with a borrow or an owner of its page
//! - `full_seen`: the answer of a page, and what a pull has of a full one
//! - `shared_page`: a page with its calls
//!
//! No call waits for another thread or tries again: a page reads its word once, and then clears
//! single bits.

mod full_seen;
mod history;
mod holding;
mod items;
mod meeting;
mod note;
mod owned_slot;
mod rule;
mod shared_page;
mod slot;
mod steps;
mod user_view;
mod word;

pub use full_seen::{Allocated, FullSeen, PageAnswer, PullPass};
pub use note::{PageNote, Returned, Witness};
pub use owned_slot::OwnedSlot;
pub use shared_page::Page;
pub use slot::PageSlot;
pub use word::{PAGE_ITEMS, PageId, has_bit, take_least, with_bit, without_bit};

/// What the crates of the pools stand on besides: items in use, the items of a page or of a fixed
/// pool, and what their users know. `lockfree_object_pool` doesn't export it.
pub mod inside {
    pub use super::holding::{Holding, PulledItem};
    pub use super::items::{Items, TakenValue};
    pub use super::user_view::{UserSeat, UserView};
}
