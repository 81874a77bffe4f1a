//! A chain of pages, which grows by a page at its end and never shrinks.
//!
//! Its modules, from what others stand on:
//!
//! - `opened_page`: a page with the condition on its first values
//! - `hints`: which pages may have a free item
//! - `link_note`, `page_number`: what a caller has learned of a link, and of the number of a page
//! - `directory`: where a link lies
//! - `linked_page`, `walk`: a page of a chain with its link, and from page to page for an item
//! - `chain`: the chain, its pulls and its returns
//!
//! No call waits for another thread.

mod chain;
mod directory;
mod hints;
mod link_note;
mod linked_page;
mod opened_page;
mod page_number;
mod walk;

pub use chain::Chain;
pub use link_note::LinkNote;
pub use linked_page::LinearPage;
pub use page_number::PageNumber;
pub use walk::{LimitSeen, WalkEnd, WalkRefusal};
