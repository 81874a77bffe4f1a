//! What a caller has learned of the link from a page to the next.
ghost use Rattle.std.specs.Prelude.{◌≡◌, Some, IfSome};
ghost use Rattle.page_chain.specs.Links.{cell_in_row};
ghost use Rattle.pool_parts.specs.Item.{same_holding};

use super::directory::Row;
use super::opened_page::OpenedPage;
use once_cell::race::Note;
use pool_parts::clean::{AnyValue, Clean};
use std::snapshot::Snapshot;

/// What a caller has learned of one link. It has no bytes, and is for proofs. Two notes of one link
/// that know a page know the same one, whichever threads made them.
///
/// # Examples
///
/// ```rust
/// let (next, _note) = first.next()?; // the note knows which page the link leads to
/// ```
#[derive(Drop)]
pub struct LinkNote<T, K: Clean<T>, O: Clean<T> = AnyValue> {
    pub(super) row: Note<Row<T, K, O>>,
    pub(super) link: Note<OpenedPage<T, K, O>>,
    pub(super) offset: Snapshot<usize>,
    ghost in_row: { cell_in_row row.known offset.value ≡ Some link.cell } by { same_holding _ _ },
}

impl<T, K: Clean<T>, O: Clean<T>> LinkNote<T, K, O> {
    ghost use Rattle.page_chain.specs.Walk.{known_link, known_next};

    /// Compares this note with another of the same link: if both know a page, it is the same one.
    pub fn compare(&mut self, other: LinkNote<T, K, O>)
        requires { known_link other ≡ known_link self.old }
        ensures link { known_link self.new ≡ known_link self.old }
        ensures next { known_next self.new ≡ known_next self.old }
        ensures agree { IfSome (known_next other)
            (λ page. IfSome (known_next self.old) (λ known. known ≡ page)) }
    {
        let LinkNote {
            row,
            link,
            offset: _,
        } = other;
        self.row.compare(row);
        self.link.compare(link);
    }
}
