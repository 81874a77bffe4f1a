//! The number of a page in its chain.
ghost use Rattle.std.specs.Prelude.{◌≡◌, ℕ, List, Some};
ghost use Rattle.std.specs.Arc.{arc_value};
ghost use Rattle.std.specs.Option.{option_map};
ghost use Rattle.std.specs.declared.alloc.Global.{Global};
ghost use Rattle.page_chain.specs.Walk.{known_link, known_next, IsLinkedAt};
ghost use Rattle.page_chain.specs.Links.{cell_in_row};
ghost use Rattle.pool_parts.specs.Page.{PageView, page_view};
ghost use Rattle.page_chain.specs.WalkSteps.{IsKnownAt};

use super::directory::{LinkPlace, Row};
use super::link_note::LinkNote;
use super::opened_page::OpenedPage;
use once_cell::race::{Note, OnceBox};
use pool_parts::clean::Clean;
use std::alloc::Global;
use std::snapshot::Snapshot;

/// The number of a page in its chain, and what was learned of the link to it. At run time it is
/// only the number.
#[derive(Drop)]
pub struct PageNumber<T, K: Clean<T>, O: Clean<T>> {
    /// How many links lead to the page from the first page of its chain.
    pub number: usize,
    row: Note<Row<T, K, O>>,
    link: Note<OpenedPage<T, K, O>>,
}

// What a note owns names no thread: `proofs/ReusableShared` proves it, for each call that requires
// `Sync`.
unsafe impl<T, K: Clean<T>, O: Clean<T>> Sync for PageNumber<T, K, O> {}

impl<T: Drop, K: Clean<T>, O: Clean<T>> PageNumber<T, K, O> {
    /// Returns the number of a page at which a walk starts. Its notes are of no link of a chain.
    pub(super) fn of_start(alloc: Global, number: usize) -> PageNumber<T, K, O>
        ensures { result.number ≡ number }
    {
        PageNumber {
            number,
            row: OnceBox::new(alloc).note(),
            link: OnceBox::new(alloc).note(),
        }
    }

    /// Returns the number of the page to which the link of this note leads.
    pub(super) fn of_link(number: usize, note: LinkNote<T, K, O>) -> PageNumber<T, K, O>
        ensures number { result.number ≡ number }
        ensures linked { (links : List (Global × ℕ)) (page : PageView T) →
            IsKnownAt links number note page → IsLinkedAt links result page }
    {
        let LinkNote {
            row,
            link,
            offset: _,
        } = note;
        PageNumber { number, row, link }
    }

    /// Returns the note of the link at this place, whose row and link are those of the number's
    /// notes.
    pub(super) fn into_note(self, place: &LinkPlace<'_, T, K, O>) -> LinkNote<T, K, O>
        requires { cell_in_row self.row.known place.now.offset ≡ Some self.link.cell }
        ensures row { (known_link result).0 ≡ self.row.cell }
        ensures offset { (known_link result).1 ≡ place.now.offset }
        ensures next { known_next result ≡ option_map
            (λ page. page_view (arc_value page)) self.link.known }
    {
        let PageNumber {
            number: _,
            row,
            link,
        } = self;
        LinkNote {
            row,
            link,
            offset: Snapshot::of(&place.offset),
        }
    }

    /// Returns a second number of the same page.
    pub(super) fn again(&mut self) -> PageNumber<T, K, O>
        ensures same { self.new ≡ self.old }
        ensures again { result ≡ self.old }
    {
        PageNumber {
            number: self.number,
            row: self.row.again(),
            link: self.link.again(),
        }
    }

    /// Returns how many links lead to the page from the first page of its chain.
    pub fn get(&self) -> usize
        ensures { result ≡ self.now.number }
    {
        self.number
    }
}
