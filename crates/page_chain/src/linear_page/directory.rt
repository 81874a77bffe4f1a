//! Where the links of a chain lie.
//!
//! Row `b` has the links to the pages `2^b` to `2^(b+1) - 1`, and is made when the first of them is
//! needed. Beside its link each page has a hint, which is set if the page may have a free item.
//!
//! The link to a page keeps its place for good, since page numbers and notes name that. The prover
//! tells another place.
ghost use Rattle.std.specs.Prelude.{◌≡◌, ◌^◌, ◌<◌, length, IfOk, IfErr, IfSome, ⊤};
ghost use Rattle.once_cell.specs.Once.{cell_name};
ghost use Rattle.pool_parts.specs.Answers.{Refuses};

use super::hints::{HINTS, HintWord};
use super::link_note::LinkNote;
use super::opened_page::OpenedPage;
use super::page_number::PageNumber;
use once_cell::race::OnceBox;
use pool_parts::PullError;
use pool_parts::clean::Clean;
use pool_parts::page::inside::Holding;
use std::alloc::{AllocError, Global};
use std::marker::Model;
use std::snapshot::Snapshot;

/// How many rows there are: one for each bit of a page's number.
const ROWS: usize = 64;

/// The links to some pages that follow each other, and the pages' hints.
#[derive(Drop)]
pub(super) struct Row<T, K: Clean<T>, O: Clean<T>> {
    pub(super) links: Vec<OnceBox<OpenedPage<T, K, O>>>,
    hints: Vec<HintWord>,
}

impl<T: Drop, K: Clean<T>, O: Clean<T>> Row<T, K, O> {
    /// Creates the row of this number, whose links lead nowhere yet.
    fn new(alloc: Global, number: u32) -> Result<Box<Row<T, K, O>>, PullError>
        requires { number < 64 }
        ensures len { IfOk result (λ row. length row.value.links.items ≡ 2 ^ number) }
        ensures refused { IfErr result (Refuses ⊤ ⊥ ⊥) }
    {
        let len = 1 << number;
        let links = empty_cells(alloc, len)?;
        let hints = no_hints(alloc, len.div_ceil(HINTS))?;
        Ok(Box::new(alloc, Row { links, hints })?)
    }

    /// Returns the first hint that is set, by its page's offset in the row.
    fn first_hint(&self) -> Option<usize> {
        for (index, word) in self.hints.iter().enumerate() {
            if let Some(place) = word.first_from(0) {
                return Some(index << 6 | place as usize);
            }
        }
        None
    }
}

/// Returns set-once cells in which nothing is set.
fn empty_cells<X: Drop>(alloc: Global, count: usize) -> Result<Vec<OnceBox<X>>, PullError>
    ensures len { IfOk result (λ cells. length cells.items ≡ count) }
    ensures refused { IfErr result (Refuses ⊤ ⊥ ⊥) }
{
    let mut cells = Vec::with_capacity(alloc, count)?;
    for _ in 0..count {
        cells.push(OnceBox::new(alloc))?;
    }
    Ok(cells)
}

/// Returns words in which no hint is set.
fn no_hints(alloc: Global, words: usize) -> Result<Vec<HintWord>, PullError>
    ensures refused { IfErr result (Refuses ⊤ ⊥ ⊥) }
{
    let mut hints = Vec::with_capacity(alloc, words)?;
    for _ in 0..words {
        hints.push(HintWord::new())?;
    }
    Ok(hints)
}

/// The links of a chain. Contracts see the rows.
#[derive(Drop)]
pub(super) struct Directory<T, K: Clean<T>, O: Clean<T>> {
    pub(super) alloc: Global,
    rows: Vec<OnceBox<Row<T, K, O>>>,
    /// A hint for each row, which is set if a hint of the row may be set.
    hinted_rows: HintWord,
}

impl<T, K: Clean<T>, O: Clean<T>> Model for Directory<T, K, O> {
    ghost use Rattle.std.specs.Prelude.{◌≡◌, List, length};
    ghost use Rattle.once_cell.specs.declared.race.once_box.OnceBox.{OnceBox};
    ghost use Rattle.page_chain.specs.declared.linear_page.directory.Row.{Row};

    ghost Value = { List (OnceBox (Row T K O)) };

    ghost view = { λ directory. directory.rows.items };

    ghost invariant = { λ directory. length directory.rows.items ≡ 64 };
}

impl<T: Drop, K: Clean<T>, O: Clean<T>> Directory<T, K, O> {
    ghost use Rattle.std.specs.Arc.{arc_value};
    ghost use Rattle.page_chain.specs.Walk.{known_link, IsLinkedAt};
    ghost use Rattle.page_chain.specs.Links.{IsLinkTo};
    ghost use Rattle.pool_parts.specs.Page.{held_page, page_view};

    /// Creates a directory of no links.
    ///
    /// # Errors
    ///
    /// `Memory`.
    pub(super) fn new(alloc: Global) -> Result<Directory<T, K, O>, PullError>
        ensures refused { IfErr result (Refuses ⊤ ⊥ ⊥) }
    {
        Ok(Directory {
            alloc,
            rows: empty_cells(alloc, ROWS)?,
            hinted_rows: HintWord::new(),
        })
    }

    /// Returns the allocator of the rows.
    pub(super) fn allocator(&self) -> Global {
        self.alloc
    }

    /// Returns the page of an item, to which the notes of the page's number lead.
    pub(super) fn linked_page(
        &self,
        number: PageNumber<T, K, O>,
        holding: &Holding<T>,
    ) -> &OpenedPage<T, K, O>
        requires { ∥ IsLinkedAt self.now number (held_page holding.now) ∥₁ }
        ensures { page_view (arc_value result.now) ≡ held_page holding.now }
    {
        let place = self.place(number.get());
        let mut note = number.into_note(&place);
        let Some(page) = place.get_as(&mut note) else {
            unreachable!()
        };
        page
    }

    /// Ensures that two items are of one page, to which the link of this number leads, as the notes
    /// of both know.
    pub(super) fn are_of_one_page(
        &self,
        one: PageNumber<T, K, O>,
        one_holding: &Holding<T>,
        other: PageNumber<T, K, O>,
        other_holding: &Holding<T>,
    )
        requires one { ∥ IsLinkedAt self.now one (held_page one_holding.now) ∥₁ }
        requires other { ∥ IsLinkedAt self.now other (held_page other_holding.now) ∥₁ }
        requires past_first { 0 < one.number }
        requires same_number { other.number ≡ one.number }
        ensures { held_page other_holding.now ≡ held_page one_holding.now }
    {
        let place = self.place(one.get());
        let mut note = one.into_note(&place);
        let known = other.into_note(&place);
        note.compare(known);
    }

    /// Returns the link to the first page that a hint names.
    pub(super) fn hinted(&self) -> Option<HintedLink<'_, T, K, O>>
        ensures { IfSome result (λ hinted. IsLinkTo self.now hinted.number
            (known_link hinted.note)) }
    {
        let mut from = 0;
        while from < u64::BITS {
            let row = self.hinted_rows.first_from(from)?;
            if let Some(hinted) = self.hinted_in(row) {
                return Some(hinted);
            }
            self.hinted_rows.clear(row);
            if self.hinted_in(row).is_some() {
                self.hinted_rows.set(row);
            }
            from = row + 1;
        }
        None
    }

    /// Returns the link to the first page of a row that a hint names.
    fn hinted_in(&self, row_number: u32) -> Option<HintedLink<'_, T, K, O>>
        requires { row_number < 64 }
        ensures { IfSome result (λ hinted. IsLinkTo self.now hinted.number
            (known_link hinted.note)) }
    {
        let cell = &self.rows[row_number as usize];
        let first = 1usize << row_number;
        let mut row = cell.note();
        let known = cell.get_as(&mut row)?;
        let offset = known.first_hint()?;
        if first <= offset {
            return None;
        }
        let link = known.links.get(offset)?;
        let note = LinkNote {
            row,
            link: link.note(),
            offset: Snapshot::of(&offset),
        };
        Some(HintedLink {
            number: first + offset,
            note,
            link,
        })
    }

    /// Sets the hint of a page that may have a free item. It has to be called once the item is
    /// free.
    pub(super) fn set_hint(&self, number: usize)
        requires { 0 < number }
    {
        let place = self.place(number);
        if let Some(word) = place.hint_word() {
            word.set(place.hint_place());
            self.hinted_rows.set(number.ilog2());
        }
    }

    /// Clears the hint of a page that was found full.
    pub(super) fn clear_hint(&self, number: usize)
        requires { 0 < number }
    {
        let place = self.place(number);
        if let Some(word) = place.hint_word() {
            word.clear(place.hint_place());
        }
    }

    /// Returns where the link to a page lies.
    pub(super) fn place(&self, number: usize) -> LinkPlace<'_, T, K, O>
        requires { 0 < number }
        ensures { IsLinkTo self.now number (cell_name result.row.now, result.offset) }
    {
        let row_number = number.ilog2();
        LinkPlace {
            alloc: self.alloc,
            row: &self.rows[row_number as usize],
            row_number,
            offset: number - (1 << row_number),
        }
    }
}

/// A link to a page that a hint names, the page's number, and a note of the link.
#[derive(Drop)]
pub(super) struct HintedLink<'c, T, K: Clean<T>, O: Clean<T>> {
    pub(super) number: usize,
    pub(super) note: LinkNote<T, K, O>,
    pub(super) link: &'c OnceBox<OpenedPage<T, K, O>>,
    ghost past_first: { 0 < number },
    ghost of_note: { cell_name link.now ≡ note.link.cell },
}

/// Where one link lies.
pub(super) struct LinkPlace<'c, T, K: Clean<T>, O: Clean<T>> {
    alloc: Global,
    row: &'c OnceBox<Row<T, K, O>>,
    row_number: u32,
    pub(super) offset: usize,
    ghost in_directory: { row_number < 64 },
}

impl<T, K: Clean<T>, O: Clean<T>> Copy for LinkPlace<'_, T, K, O> {}

impl<T, K: Clean<T>, O: Clean<T>> Clone for LinkPlace<'_, T, K, O> {
    ghost use Rattle.std.specs.Prelude.{⊤};

    ghost is_clone = { λ place copy. copy ≡ place };

    ghost is_infallible = { λ _. ⊤ };

    fn clone(&self) -> Result<Self, AllocError> {
        Ok(*self)
    }
}

impl<'c, T: Drop, K: Clean<T>, O: Clean<T>> LinkPlace<'c, T, K, O> {
    ghost use Rattle.std.specs.Prelude.{None, Some, IfNone};
    ghost use Rattle.std.specs.Arc.{arc_value};
    ghost use Rattle.page_chain.specs.Walk.{known_link, known_next};
    ghost use Rattle.pool_parts.specs.Page.{page_view};

    /// Returns the word of the page's hint, if the row exists.
    fn hint_word(&self) -> Option<&'c HintWord> {
        self.row.get()?.hints.get(self.offset / HINTS)
    }

    /// Returns the place of the page's hint in its word.
    fn hint_place(&self) -> u32
        ensures { result < 64 }
    {
        (self.offset % HINTS) as u32
    }

    /// Returns a note of the link, if the row exists.
    pub(super) fn known_row(&self) -> Option<LinkNote<T, K, O>>
        ensures { IfSome result (λ note. (known_link note ≡ (
          cell_name self.now.row.now,
          self.now.offset,
        )) × (known_next note ≡ None)) }
    {
        let mut row = self.row.note();
        let links = &self.row.get_as(&mut row)?.links;
        let link = links.get(self.offset)?.note();
        Some(LinkNote {
            row,
            link,
            offset: Snapshot::of(&self.offset),
        })
    }

    /// Returns a note of the link. It makes the row if there is none.
    ///
    /// # Errors
    ///
    /// `Memory`.
    pub(super) fn new_note(&self) -> Result<LinkNote<T, K, O>, PullError>
        ensures note { IfOk result (λ note. (known_link note ≡ (
          cell_name self.now.row.now,
          self.now.offset,
        )) × (known_next note ≡ None)) }
        ensures refused { IfErr result (Refuses ⊤ ⊥ ⊥) }
    {
        match self.known_row() {
            Some(note) => Ok(note),
            None => self.made_row(),
        }
    }

    /// Makes the row, and returns a note of the link.
    #[cold]
    fn made_row(&self) -> Result<LinkNote<T, K, O>, PullError>
        ensures note { IfOk result (λ note. (known_link note ≡ (
          cell_name self.now.row.now,
          self.now.offset,
        )) × (known_next note ≡ None)) }
        ensures refused { IfErr result (Refuses ⊤ ⊥ ⊥) }
    {
        let (alloc, number) = (self.alloc, self.row_number);
        self.row.get_or_try_init(move || Row::new(alloc, number))?;
        // The row exists now, and is long enough. No contract can say so of a set-once cell.
        self.known_row().ok_or(PullError::Memory)
    }

    /// Returns the page that is linked here, if one is. Then the note knows it.
    pub(super) fn get_as(&self, note: &mut LinkNote<T, K, O>) -> Option<&'c OpenedPage<T, K, O>>
        requires { known_link note.old ≡ (cell_name self.now.row.now, self.now.offset) }
        ensures link { known_link note.new ≡ known_link note.old }
        ensures none { IfNone result (known_next note.old ≡ None) }
        ensures unlearned { IfNone result (known_next note.new ≡ known_next note.old) }
        ensures known { IfSome result
            (λ page. known_next note.new ≡ Some (page_view (arc_value page.now))) }
        ensures agrees { IfSome result (λ page. IfSome (known_next note.old)
            (λ known. known ≡ page_view (arc_value page.now))) }
    {
        self.link(note).get_as(&mut note.link)
    }

    /// Returns the link, by a note of it.
    pub(super) fn link(&self, note: &mut LinkNote<T, K, O>) -> &'c OnceBox<OpenedPage<T, K, O>>
        requires { known_link note.old ≡ (cell_name self.now.row.now, self.now.offset) }
        ensures row { note.new.row.cell ≡ note.old.row.cell }
        ensures rest { (note.new.link ≡ note.old.link)
            × (note.new.offset.value ≡ note.old.offset.value) }
        ensures cell { cell_name result.now ≡ note.old.link.cell }
    {
        let Some(row) = self.row.get_as(&mut note.row) else {
            unreachable!()
        };
        let Some(link) = row.links.get(self.offset) else {
            unreachable!()
        };
        link
    }
}
