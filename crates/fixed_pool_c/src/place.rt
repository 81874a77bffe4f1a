//! A place by itself, as C has it: a number and a tag, and the permit for that place of its pool as
//! a ghost.
//!
//! C has the number and the tag, as `kdr_place`: the header changes with their layout. The prover
//! tells a change of the permit.
ghost use Rattle.std.specs.Prelude.{◌≡◌, ◌≢◌, ◌<◌, ◌≤◌, ◌+◌, ◌^◌, ⊤, Option, Some, None, IfSome, IfOk, IfErr};
ghost use Rattle.std.proofs.Props.{props};
ghost use Rattle.pool_parts.specs.declared.page.holding.Holding.{Holding as HoldingShown};
ghost use Rattle.fixed_pool_c.specs.Number.{BearsNumber};
ghost use Rattle.fixed_pool_c.specs.PermitOwns.{permit_owns};
ghost use Rattle.fixed_pool_c.specs.Shows.{final_note_of};
ghost use Rattle.fixed_pool_c.specs.declared.open_handle.FinalNote.{FinalNote};

use crate::answer::{HOLDS_NONE, NO_SUCH_PLACE, OTHER_POOL};
use crate::open_handle::FinalNote;
use atomic_table::Badge;
use fixed_pools::fixed_object_pool::PoolNote;
use pool_parts::page::inside::{Holding, UserSeat, UserView};
use std::marker::Model;
use std::mem::{ManuallyDrop, replace};

/// The permit for a place of a pool, or none: then it keeps the note of its last operation. It has
/// no bytes.
#[derive(Drop)]
#[repr(C)]
pub struct Permit {
    pub ghost held: { Option (HoldingShown ⊤) },
    pub ghost final_note: { Option FinalNote },
}

impl Model for Permit {
    ghost also_owns = { λ permit. permit_owns permit.held permit.final_note };
}

impl Permit {
    /// Makes the permit for no place.
    fn none() -> Permit
        ensures { result.held ≡ None }
    {
        Permit {}
    }

    /// Makes the permit of this holder.
    fn of(holding: ManuallyDrop<Holding<()>>) -> Permit
        ensures { result.held ≡ Some holding.value }
    {
        let _holding = holding;
        Permit {}
    }

    /// Makes the permit for no place, which keeps the note.
    fn noting(last: FinalNote) -> Permit
        ensures { (result.held ≡ None) × (result.final_note ≡ Some last) }
    {
        let FinalNote { note: _ } = last;
        Permit {}
    }

    /// Returns the seat of the holder. Its bytes, which are none, are those of a blank badge.
    fn into_seat(self, blank: Badge<UserView<()>>) -> UserSeat<()>
        requires { (holding : HoldingShown ⊤) × (self.held ≡ Some holding) }
        ensures { IfSome self.held (λ holding. result ≡ holding.seat) }
    {
        let Permit {} = self;
        blank.into_seat()
    }
}

/// A place of a pool, and the permit for it, or an empty place, and no permit. It may go to another
/// thread, as its bytes. All bytes of an empty place are 0. One that C made up has bytes, and no
/// permit.
///
/// It is `Drop`, unlike a handle, since it has nothing to close. A place that is let go stays out.
#[derive(Drop)]
#[repr(C)]
pub struct Place {
    /// One more than the place's number, or 0 if the place is empty.
    pub after: usize,
    /// The tag of the place's pool, or 0 if the place is empty.
    pub tag: usize,
    pub permit: Permit,
    pub ghost numbered: { BearsNumber permit.held after } by { Prim.hlevel props },
}

impl Place {
    ghost use Rattle.fixed_pool_c.specs.Refusals.{IsRefusal};

    /// Makes an empty place.
    fn empty() -> Place
        ensures { (result.permit.held ≡ None) × (result.after ≡ 0) }
    {
        Place {
            after: 0,
            tag: 0,
            permit: Permit::none(),
        }
    }

    /// Puts what a holder has into the place, with the tag of its pool.
    #[inline(always)]
    pub(crate) fn hold(&mut self, holding: Holding<()>, tag: usize)
        requires in_pool { holding.number < holding.seat.table_id.slots }
        requires fits { holding.number + 1 < 2 ^ 64 }
        ensures held { self.new.permit.held ≡ Some holding }
        ensures number { self.new.after ≡ holding.number + 1 }
        ensures tag { self.new.tag ≡ tag }
    {
        let after = holding.number + 1;
        *self = Place {
            after,
            tag,
            permit: Permit::of(ManuallyDrop::new(holding)),
        };
    }

    /// Takes out what the holder has, if the place bears this tag and is one of so many places. The
    /// place is empty from then on.
    ///
    /// # Errors
    ///
    /// The answer for C. The place is as before.
    #[inline(always)]
    pub(crate) fn take(&mut self, tag: usize, items: usize) -> Result<Holding<()>, u32>
        requires { self.old.tag ≡ tag → self.old.after ≢ 0 → self.old.after ≤ items
            → (holding : HoldingShown ⊤) × (self.old.permit.held ≡ Some holding) }
        ensures taken { IfOk result (λ holding. self.old.permit.held ≡ Some holding) }
        ensures tag { IfOk result (λ _. self.old.tag ≡ tag) }
        ensures in_pool { IfOk result (λ _. self.old.after ≤ items) }
        ensures number { IfOk result (λ holding. self.old.after ≡ holding.number + 1) }
        ensures emptied { IfOk result (λ _. (self.new.after ≡ 0) × (self.new.permit.held ≡ None)) }
        ensures same { IfErr result (λ _. self.new ≡ self.old) }
        ensures refused { IfErr result (λ answer. IsRefusal answer tag items self.old) }
    {
        if self.after == 0 {
            return Err(HOLDS_NONE);
        }
        if self.tag != tag {
            return Err(OTHER_POOL);
        }
        if self.after > items {
            return Err(NO_SUCH_PLACE);
        }
        let Place {
            after,
            tag: _,
            permit,
        } = replace(self, Place::empty());
        Ok(Holding {
            seat: permit.into_seat(Badge::blank()),
            number: after - 1,
        })
    }

    /// Leaves the place empty, with this note.
    #[inline(always)]
    pub(crate) fn keep(&mut self, note: PoolNote<()>)
        ensures held { self.new.permit.held ≡ None }
        ensures number { self.new.after ≡ 0 }
        ensures final_note { self.new.permit.final_note ≡ Some (final_note_of note) }
    {
        let last = FinalNote {
            note: ManuallyDrop::new(note),
        };
        *self = Place {
            after: 0,
            tag: 0,
            permit: Permit::noting(last),
        };
    }
}

unsafe impl Send for Permit {}
