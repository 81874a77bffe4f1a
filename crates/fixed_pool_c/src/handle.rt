//! A handle as C has it.
//!
//! C has the pointer alone, as `kdr_handle`: the header changes with its layout. The prover tells a
//! change of what lies there.
ghost use Rattle.std.specs.Prelude.{◌≡◌, Option, Some, None, MatchOption};
ghost use Rattle.fixed_pool_c.specs.HandleOwns.{handle_owns};
ghost use Rattle.fixed_pool_c.specs.Shows.{final_note_of};
ghost use Rattle.fixed_pool_c.specs.declared.open_handle.OpenHandle.{OpenHandle};
ghost use Rattle.fixed_pool_c.specs.declared.open_handle.FinalNote.{FinalNote};

use crate::open_handle::{FinalNote, HandleState, OpenHandle};
use crate::raw_box::RawBox;
use fixed_pools::fixed_object_pool::PoolNote;
use std::alloc::Global;
use std::marker::Model;
use std::mem::{ManuallyDrop, replace};
use std::ptr::null_mut;

/// An open handle, which is a pointer to what it has, or an empty one, which is null.
///
/// It isn't `Drop`, so each is closed by `take` and none is dropped silently.
#[repr(C)]
pub struct Handle {
    at: *mut u8,
    alloc: Global,
    pub ghost held: { Option OpenHandle },
    pub ghost final_note: { Option FinalNote },
}

impl Model for Handle {
    ghost also_owns = { λ handle. handle_owns handle.alloc handle.at handle.held handle.final_note };
}

impl Handle {
    fn empty(alloc: Global) -> Handle
        ensures { result.held ≡ None }
    {
        Handle {
            at: null_mut(),
            alloc,
        }
    }

    /// Makes a handle that is closed. It is empty, and keeps the note of its last operation.
    fn closed(alloc: Global, last: FinalNote) -> Handle
        ensures { (result.held ≡ None) × (result.final_note ≡ Some last) }
    {
        let FinalNote { note: _ } = last;
        Handle {
            at: null_mut(),
            alloc,
        }
    }

    fn of(raw: RawBox<OpenHandle, Global>) -> Handle
        ensures { result.held ≡ Some raw.value }
    {
        let RawBox { at, alloc } = raw;
        Handle {
            at: at as *mut u8,
            alloc,
        }
    }

    fn into_raw(self) -> Option<RawBox<OpenHandle, Global>>
        ensures { MatchOption result (self.held ≡ None) (λ raw. self.held ≡ Some raw.value) }
    {
        let Handle { at, alloc } = self;
        if at.is_null() {
            None
        } else {
            Some(RawBox {
                at: at as *mut OpenHandle,
                alloc,
            })
        }
    }

    /// Takes out what an open handle has, which is empty from then on.
    #[inline(always)]
    pub(crate) fn take(&mut self, alloc: Global) -> Option<Box<OpenHandle>>
        ensures taken { MatchOption result (self.old.held ≡ None)
            (λ held. self.old.held ≡ Some held.value) }
        ensures empty { self.new.held ≡ None }
    {
        match replace(self, Handle::empty(alloc)).into_raw() {
            Some(raw) => Some(raw.into_box()),
            None => None,
        }
    }

    /// Closes the handle, which is empty, for good. It keeps the note.
    #[inline(always)]
    pub(crate) fn close(&mut self, alloc: Global, note: PoolNote<()>)
        requires { self.old.held ≡ None }
        ensures empty { self.new.held ≡ None }
        ensures final_note { self.new.final_note ≡ Some (final_note_of note) }
    {
        let last = FinalNote {
            note: ManuallyDrop::new(note),
        };
        match replace(self, Handle::closed(alloc, last)).into_raw() {
            None => {}
            Some(_) => unreachable!(),
        }
    }

    /// Opens the handle, which is empty.
    #[inline(always)]
    pub(crate) fn put(&mut self, held: Box<OpenHandle>)
        requires { self.old.held ≡ None }
        ensures { self.new.held ≡ Some held.value }
    {
        match replace(self, Handle::of(RawBox::of(held))).into_raw() {
            None => {}
            Some(_) => unreachable!(),
        }
    }

    /// Opens the handle, which is empty, and gives it this state.
    #[inline(always)]
    pub(crate) fn hold(&mut self, mut held: Box<OpenHandle>, state: HandleState)
        requires closed { self.old.held ≡ None }
        requires empty { held.value.state ≡ None }
        ensures { (later : OpenHandle) × (self.new.held ≡ Some later) × (later.tag ≡ held.value.tag)
            × (later.state ≡ Some state) }
    {
        match replace(&mut held.state, Some(state)) {
            None => {}
            Some(_) => unreachable!(),
        }
        self.put(held);
    }
}

unsafe impl Send for Handle {}
