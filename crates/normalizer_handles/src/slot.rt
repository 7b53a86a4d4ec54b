//! A place in C for an owner of normalizers: the pointer of a box, or of none.
ghost use Rattle.std.specs.Prelude.{◌≡◌, Option, Some, None, IsSome};
ghost use Rattle.normalizer_handles.specs.declared.owner.Owner.{Owner};
ghost use Rattle.normalizer_handles.specs.Slots.{slot_coded, slot_owns};

use crate::box_parts::Parts;
use crate::owner::Owner;
use std::alloc::{Allocator, Global};
use std::marker::Model;

/// A box as its pointer, or none.
#[repr(C)]
#[derive(Drop)]
pub struct Slot {
    at: *mut u8,
    alloc: Global,
    pub(crate) ghost value: { Option Owner } by { slot_coded },
}

// What it owns may go to another thread.
unsafe impl Send for Slot {}

impl Model for Slot {
    ghost also_owns = { λ s. slot_owns (⟦<Global as Allocator>⟧.dealloc_token s.alloc) s.at s.value };
}

impl Slot {
    pub(crate) fn empty(alloc: Global) -> Slot
        ensures { result.value ≡ None }
    {
        Slot {
            at: std::ptr::null_mut(),
            alloc,
        }
    }

    pub(crate) fn of_parts(parts: Parts<Owner, Global>) -> Slot
        ensures { result.value ≡ Some parts.value }
    {
        let Parts { ptr, alloc } = parts;
        Slot {
            at: ptr as *mut u8,
            alloc,
        }
    }

    pub(crate) fn into_parts(self) -> Parts<Owner, Global>
        requires { IsSome self.value }
        ensures { Some result.value ≡ self.value }
    {
        let Slot { at, alloc } = self;
        Parts {
            ptr: at as *mut Owner,
            alloc,
        }
    }
}
