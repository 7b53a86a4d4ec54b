//! What C keeps of normalizers that it opened.
ghost use Rattle.std.specs.Prelude.{◌≡◌, ◌↔◌, Some, None, IsTrue, IsSome, MatchOption, MatchResult};
ghost use Rattle.normalizer_handles.specs.declared.fault.Fault.TheVariants.{NotOpen};

use crate::box_parts::Parts;
use crate::fault::Fault;
use crate::owner::Owner;
use crate::slot::Slot;
use std::alloc::Global;

/// What C keeps of normalizers that it opened, or of none. All zero it is of none.
#[repr(C)]
#[derive(Drop)]
pub struct Handle {
    pub(crate) slot: Slot,
    is_open: bool,
    ghost tells: { IsTrue is_open ↔ IsSome slot.value },
}

impl Handle {
    ghost use Rattle.normalizer_handles.specs.Handles.{held_normalizers, owned_by, Shares};

    /// Returns a handle that has no normalizers.
    pub(crate) fn closed(alloc: Global) -> Handle
        ensures { held_normalizers result ≡ None }
    {
        Handle {
            slot: Slot::empty(alloc),
            is_open: false,
        }
    }

    fn into_box(self) -> Option<Box<Owner>>
        ensures { MatchOption result (held_normalizers self ≡ None)
            (λ b. held_normalizers self ≡ Some (owned_by b.value)) }
    {
        let Handle { slot, is_open } = self;
        if is_open {
            Some(slot.into_parts().into_box())
        } else {
            None
        }
    }

    /// Takes the normalizers out of the handle, which then has none.
    ///
    /// # Errors
    /// `NotOpen` if it has none.
    pub fn take(&mut self, alloc: Global) -> Result<Box<Owner>, Fault>
        ensures was { MatchResult result (λ owner. held_normalizers self.old ≡ Some (owned_by owner.value))
            (λ fault. (held_normalizers self.old ≡ None) × (fault ≡ NotOpen)) }
        ensures is { held_normalizers self.new ≡ None }
    {
        if !self.is_open {
            return Err(Fault::NotOpen);
        }
        let slot = std::mem::replace(&mut self.slot, Slot::empty(alloc));
        self.is_open = false;
        Ok(slot.into_parts().into_box())
    }

    /// Puts normalizers into the handle, and drops those that were there.
    pub fn put(&mut self, owner: Box<Owner>)
        ensures { held_normalizers self.new ≡ Some (owned_by owner.value) }
    {
        let slot = std::mem::replace(&mut self.slot, Slot::of_parts(Parts::of(owner)));
        let had_one = std::mem::replace(&mut self.is_open, true);
        if had_one {
            slot.into_parts().into_box();
        }
    }

    /// Drops the normalizers of the handle, if it has some.
    pub fn close(&mut self, alloc: Global)
        ensures { held_normalizers self.new ≡ None }
    {
        std::mem::replace(self, Handle::closed(alloc)).into_box();
    }

    /// Puts a share in the normalizers of this handle into another, and drops those that were there.
    ///
    /// # Errors
    /// `NotOpen` or `Memory`. The other handle then has what it had.
    pub fn share(&mut self, alloc: Global, to: &mut Handle) -> Result<(), Fault>
        ensures shares { Shares (held_normalizers self.old) (held_normalizers to.old) (held_normalizers to.new) result }
        ensures kept { held_normalizers self.new ≡ held_normalizers self.old }
    {
        let owner = self.take(alloc)?;
        let another = owner.another(alloc);
        self.put(owner);
        to.put(another?);
        Ok(())
    }
}

fn crosses<T: Send>() {}

/// Says that a handle may go to another thread.
pub fn handle_crosses() {
    crosses::<Handle>()
}
