//! Texts for the buffers of callers.
ghost use Rattle.std.specs.Prelude.{◌≡◌, List, ⊤, Result};
ghost use Rattle.normalizer_handles.specs.declared.fault.Fault.{Fault};
ghost use Rattle.icu_normalizer_c.specs.Buffers.{Writes};
ghost use Rattle.icu_normalizer_c.specs.Calls.{OverHeld};
ghost use Rattle.normalizer_handles.specs.Handles.{held_normalizers};
ghost use Rattle.normalizer_handles.specs.Status.{IsStatus};
ghost use Rattle.normalizer_handles.specs.declared.normalizers.Normalizers.{Normalizers};

use normalizer_handles::{Fault, Handle, Normalizers, status};
use std::alloc::Global;

/// A text that normalizers or their mapper make of an input.
pub(crate) trait Text {
    type Unit: Copy;

    /// What a fault leaves of a text in a buffer: of its units, what the buffer had, and what it has.
    ghost left: { List Self.Unit → List Self.Unit → List Self.Unit → Result ⊤ Fault → Type 0 };

    /// A call that makes the text, if there is its form or a mapper; of when memory suffices and of the text's units
    /// this is said.
    ghost at: { Self → (Type 0) → (Type 0 → List Self.Unit → Result ⊤ Fault → Type 0) → Normalizers
        → Result ⊤ Fault → Type 0 };

    fn write(
        &self,
        alloc: Global,
        normalizers: &Normalizers,
        output: &mut [Self::Unit],
        needed: &mut usize,
    ) -> Result<(), Fault>
        ensures { at self.now ((output.new ≡ output.old) × (needed.new ≡ needed.old))
            (Writes left output.old output.new needed.old needed.new) normalizers.now result };
}

/// Writes a text that the normalizers of a handle make, and returns the status.
pub(crate) fn write<T: Text>(
    alloc: Global,
    handle: &mut Handle,
    text: &T,
    output: &mut [T::Unit],
    needed: &mut usize,
) -> u32
    ensures status { IsStatus result (OverHeld (held_normalizers handle.old)
        ((output.new ≡ output.old) × (needed.new ≡ needed.old))
        (T.at text.now ((output.new ≡ output.old) × (needed.new ≡ needed.old))
        (Writes T.left output.old output.new needed.old needed.new))) }
    ensures kept { held_normalizers handle.new ≡ held_normalizers handle.old }
{
    status(write_over(alloc, handle, text, output, needed))
}

fn write_over<T: Text>(
    alloc: Global,
    handle: &mut Handle,
    text: &T,
    output: &mut [T::Unit],
    needed: &mut usize,
) -> Result<(), Fault>
    ensures over { OverHeld (held_normalizers handle.old) ((output.new ≡ output.old) × (needed.new ≡ needed.old))
        (T.at text.now ((output.new ≡ output.old) × (needed.new ≡ needed.old))
        (Writes T.left output.old output.new needed.old needed.new)) result }
    ensures kept { held_normalizers handle.new ≡ held_normalizers handle.old }
{
    let owner = handle.take(alloc)?;
    let outcome = text.write(alloc, &owner.normalizers, output, needed);
    handle.put(owner);
    outcome
}
