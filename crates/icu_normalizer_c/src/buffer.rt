//! The buffers of callers.
ghost use Rattle.std.specs.Prelude.{◌≡◌, IfErr};
ghost use Rattle.icu_normalizer_c.specs.Buffers.{Fills, LeavesAll};
ghost use Rattle.normalizer_handles.specs.declared.fault.Fault.TheVariants.{BufferTooSmall};

use normalizer_handles::Fault;

/// Writes units to the beginning of a buffer, if there is room for all of them. Says how many there are.
pub(crate) fn fill<T: Copy>(units: &[T], output: &mut [T], needed: &mut usize) -> Result<(), Fault>
    ensures fills { Fills units.now output.old output.new needed.old needed.new result }
    ensures left { LeavesAll units.now output.old output.new result }
    ensures refused { IfErr result (λ fault. fault ≡ BufferTooSmall) }
{
    *needed = units.len();
    if units.len() > output.len() {
        return Err(Fault::BufferTooSmall);
    }
    output[..units.len()].copy_from_slice(units);
    Ok(())
}
