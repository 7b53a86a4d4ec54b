//! The first place at which an input is not normalized: one search, on which every check is based.
ghost use Rattle.std.specs.Prelude.{IfOk, IsOk, IsOkUnless};
ghost use Rattle.normalizer_calls.specs.Checks.{IsLastingOffence};
ghost use Rattle.normalizer_calls.specs.Forms.{HasShortUnits};
ghost use Rattle.normalizer_calls.specs.inner.Offences.{IsCutUnlessNormalized};
ghost use Rattle.normalizer_calls.specs.inner.PassthroughRuns.{IsPassed};

use crate::forming::Forming;
use crate::runs::{Passed, passthrough_end};
use crate::writing::write_changed;
use normalizer_iterators::NormalizeError;
use normalizer_text::Offence;
use normalizer_text::check_sink::{Expected, IsNormalizedSink};

/// The cut of the units, or nothing if they are well-formed and normalized.
#[inline(always)]
pub(crate) fn cut_of<U: Expected, N: Forming>(
    normalizer: &N,
    units: U,
) -> Result<Option<usize>, NormalizeError>
    ensures cut { IfOk result (IsCutUnlessNormalized
        U.encoding (N.made_form normalizer.now).reading (N.made_form normalizer.now).form (U.units units)) }
    ensures room { HasShortUnits (N.made_form normalizer.now) U.encoding (U.units units) → IsOk result }
    ensures refused { IsOkUnless result NormalizeError.Memory }
{
    let passed = passthrough_end(normalizer, units);
    if passed.end == units.len() {
        return Ok(None);
    }
    cut_after(normalizer, units, passed)
}

/// The same cut, by the end of what is passed on. It isn't inlined, so that a text that is passed on needs no large
/// frame.
#[inline(never)]
fn cut_after<U: Expected, N: Forming>(
    normalizer: &N,
    units: U,
    passed: Passed,
) -> Result<Option<usize>, NormalizeError>
    requires { IsPassed U.encoding (N.made_form normalizer.now) (U.units units) passed }
    ensures cut { IfOk result (IsCutUnlessNormalized
        U.encoding (N.made_form normalizer.now).reading (N.made_form normalizer.now).form (U.units units)) }
    ensures room { HasShortUnits (N.made_form normalizer.now) U.encoding (U.units units) → IsOk result }
    ensures refused { IsOkUnless result NormalizeError.Memory }
{
    let rest = units.after(passed.end);
    let mut expected = IsNormalizedSink::new(rest);
    match write_changed(normalizer, rest, passed.next, &mut expected) {
        Ok(()) => Ok(None),
        Err(NormalizeError::Sink) => Ok(Some(units.len() - expected.remaining_len())),
        Err(NormalizeError::Memory) => Err(NormalizeError::Memory),
    }
}

/// The first mismatch of the units, which lasts whatever is appended to them, or none if they are well-formed and
/// normalized.
pub(crate) fn offence_of<U: Expected, N: Forming>(
    normalizer: &N,
    units: U,
) -> Result<Option<Offence>, NormalizeError>
    ensures offence { IfOk result (IsLastingOffence (N.made_form normalizer.now) U.encoding (U.units units)) }
    ensures room { HasShortUnits (N.made_form normalizer.now) U.encoding (U.units units) → IsOk result }
    ensures refused { IsOkUnless result NormalizeError.Memory }
{
    let Some(place) = cut_of(normalizer, units)? else {
        return Ok(None);
    };
    let rest = units.after(place);
    let Some(step) = rest.first_step() else {
        unreachable!()
    };
    let Some(wanted) = normalizer.first_item(rest)? else {
        unreachable!()
    };
    Ok(Some(Offence {
        place,
        found: step.character,
        wanted,
    }))
}
