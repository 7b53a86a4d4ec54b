//! The first mismatches of inputs.
ghost use Rattle.std.specs.Prelude.{◌≡◌, Option};
ghost use Rattle.icu_normalizer.specs.Encodings.{Encoding, decoded_in};
ghost use Rattle.icu_normalizer_c.specs.Calls.{Over, ReportsMismatch};
ghost use Rattle.normalizer_handles.specs.Handles.{held_normalizers};
ghost use Rattle.normalizer_handles.specs.Status.{IsStatus};
ghost use Rattle.icu_normalizer.specs.Checks.{IsLastingOffence};
ghost use Rattle.icu_normalizer.specs.Offence.{Offence};
ghost use Rattle.icu_normalizer_c.specs.Mismatches.{mismatch_of};

use crate::question::{Question, report};
use icu_normalizer::{AnyNormalizerBorrowed, NormalizeError, Offence};
use normalizer_handles::Handle;
use std::alloc::Global;

/// The first mismatch of an input, if it has one. If not, the numbers are 0.
#[repr(C)]
#[derive(Clone, Copy, PartialEq, Eq, Debug)]
pub struct Mismatch {
    /// How many units come before it.
    pub offset: usize,
    /// The character found there.
    pub found: u32,
    /// The character expected.
    pub expected: u32,
    /// Whether there is a mismatch.
    pub exists: bool,
}

impl Mismatch {
    /// Returns a mismatch for C.
    pub(crate) fn of(offence: Option<Offence>) -> Mismatch
        ensures { result ≡ mismatch_of offence }
    {
        match offence {
            Some(offence) => Mismatch {
                offset: offence.place,
                found: offence.found as u32,
                expected: offence.wanted as u32,
                exists: true,
            },
            None => Mismatch {
                offset: 0,
                found: 0,
                expected: 0,
                exists: false,
            },
        }
    }
}

/// The first mismatch of an input.
#[derive(Drop)]
struct FirstMismatch<U>(U);

impl<'a> Question for FirstMismatch<&'a [u8]> {
    type Answer = Mismatch;

    ghost text = { λ q. decoded_in Encoding.Utf8 q.0.now };

    ghost is = { λ q m it. (answer : Option Offence) × (it ≡ mismatch_of answer) ×
        IsLastingOffence m Encoding.Utf8 q.0.now answer };

    fn ask(&self, normalizer: &AnyNormalizerBorrowed<'_>) -> Result<Mismatch, NormalizeError> {
        let offence = normalizer.first_offence_utf8(self.0)?;
        Ok(Mismatch::of(offence))
    }
}

impl<'a> Question for FirstMismatch<&'a [u16]> {
    type Answer = Mismatch;

    ghost text = { λ q. decoded_in Encoding.Utf16 q.0.now };

    ghost is = { λ q m it. (answer : Option Offence) × (it ≡ mismatch_of answer) ×
        IsLastingOffence m Encoding.Utf16 q.0.now answer };

    fn ask(&self, normalizer: &AnyNormalizerBorrowed<'_>) -> Result<Mismatch, NormalizeError> {
        let offence = normalizer.first_offence_utf16(self.0)?;
        Ok(Mismatch::of(offence))
    }
}

/// Reports the first place where `input` is ill-formed UTF-8 or differs from its form: the offset in units, the
/// character found there and the one expected. At an ill-formed sequence, U+FFFD is found.
///
/// # Errors
/// `NotOpen`, `UnknownForm`, or `Memory`, which never comes over short runs. `reported` is then unchanged.
#[unsafe(no_mangle)]
pub extern "C" fn icu_normalizer_first_mismatch_utf8_nonnull(
    alloc: Global,
    handle: &mut Handle,
    form: u32,
    input: &[u8],
    reported: &mut Mismatch,
) -> u32
    ensures status { IsStatus result (Over (held_normalizers handle.old) form (reported.new ≡ reported.old)
        (ReportsMismatch Encoding.Utf8 input.now reported.old reported.new)) }
    ensures kept { held_normalizers handle.new ≡ held_normalizers handle.old }
{
    report(alloc, handle, form, &FirstMismatch(input), reported)
}

/// Reports the first place where `input` is ill-formed UTF-16 or differs from its form: the offset in units, the
/// character found there and the one expected. At an ill-formed sequence, U+FFFD is found.
///
/// # Errors
/// `NotOpen`, `UnknownForm`, or `Memory`, which never comes over short runs. `reported` is then unchanged.
#[unsafe(no_mangle)]
pub extern "C" fn icu_normalizer_first_mismatch_utf16_nonnull(
    alloc: Global,
    handle: &mut Handle,
    form: u32,
    input: &[u16],
    reported: &mut Mismatch,
) -> u32
    ensures status { IsStatus result (Over (held_normalizers handle.old) form (reported.new ≡ reported.old)
        (ReportsMismatch Encoding.Utf16 input.now reported.old reported.new)) }
    ensures kept { held_normalizers handle.new ≡ held_normalizers handle.old }
{
    report(alloc, handle, form, &FirstMismatch(input), reported)
}
