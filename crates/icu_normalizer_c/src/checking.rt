//! Whether inputs are normalized, and how far.
ghost use Rattle.std.specs.Prelude.{◌≡◌, ◌↔◌, IsTrue};
ghost use Rattle.icu_normalizer.specs.InputCut.{IsInputCut, IsInputNormalized};
ghost use Rattle.icu_normalizer.specs.Encodings.{Encoding, decoded_in};
ghost use Rattle.icu_normalizer.specs.Checks.{IsNormalizedUtf32};
ghost use Rattle.icu_normalizer_c.specs.Calls.{Over, ReportsCut, ReportsNormalized, ReportsNormalizedUtf32};
ghost use Rattle.normalizer_handles.specs.Handles.{held_normalizers};
ghost use Rattle.normalizer_handles.specs.Status.{IsStatus};

use crate::question::{Question, report};
use icu_normalizer::{AnyNormalizerBorrowed, NormalizeError};
use normalizer_handles::Handle;
use std::alloc::Global;

/// Whether an input is well-formed and normalized.
#[derive(Drop)]
struct IsNormalized<U>(U);

impl<'a> Question for IsNormalized<&'a [u8]> {
    type Answer = bool;

    ghost text = { λ q. decoded_in Encoding.Utf8 q.0.now };

    ghost is = { λ q m yes. IsTrue yes ↔ IsInputNormalized Encoding.Utf8 m.reading m.form q.0.now };

    fn ask(&self, normalizer: &AnyNormalizerBorrowed<'_>) -> Result<bool, NormalizeError> {
        normalizer.is_normalized_utf8(self.0)
    }
}

impl<'a> Question for IsNormalized<&'a [u16]> {
    type Answer = bool;

    ghost text = { λ q. decoded_in Encoding.Utf16 q.0.now };

    ghost is = { λ q m yes. IsTrue yes ↔ IsInputNormalized Encoding.Utf16 m.reading m.form q.0.now };

    fn ask(&self, normalizer: &AnyNormalizerBorrowed<'_>) -> Result<bool, NormalizeError> {
        normalizer.is_normalized_utf16(self.0)
    }
}

impl<'a> Question for IsNormalized<&'a [u32]> {
    type Answer = bool;

    ghost text = { λ q. q.0.now };

    ghost is = { λ q m yes. IsTrue yes ↔ IsNormalizedUtf32 m q.0.now };

    fn ask(&self, normalizer: &AnyNormalizerBorrowed<'_>) -> Result<bool, NormalizeError> {
        normalizer.is_normalized_utf32(self.0)
    }
}

/// The cut of an input.
#[derive(Drop)]
struct Cut<U>(U);

impl<'a> Question for Cut<&'a [u8]> {
    type Answer = usize;

    ghost text = { λ q. decoded_in Encoding.Utf8 q.0.now };

    ghost is = { λ q m cut. IsInputCut Encoding.Utf8 m.reading m.form q.0.now cut };

    fn ask(&self, normalizer: &AnyNormalizerBorrowed<'_>) -> Result<usize, NormalizeError> {
        let (prefix, _) = normalizer.split_normalized_utf8(self.0)?;
        Ok(prefix.len())
    }
}

impl<'a> Question for Cut<&'a [u16]> {
    type Answer = usize;

    ghost text = { λ q. decoded_in Encoding.Utf16 q.0.now };

    ghost is = { λ q m cut. IsInputCut Encoding.Utf16 m.reading m.form q.0.now cut };

    fn ask(&self, normalizer: &AnyNormalizerBorrowed<'_>) -> Result<usize, NormalizeError> {
        let (prefix, _) = normalizer.split_normalized_utf16(self.0)?;
        Ok(prefix.len())
    }
}

/// Reports whether `input` is well-formed UTF-8 and normalized.
///
/// # Errors
/// `NotOpen`, `UnknownForm`, or `Memory`, which never comes over short runs. `reported` is then unchanged.
#[unsafe(no_mangle)]
pub extern "C" fn icu_normalizer_is_normalized_utf8_nonnull(
    alloc: Global,
    handle: &mut Handle,
    form: u32,
    input: &[u8],
    reported: &mut bool,
) -> u32
    ensures status { IsStatus result (Over (held_normalizers handle.old) form (reported.new ≡ reported.old)
        (ReportsNormalized Encoding.Utf8 input.now reported.old reported.new)) }
    ensures kept { held_normalizers handle.new ≡ held_normalizers handle.old }
{
    report(alloc, handle, form, &IsNormalized(input), reported)
}

/// Reports whether `input` is well-formed UTF-16 and normalized.
///
/// # Errors
/// `NotOpen`, `UnknownForm`, or `Memory`, which never comes over short runs. `reported` is then unchanged.
#[unsafe(no_mangle)]
pub extern "C" fn icu_normalizer_is_normalized_utf16_nonnull(
    alloc: Global,
    handle: &mut Handle,
    form: u32,
    input: &[u16],
    reported: &mut bool,
) -> u32
    ensures status { IsStatus result (Over (held_normalizers handle.old) form (reported.new ≡ reported.old)
        (ReportsNormalized Encoding.Utf16 input.now reported.old reported.new)) }
    ensures kept { held_normalizers handle.new ≡ held_normalizers handle.old }
{
    report(alloc, handle, form, &IsNormalized(input), reported)
}

/// Reports whether the units of `input` are characters, as UTF-32 encodes them, and the text of them is normalized.
///
/// # Errors
/// `NotOpen`, `UnknownForm`, or `Memory`, which never comes over short runs. `reported` is then unchanged.
#[unsafe(no_mangle)]
pub extern "C" fn icu_normalizer_is_normalized_utf32_nonnull(
    alloc: Global,
    handle: &mut Handle,
    form: u32,
    input: &[u32],
    reported: &mut bool,
) -> u32
    ensures status { IsStatus result (Over (held_normalizers handle.old) form (reported.new ≡ reported.old)
        (ReportsNormalizedUtf32 input.now reported.old reported.new)) }
    ensures kept { held_normalizers handle.new ≡ held_normalizers handle.old }
{
    report(alloc, handle, form, &IsNormalized(input), reported)
}

/// Reports the cut of `input` in UTF-8: the greatest number of units that are well-formed and that the form begins
/// with, followed by the form of the rest.
///
/// # Errors
/// `NotOpen`, `UnknownForm`, or `Memory`, which never comes over short runs. `reported` is then unchanged.
#[unsafe(no_mangle)]
pub extern "C" fn icu_normalizer_split_utf8_nonnull(
    alloc: Global,
    handle: &mut Handle,
    form: u32,
    input: &[u8],
    reported: &mut usize,
) -> u32
    ensures status { IsStatus result (Over (held_normalizers handle.old) form (reported.new ≡ reported.old)
        (ReportsCut Encoding.Utf8 input.now reported.old reported.new)) }
    ensures kept { held_normalizers handle.new ≡ held_normalizers handle.old }
{
    report(alloc, handle, form, &Cut(input), reported)
}

/// Reports the cut of `input` in UTF-16: the greatest number of units that are well-formed and that the form begins
/// with, followed by the form of the rest.
///
/// # Errors
/// `NotOpen`, `UnknownForm`, or `Memory`, which never comes over short runs. `reported` is then unchanged.
#[unsafe(no_mangle)]
pub extern "C" fn icu_normalizer_split_utf16_nonnull(
    alloc: Global,
    handle: &mut Handle,
    form: u32,
    input: &[u16],
    reported: &mut usize,
) -> u32
    ensures status { IsStatus result (Over (held_normalizers handle.old) form (reported.new ≡ reported.old)
        (ReportsCut Encoding.Utf16 input.now reported.old reported.new)) }
    ensures kept { held_normalizers handle.new ≡ held_normalizers handle.old }
{
    report(alloc, handle, form, &Cut(input), reported)
}
