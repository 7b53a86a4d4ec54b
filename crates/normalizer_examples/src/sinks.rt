//! Normal forms written to sinks.
ghost use Rattle.std.specs.Prelude.{◌≡◌, IfOk, IsOkUnless, chars, encode_utf8_all, string_bytes};
ghost use Rattle.icu_normalizer.specs.Form.TheVariants.{Composing};
ghost use Rattle.icu_normalizer.specs.NormalForms.{normal_form};
ghost use Rattle.icu_normalizer.specs.ComposingNormalizers.{
  composing_data_of_borrowed,
  pairs_of_borrowed,
};
ghost use Rattle.icu_normalizer.specs.Readings.{reading_by};
ghost use Rattle.icu_normalizer.specs.IgnoredCharacters.TheVariants.{Dropped};

use icu_normalizer::sink::Write;
use icu_normalizer::{ComposingNormalizerBorrowed, DecomposingNormalizerBorrowed, NormalizeError};
use std::alloc::Global;

/// Returns the NFC of a text, as a string.
///
/// # Errors
/// `Sink` if the string could not grow, `Memory` if another allocation failed.
pub fn nfc_string(
    alloc: Global,
    normalizer: &ComposingNormalizerBorrowed<'_>,
    text: &str,
) -> Result<String, NormalizeError>
    ensures { let d = reading_by (composing_data_of_borrowed normalizer.now) Dropped (pairs_of_borrowed normalizer.now)
        in IfOk result (λ form. string_bytes form ≡ encode_utf8_all (normal_form d Composing (chars text.now))) }
{
    let mut form = String::new(alloc);
    normalizer.normalize_to(text, &mut form)?;
    Ok(form)
}

/// Writes the NFD of a text to a sink that can't fail.
///
/// # Errors
/// `Memory` if an allocation failed. `Sink` is never returned.
pub fn nfd_without_faults<W: Write>(
    normalizer: &DecomposingNormalizerBorrowed<'_>,
    text: &str,
    sink: &mut W,
) -> Result<(), NormalizeError>
    requires { (later : W) → ¬ W.refusal sink.old later }
    ensures { IsOkUnless result NormalizeError.Memory }
{
    normalizer.normalize_to(text, sink)
}
