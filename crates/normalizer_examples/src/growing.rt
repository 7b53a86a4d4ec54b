//! A text in NFC that grows.
ghost use Rattle.std.specs.Prelude.{◌≡◌, ◌++◌, chars, string_bytes, IfOk, IsOkUnless, OnOk};
ghost use Rattle.icu_normalizer.specs.NormalForms.{nfc};
ghost use Rattle.icu_normalizer.specs.Forms.{composed_by};

use icu_normalizer::{ComposingNormalizerBorrowed, NormalizeError};
use std::alloc::Global;

/// Returns the composed form of `text` followed by `more`. What comes before the cut of the whole stays, and only the
/// rest is normalized: if `text` is already normalized, a little of its end and `more`.
///
/// # Errors
/// `Memory` if an allocation failed.
pub fn appended(
    alloc: Global,
    normalizer: &ComposingNormalizerBorrowed<'_>,
    mut text: String,
    more: &str,
) -> Result<String, NormalizeError>
    ensures form { IfOk result (λ whole. chars (string_bytes whole) ≡
        nfc (composed_by normalizer.now).reading (chars (string_bytes text) ++ chars more.now)) }
    ensures refused { IsOkUnless result NormalizeError.Memory }
{
    push(&mut text, more)?;
    let (kept, rest) = normalizer.split_normalized(&text)?;
    let place = kept.as_bytes().len();
    let form = form_of(alloc, normalizer, rest)?;
    text.truncate(place);
    push(&mut text, &form)?;
    Ok(text)
}

/// Returns the composed form of a text.
fn form_of(
    alloc: Global,
    normalizer: &ComposingNormalizerBorrowed<'_>,
    text: &str,
) -> Result<String, NormalizeError>
    ensures form { IfOk result (λ form. chars (string_bytes form) ≡
        nfc (composed_by normalizer.now).reading (chars text.now)) }
    ensures refused { IsOkUnless result NormalizeError.Memory }
{
    let form = normalizer.normalize(text)?;
    match String::from_str(alloc, &form) {
        Ok(form) => Ok(form),
        Err(_) => Err(NormalizeError::Memory),
    }
}

/// Appends a text to another.
fn push(text: &mut String, more: &str) -> Result<(), NormalizeError>
    ensures taken { OnOk result (string_bytes text.new ≡ string_bytes text.old ++ more.now) }
    ensures refused { IsOkUnless result NormalizeError.Memory }
{
    match text.push_str(more) {
        Ok(()) => Ok(()),
        Err(_) => Err(NormalizeError::Memory),
    }
}
