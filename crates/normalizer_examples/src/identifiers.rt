//! Identifiers: texts that are normalized (UAX #31, normalized identifiers).
ghost use Rattle.std.specs.Prelude.{◌≡◌, chars, IfOk, IsOkUnless, MatchOption};
ghost use Rattle.icu_normalizer.specs.Form.TheVariants.{Composing};
ghost use Rattle.icu_normalizer.specs.NormalForms.{IsNormalized};
ghost use Rattle.icu_normalizer.specs.Encodings.{Encoding};
ghost use Rattle.icu_normalizer.specs.InputCut.{IsInputNormalized};
ghost use Rattle.icu_normalizer.specs.Forms.{composed_by};

use icu_normalizer::{ComposingNormalizerBorrowed, NormalizeError};

/// Returns bytes as an identifier, if they are well-formed and already in their composed form.
///
/// # Errors
/// `Memory` if an allocation failed.
pub fn identifier_of_bytes<'t>(
    normalizer: &ComposingNormalizerBorrowed<'_>,
    bytes: &'t [u8],
) -> Result<Option<&'t str>, NormalizeError>
    ensures accepted { let d = (composed_by normalizer.now).reading in IfOk result (λ identifier. MatchOption identifier
        (¬ IsInputNormalized Encoding.Utf8 d Composing bytes.now)
        (λ text. (text.now ≡ bytes.now) × IsNormalized d Composing (chars text.now))) }
    ensures refused { IsOkUnless result NormalizeError.Memory }
{
    let (identifier, rest) = normalizer.split_normalized_utf8(bytes)?;
    if rest.is_empty() {
        Ok(Some(identifier))
    } else {
        Ok(None)
    }
}
