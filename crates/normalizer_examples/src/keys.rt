//! Keys of an index in which equivalent texts are equal.
ghost use Rattle.std.specs.Prelude.{◌↔◌, chars, IfOk, IsOkUnless, IsTrue};
ghost use Rattle.icu_normalizer.specs.Equivalence.{EquivalentTexts};
ghost use Rattle.icu_normalizer.specs.Forms.{composed_by};

use icu_normalizer::{ComposingNormalizerBorrowed, NormalizeError};

/// Returns whether two texts have the same key, their composed form: if and only if they are equivalent.
///
/// # Errors
/// `Memory` if an allocation failed.
pub fn have_one_key(
    normalizer: &ComposingNormalizerBorrowed<'_>,
    text: &str,
    other: &str,
) -> Result<bool, NormalizeError>
    ensures equivalent { IfOk result (λ one. IsTrue one ↔
        EquivalentTexts (composed_by normalizer.now).reading (chars text.now) (chars other.now)) }
    ensures refused { IsOkUnless result NormalizeError.Memory }
{
    let key = normalizer.normalize(text)?;
    let other_key = normalizer.normalize(other)?;
    Ok(*key == *other_key)
}
