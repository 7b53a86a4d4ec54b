//! Reports of the first mismatch of a text.
ghost use Rattle.std.specs.Prelude.{◌≡◌, chars, MatchResult};
ghost use Rattle.icu_normalizer.specs.Form.TheVariants.{Composing};
ghost use Rattle.icu_normalizer.specs.NormalForms.{IsNormalized};
ghost use Rattle.icu_normalizer.specs.Forms.{composed_by};
ghost use Rattle.normalizer_examples.specs.Reports.{Reports};

use icu_normalizer::{ComposingNormalizerBorrowed, Offence};

/// Why a text is refused.
#[derive(Debug, PartialEq, Eq, Drop)]
pub enum Refusal {
    /// It isn't in its composed form: its first mismatch.
    Differs(Offence),
    /// An allocation failed.
    Memory,
}

/// Returns the text, if it is already in its composed form.
///
/// # Errors
/// The first mismatch if it isn't, or `Memory` if an allocation failed.
pub fn in_form<'t>(
    normalizer: &ComposingNormalizerBorrowed<'_>,
    text: &'t str,
) -> Result<&'t str, Refusal>
    ensures { let d = (composed_by normalizer.now).reading in MatchResult result
        (λ t. (t.now ≡ text.now) × IsNormalized d Composing (chars text.now)) (Reports d (chars text.now)) }
{
    match normalizer.first_offence(text) {
        Ok(None) => Ok(text),
        Ok(Some(offence)) => Err(Refusal::Differs(offence)),
        Err(_) => Err(Refusal::Memory),
    }
}
