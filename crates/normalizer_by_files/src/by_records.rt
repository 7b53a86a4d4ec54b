//! Normalizing text with data built from plain records.
ghost use Rattle.std.specs.Prelude.{◌≡◌, MatchResult};
ghost use Rattle.icu_normalizer.specs.Utf8.{decoded_utf8};
ghost use Rattle.icu_normalizer.specs.Building.{IsSmallest};
ghost use Rattle.icu_normalizer.specs.RecordedForms.{recorded_form};

use icu_normalizer::{
    BuildError, NormalForm, Record, Records, Utf8Chars, Uts46Record, normalizer_to,
};
use std::alloc::Global;

/// Returns the normal form, by plain records, of the text that bytes decode to. Records of the mapper don't affect it.
///
/// # Errors
/// The smallest fault of the records, or `Memory`.
pub fn form_by_records(
    alloc: Global,
    records: &[Record],
    uts46: &[Uts46Record],
    form: NormalForm,
    bytes: &[u8],
) -> Result<Vec<char>, BuildError>
    ensures { MatchResult result (λ v. v.items ≡ recorded_form records.now form (decoded_utf8 bytes.now))
        (IsSmallest records.now uts46.now) }
{
    let built = Records::build(alloc, records, uts46)?;
    let Ok(normalizer) = normalizer_to(&built, form) else {
        return Err(BuildError::Memory);
    };
    let characters = Utf8Chars::new(bytes);
    match normalizer
        .as_borrowed()
        .form_of_characters(alloc, characters)
    {
        Ok(text) => Ok(text),
        Err(_) => Err(BuildError::Memory),
    }
}
