//! Uses of `icu_normalizer`, as a caller writes them.
#![tactic(auto)]

ghost use Rattle.std.specs.Prelude.{◌≡◌, ◌⊎◌, IfOk, IfErr, IsOkUnless, chars, [], None};
ghost use Rattle.icu_normalizer.specs.NormalForms.{nfd};
ghost use Rattle.icu_normalizer.specs.DataMarkerInfo.TheVariants as marker;
ghost use Rattle.icu_normalizer.specs.Characters.{characters_from};
ghost use Rattle.icu_normalizer.specs.NfdData.{nfd_conditions, nfd_loaded};
ghost use Rattle.icu_normalizer.specs.Refusals.{RefusesFirstFailing};
ghost use Rattle.icu_normalizer.specs.Readings.{reading_by};
ghost use Rattle.icu_normalizer.specs.IgnoredCharacters.TheVariants.{Dropped};
ghost use Rattle.icu_normalizer.specs.Utf8.{decoded_utf8};
ghost use Rattle.icu_normalizer.specs.Normalizers.{data_of_borrowed};

pub mod growing;
pub mod identifiers;
pub mod keys;
pub mod labels;
pub mod reports;
pub mod sinks;

use icu_normalizer::{
    DataError, DecomposingNormalizerBorrowed, DecompositionData, DecompositionTables,
    NormalizeError, Utf8Chars, check_nfd_data, collected,
};
use std::alloc::Global;

/// Returns the NFD of the text that bytes decode to.
///
/// # Errors
/// `Memory` if an allocation failed.
pub fn nfd_of_bytes(
    alloc: Global,
    normalizer: &DecomposingNormalizerBorrowed<'_>,
    bytes: &[u8],
) -> Result<Vec<char>, NormalizeError>
    ensures form { IfOk result (λ v. v.items ≡ nfd (reading_by (data_of_borrowed normalizer.now) Dropped [])
        (decoded_utf8 bytes.now)) }
    ensures refused { IsOkUnless result NormalizeError.Memory }
{
    collected(alloc, normalizer.normalize_iter(Utf8Chars::new(bytes))?)
}

/// Returns the NFD of a text.
///
/// # Errors
/// `Memory` if an allocation failed.
pub fn nfd_of_text(
    alloc: Global,
    normalizer: &DecomposingNormalizerBorrowed<'_>,
    text: &str,
) -> Result<Vec<char>, NormalizeError>
    ensures form { IfOk result (λ v. v.items
        ≡ nfd (reading_by (data_of_borrowed normalizer.now) Dropped []) (chars text.now)) }
    ensures refused { IsOkUnless result NormalizeError.Memory }
{
    collected(alloc, normalizer.normalize_iter(text.chars())?)
}

/// Returns the NFD of the text that bytes decode to, using data that are checked once and then borrowed.
///
/// # Errors
/// The first condition that the data break, or `Memory` if an allocation failed.
pub fn nfd_by_data(
    alloc: Global,
    decompositions: &DecompositionData,
    tables: &DecompositionTables,
    bytes: &[u8],
) -> Result<Vec<char>, DataError>
    ensures form { IfOk result (λ v. v.items
        ≡ nfd (reading_by (characters_from decompositions.now tables.now None) Dropped [])
        (decoded_utf8 bytes.now)) }
    ensures refused { IfErr result (λ e. (e ≡ DataError.Memory)
        ⊎ RefusesFirstFailing marker.NormalizerNfdDataV1 (nfd_loaded decompositions.now tables.now) nfd_conditions e) }
{
    check_nfd_data(decompositions, tables)?;
    let normalizer = DecomposingNormalizerBorrowed::new_with_data(decompositions, tables);
    match nfd_of_bytes(alloc, &normalizer, bytes) {
        Ok(form) => Ok(form),
        Err(_) => Err(DataError::Memory),
    }
}
