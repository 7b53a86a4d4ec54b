//! The check of canonical data that come without a provider.
ghost use Rattle.std.specs.Prelude.{◌↔◌, IsOk, IfErr};
ghost use Rattle.normalizer_tables.specs.conditions.NfdData.{
  IsSoundNfdData,
  nfd_conditions,
  nfd_loaded,
};
ghost use Rattle.normalizer_check.specs.Refusals.{RefusesFirstFailing};
ghost use Rattle.normalizer_tables.specs.declared.provider.DataMarkerInfo.TheVariants as marker;

use crate::check::check;
use crate::loaded::LoadedData;
use normalizer_tables::characters::{CharacterData, Purpose};
use normalizer_tables::condition::{GREATEST_BOUNDS, NFD_DATA};
use normalizer_tables::{DataError, DataMarkerInfo, DecompositionData, DecompositionTables};

/// Checks canonical data for `DecomposingNormalizerBorrowed::new_with_data` and `Decomposition::new`, which don't
/// check them: conditions 1, 3 to 9, and 10 for the characters below U+00C0 (`docs/CONDITIONS.md`). It takes no
/// memory.
///
/// # Errors
/// `FutureExtension` for condition 1; otherwise `Invalid` with the lowest-numbered condition that fails.
///
/// # Examples
/// ```rust
/// check_nfd_data(decompositions, tables)?;
/// let normalizer = DecomposingNormalizerBorrowed::new_with_data(decompositions, tables);
/// ```
pub fn check_nfd_data<'a>(
    decompositions: &'a DecompositionData,
    tables: &'a DecompositionTables,
) -> Result<(), DataError>
    ensures ok { IsOk result ↔ IsSoundNfdData decompositions.now tables.now }
    ensures err { IfErr result (RefusesFirstFailing marker.NormalizerNfdDataV1
        (nfd_loaded decompositions.now tables.now) nfd_conditions) }
{
    let characters = CharacterData::new(decompositions, tables, None, Purpose::Forms);
    let loaded = LoadedData::new(characters, GREATEST_BOUNDS, None, None);
    check(&loaded, DataMarkerInfo::NormalizerNfdDataV1, &NFD_DATA)
}
