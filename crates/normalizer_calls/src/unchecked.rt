//! Normalizers over canonical data that their caller has checked. No memory is taken for the data.
ghost use Rattle.std.specs.Prelude.{◌≡◌, None};
ghost use Rattle.normalizer_tables.specs.conditions.NfdData.{IsSoundNfdData};
ghost use Rattle.normalizer_tables.specs.Characters.{characters_from};

use crate::borrowed::NormalizerBorrowed;
use crate::decomposing_form::DecomposingForm;
use normalizer_tables::characters::{CharacterData, Purpose};
use normalizer_tables::condition::GREATEST_BOUNDS;
use normalizer_tables::{DecompositionData, DecompositionTables};

impl<'a> NormalizerBorrowed<DecomposingForm<'a>> {
    ghost use Rattle.normalizer_calls.specs.BorrowedData.{data_of_borrowed};

    /// Makes a normalizer to NFD over canonical data that the caller has checked. Nothing is copied or checked.
    ///
    /// The caller owes that [`check_nfd_data`](normalizer_check::check_nfd_data) returned `Ok` for exactly these
    /// values.
    ///
    /// # Examples
    /// ```rust
    /// check_nfd_data(decompositions, tables)?;
    /// let normalizer = DecomposingNormalizerBorrowed::new_with_data(decompositions, tables);
    /// ```
    pub fn new_with_data(
        decompositions: &'a DecompositionData,
        tables: &'a DecompositionTables,
    ) -> Self
        requires { IsSoundNfdData decompositions.now tables.now }
        ensures { data_of_borrowed result ≡ characters_from decompositions.now tables.now None }
    {
        let characters = CharacterData::new(decompositions, tables, None, Purpose::Forms);
        NormalizerBorrowed {
            form: DecomposingForm {
                characters: characters.with_passthrough_bound(GREATEST_BOUNDS.decomposition),
                bounds: GREATEST_BOUNDS,
            },
        }
    }
}
