//! Decomposing normalizers over the data of a provider.
ghost use Rattle.std.specs.Prelude.{◌≡◌, false, IfOk, IfErr};
ghost use Rattle.normalizer_tables.specs.Owned.{characters_owned};
ghost use Rattle.icu_normalizer.specs.Acceptance.{
  bounds_of,
  nfd_data,
  nfkd_data,
  AnswersHeld,
  RefusesToDecompose,
  SuitsDecomposing,
};
ghost use Rattle.normalizer_calls.specs.Serving.{ServesDecomposing};

use normalizer_calls::{DecomposingForm, DecomposingNormalizerBorrowed, NormalizerBorrowed};
use normalizer_check::check::check;
use normalizer_check::loaded::LoadedData;
use normalizer_tables::characters::Purpose;
use normalizer_tables::condition::{Bounds, decomposing_conditions};
use normalizer_tables::owned::OwnedCharacterData;
use normalizer_tables::{
    DataError, DataMarkerInfo, DataProvider, NormalizerNfdDataV1, NormalizerNfdTablesV1,
    NormalizerNfkdDataV1, NormalizerNfkdTablesV1,
};

/// A normalizer to NFD, or to NFKD over compatibility data. Its data were checked when it was made.
///
/// [`as_borrowed`](DecomposingNormalizer::as_borrowed) returns the normalizer that has the calls on text.
#[derive(Drop)]
pub struct DecomposingNormalizer {
    pub(crate) characters: OwnedCharacterData,
    pub(crate) bounds: Bounds,
    ghost bounded: { bounds ≡ bounds_of characters.decompositions },
    ghost serves: { ServesDecomposing (characters_owned characters false) (bounds_of characters.decompositions) },
}

impl DecomposingNormalizer {
    ghost use Rattle.icu_normalizer.specs.Normalizers.{data_of, data_of_borrowed};

    /// Makes a normalizer to NFD over canonical data, which it loads from the provider and checks.
    ///
    /// # Errors
    /// - `Provider` if the provider holds nothing for one of the markers; the data of the first marker are loaded
    ///   first.
    /// - `FutureExtension` if the tables have more items than the limit.
    /// - `Invalid`, with the lowest-numbered condition that fails, if the data break one (`docs/CONDITIONS.md`).
    /// - `Memory` if a load ran out of memory. The check itself takes none.
    pub fn try_new_nfd_unstable<P>(provider: &P) -> Result<Self, DataError>
    where
        P: DataProvider<NormalizerNfdDataV1> + DataProvider<NormalizerNfdTablesV1>,
        ensures { AnswersHeld SuitsDecomposing RefusesToDecompose DataMarkerInfo.NormalizerNfdDataV1 data_of
            (nfd_data (⟦<P as DataProvider<NormalizerNfdDataV1>>⟧.payload provider.now)
            (⟦<P as DataProvider<NormalizerNfdTablesV1>>⟧.payload provider.now)) result }
    {
        let decompositions = <P as DataProvider<NormalizerNfdDataV1>>::load(provider)?;
        let tables = <P as DataProvider<NormalizerNfdTablesV1>>::load(provider)?;
        let characters = OwnedCharacterData {
            decompositions,
            tables,
            supplementary: None,
        };
        Self::over(DataMarkerInfo::NormalizerNfdDataV1, characters)
    }

    /// Makes a normalizer to NFKD over compatibility data, which it loads from the provider and checks.
    ///
    /// # Errors
    /// - `Provider` if the provider holds nothing for one of the markers; the data of the first marker are loaded
    ///   first.
    /// - `FutureExtension` if the tables have more items than the limit.
    /// - `Invalid`, with the lowest-numbered condition that fails, if the data break one (`docs/CONDITIONS.md`).
    /// - `Memory` if a load ran out of memory. The check itself takes none.
    pub fn try_new_nfkd_unstable<P>(provider: &P) -> Result<Self, DataError>
    where
        P: DataProvider<NormalizerNfkdDataV1>
            + DataProvider<NormalizerNfdTablesV1>
            + DataProvider<NormalizerNfkdTablesV1>,
        ensures { AnswersHeld SuitsDecomposing RefusesToDecompose DataMarkerInfo.NormalizerNfkdDataV1 data_of
            (nfkd_data (⟦<P as DataProvider<NormalizerNfkdDataV1>>⟧.payload provider.now)
            (⟦<P as DataProvider<NormalizerNfdTablesV1>>⟧.payload provider.now)
            (⟦<P as DataProvider<NormalizerNfkdTablesV1>>⟧.payload provider.now)) result }
    {
        let decompositions = <P as DataProvider<NormalizerNfkdDataV1>>::load(provider)?;
        let tables = <P as DataProvider<NormalizerNfdTablesV1>>::load(provider)?;
        let supplementary = <P as DataProvider<NormalizerNfkdTablesV1>>::load(provider)?;
        let characters = OwnedCharacterData {
            decompositions,
            tables,
            supplementary: Some(supplementary),
        };
        Self::over(DataMarkerInfo::NormalizerNfkdDataV1, characters)
    }

    /// A normalizer over data that were loaded, if they meet the written conditions.
    fn over(marker: DataMarkerInfo, characters: OwnedCharacterData) -> Result<Self, DataError>
        ensures ok { IfOk result (λ n.
            (data_of n ≡ characters_owned characters false) × SuitsDecomposing (characters_owned characters false)) }
        ensures err { IfErr result (RefusesToDecompose marker (characters_owned characters false)) }
    {
        let borrowed = characters.as_borrowed(Purpose::Forms);
        let bounds = Bounds::of_cap(borrowed.cap());
        let loaded = LoadedData::new(borrowed, bounds, None, None);
        check(&loaded, marker, decomposing_conditions())?;
        Ok(DecomposingNormalizer { characters, bounds })
    }

    /// Returns the normalizer that borrows this one's data.
    pub fn as_borrowed(&self) -> DecomposingNormalizerBorrowed<'_>
        ensures { data_of_borrowed result ≡ data_of self.now }
    {
        let bounds = self.bounds;
        let characters = self.characters.as_borrowed(Purpose::Forms);
        let characters = characters.with_passthrough_bound(bounds.decomposition);
        NormalizerBorrowed::new(DecomposingForm::new(characters, bounds))
    }
}
