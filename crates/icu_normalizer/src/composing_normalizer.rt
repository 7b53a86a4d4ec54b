//! Composing normalizers over the data of a provider.
ghost use Rattle.std.specs.Prelude.{◌≡◌, ◌⊎◌, false, IfOk, IfErr};
ghost use Rattle.normalizer_tables.specs.Owned.{characters_owned};
ghost use Rattle.icu_normalizer.specs.Acceptance.{bounds_of, nfd_data, nfkd_data, AnswersHeld};
ghost use Rattle.icu_normalizer.specs.ComposingAcceptance.{
  with_pairs,
  RefusesToCompose,
  SuitsComposing,
};
ghost use Rattle.icu_normalizer.specs.Normalizers.{data_of};
ghost use Rattle.normalizer_calls.specs.Serving.{AreComposingBytes, ServesComposing};

use crate::decomposing_normalizer::DecomposingNormalizer;
use normalizer_calls::{ComposingForm, ComposingNormalizerBorrowed, NormalizerBorrowed};
use normalizer_check::check::check;
use normalizer_check::loaded::LoadedData;
use normalizer_passing::PassBytes;
use normalizer_tables::characters::Purpose;
use normalizer_tables::condition::{Bounds, composing_conditions};
use normalizer_tables::owned::OwnedCharacterData;
use normalizer_tables::{
    CanonicalCompositions, DataError, DataMarkerInfo, DataProvider, NormalizerNfcV1,
    NormalizerNfdDataV1, NormalizerNfdTablesV1, NormalizerNfkdDataV1, NormalizerNfkdTablesV1,
};

/// A normalizer to NFC, or to NFKC over compatibility data. Its data were checked when it was made.
///
/// [`as_borrowed`](ComposingNormalizer::as_borrowed) returns the normalizer that has the calls on text.
#[derive(Drop)]
pub struct ComposingNormalizer {
    decomposing: DecomposingNormalizer,
    pub(crate) pairs: CanonicalCompositions,
    bytes: PassBytes,
    ghost passing: { AreComposingBytes (data_of decomposing) pairs bytes },
    ghost serves: { ServesComposing (data_of decomposing) (bounds_of (data_of decomposing).decompositions) pairs },
}

impl ComposingNormalizer {
    ghost use Rattle.icu_normalizer.specs.ComposingNormalizers.{composing_data_of, composing_data_of_borrowed};
    ghost use Rattle.icu_normalizer.specs.ComposingNormalizers.{data_and_pairs_of, pairs_of, pairs_of_borrowed};

    /// Makes a normalizer to NFC over canonical data and pairs, which it loads from the provider and checks.
    ///
    /// # Errors
    /// - `Provider` if the provider holds nothing for one of the markers; the data of the first marker are loaded
    ///   first.
    /// - `FutureExtension` if the tables have more items than the limit.
    /// - `Invalid`, with the lowest-numbered condition that fails, if the data break one (`docs/CONDITIONS.md`).
    /// - `Memory` if an allocation failed. The check itself makes none.
    ///
    /// # Examples
    /// ```rust
    /// let normalizer = ComposingNormalizer::try_new_nfc_unstable(&data)?;
    /// assert!(rt; *normalizer.as_borrowed().normalize("a\u{308}")? == *"\u{E4}");
    /// ```
    pub fn try_new_nfc_unstable<P>(provider: &P) -> Result<Self, DataError>
    where
        P: DataProvider<NormalizerNfdDataV1>
            + DataProvider<NormalizerNfdTablesV1>
            + DataProvider<NormalizerNfcV1>,
        ensures { AnswersHeld SuitsComposing RefusesToCompose DataMarkerInfo.NormalizerNfdDataV1 data_and_pairs_of
            (with_pairs (nfd_data (⟦<P as DataProvider<NormalizerNfdDataV1>>⟧.payload provider.now)
            (⟦<P as DataProvider<NormalizerNfdTablesV1>>⟧.payload provider.now))
            (⟦<P as DataProvider<NormalizerNfcV1>>⟧.payload provider.now)) result }
    {
        let decompositions = <P as DataProvider<NormalizerNfdDataV1>>::load(provider)?;
        let tables = <P as DataProvider<NormalizerNfdTablesV1>>::load(provider)?;
        let pairs = <P as DataProvider<NormalizerNfcV1>>::load(provider)?;
        let characters = OwnedCharacterData {
            decompositions,
            tables,
            supplementary: None,
        };
        Self::over(DataMarkerInfo::NormalizerNfdDataV1, characters, pairs)
    }

    /// Makes a normalizer to NFKC over compatibility data and pairs, which it loads from the provider and checks.
    ///
    /// # Errors
    /// - `Provider` if the provider holds nothing for one of the markers; the data of the first marker are loaded
    ///   first.
    /// - `FutureExtension` if the tables have more items than the limit.
    /// - `Invalid`, with the lowest-numbered condition that fails, if the data break one (`docs/CONDITIONS.md`).
    /// - `Memory` if an allocation failed. The check itself makes none.
    pub fn try_new_nfkc_unstable<P>(provider: &P) -> Result<Self, DataError>
    where
        P: DataProvider<NormalizerNfkdDataV1>
            + DataProvider<NormalizerNfdTablesV1>
            + DataProvider<NormalizerNfkdTablesV1>
            + DataProvider<NormalizerNfcV1>,
        ensures { AnswersHeld SuitsComposing RefusesToCompose DataMarkerInfo.NormalizerNfkdDataV1 data_and_pairs_of
            (with_pairs (nfkd_data (⟦<P as DataProvider<NormalizerNfkdDataV1>>⟧.payload provider.now)
            (⟦<P as DataProvider<NormalizerNfdTablesV1>>⟧.payload provider.now)
            (⟦<P as DataProvider<NormalizerNfkdTablesV1>>⟧.payload provider.now))
            (⟦<P as DataProvider<NormalizerNfcV1>>⟧.payload provider.now)) result }
    {
        let decompositions = <P as DataProvider<NormalizerNfkdDataV1>>::load(provider)?;
        let tables = <P as DataProvider<NormalizerNfdTablesV1>>::load(provider)?;
        let supplementary = <P as DataProvider<NormalizerNfkdTablesV1>>::load(provider)?;
        let pairs = <P as DataProvider<NormalizerNfcV1>>::load(provider)?;
        let characters = OwnedCharacterData {
            decompositions,
            tables,
            supplementary: Some(supplementary),
        };
        Self::over(DataMarkerInfo::NormalizerNfkdDataV1, characters, pairs)
    }

    /// A normalizer over data and pairs that were loaded, if they meet the written conditions.
    fn over(
        marker: DataMarkerInfo,
        characters: OwnedCharacterData,
        pairs: CanonicalCompositions,
    ) -> Result<Self, DataError>
        ensures ok { IfOk result (λ n. (data_and_pairs_of n ≡ (characters_owned characters false, pairs)) ×
            SuitsComposing (characters_owned characters false, pairs)) }
        ensures err { IfErr result (λ e. (e ≡ DataError.Memory)
            ⊎ RefusesToCompose marker (characters_owned characters false, pairs) e) }
    {
        let borrowed = characters.as_borrowed(Purpose::Forms);
        let bounds = Bounds::of_cap(borrowed.cap());
        let loaded = LoadedData::new(borrowed, bounds, Some(&pairs), None);
        check(&loaded, marker, composing_conditions())?;
        let held = characters.as_borrowed(Purpose::Forms);
        let Ok(bytes) = held.composing_bytes(&pairs) else {
            return Err(DataError::Memory);
        };
        let decomposing = DecomposingNormalizer { characters, bounds };
        Ok(ComposingNormalizer {
            decomposing,
            pairs,
            bytes,
        })
    }

    /// Returns the normalizer to NFD over the same data, or to NFKD over compatibility data: what composing requires of
    /// data includes what decomposing does.
    pub fn as_decomposing(&self) -> &DecomposingNormalizer
        ensures { data_of result.now ≡ composing_data_of self.now }
    {
        &self.decomposing
    }

    /// Returns the normalizer that borrows this one's data.
    pub fn as_borrowed(&self) -> ComposingNormalizerBorrowed<'_>
        ensures held { composing_data_of_borrowed result ≡ composing_data_of self.now }
        ensures pairs { pairs_of_borrowed result ≡ pairs_of self.now }
    {
        let bounds = self.decomposing.bounds;
        let characters = self.decomposing.characters.as_borrowed(Purpose::Forms);
        let characters = characters.with_passthrough_bound(bounds.decomposition);
        NormalizerBorrowed::new(ComposingForm::new(characters, &self.pairs, bounds, &self.bytes))
    }
}
