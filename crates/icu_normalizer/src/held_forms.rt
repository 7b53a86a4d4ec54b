//! Normalizers and the mapper over what a provider holds.
ghost use Rattle.std.specs.Prelude.{◌≡◌, ◌⊎◌, [], ◌∷◌, IfOk, IfErr};
ghost use Rattle.icu_normalizer.specs.AllNormalizers.{canonical_data_of, made_to};
ghost use Rattle.icu_normalizer.specs.ComposingAcceptance.{SuitsComposing, with_pairs};
ghost use Rattle.icu_normalizer.specs.Mappers.{mapper_data_of};
ghost use Rattle.icu_normalizer.specs.Uts46.{uts46_data};
ghost use Rattle.normalizer_tables.specs.Held.{AcceptsHeld};
ghost use Rattle.icu_normalizer.specs.AnyNormalizers.{made_by};
ghost use Rattle.icu_normalizer.specs.HeldForms.{
  held_for_forms,
  HeldForForms,
  HeldForMapper,
  IsMadeOf,
  RefusesFirst,
  RefusesForm,
  RefusesMapper,
};

use crate::all_normalizers::AllNormalizers;
use crate::any_normalizer::{AnyNormalizer, NormalForm};
use crate::composing_normalizer::ComposingNormalizer;
use crate::decomposing_normalizer::DecomposingNormalizer;
use crate::uts46::Uts46Mapper;
use normalizer_tables::{
    DataError, DataProvider, NormalizerNfcV1, NormalizerNfdDataV1, NormalizerNfdTablesV1,
    NormalizerNfkdDataV1, NormalizerNfkdTablesV1, NormalizerUts46DataV1,
};

/// What holds the data for the normal forms.
pub trait FormData {
    /// What is held for the forms.
    ghost held_for_forms: { Self → HeldForForms };

    /// Returns the normalizer to a form, over what is held.
    ///
    /// # Errors
    /// Which data are missing or break a condition, or `Memory` if an allocation failed.
    fn normalizer(&self, form: NormalForm) -> Result<AnyNormalizer, DataError>
        ensures made { IfOk result (λ n. IsMadeOf form (held_for_forms self.now) (made_by n)) }
        ensures errors { IfErr result (λ e. (e ≡ DataError.Memory) ⊎ RefusesForm form (held_for_forms self.now) e) };

    /// Returns the normalizers to all forms, over what is held. What NFD needs is loaded and checked with what NFC
    /// needs, and so is that of NFKD with NFKC.
    ///
    /// # Errors
    /// The error of the normalizer to NFC, or else of that to NFKC.
    fn normalizers(&self) -> Result<AllNormalizers, DataError>
        ensures made { IfOk result (λ n. (form : NormalForm) →
            IsMadeOf form (held_for_forms self.now) (made_to n form)) }
        ensures canonical { let held = held_for_forms self.now in IfOk result (λ n.
            AcceptsHeld SuitsComposing (with_pairs held.canonical held.pairs) (canonical_data_of n)) }
        ensures errors { IfErr result (λ e. (e ≡ DataError.Memory)
            ⊎ RefusesFirst (held_for_forms self.now) (NormalForm.Nfc ∷ NormalForm.Nfkc ∷ []) e) };
}

/// What holds the data for the mapper.
pub trait MappingData {
    /// What is held for the mapper.
    ghost held_for_mapper: { Self → HeldForMapper };

    /// Returns the mapper over what is held.
    ///
    /// # Errors
    /// Which data are missing or break a condition, or `Memory` if an allocation failed.
    fn mapper(&self) -> Result<Uts46Mapper, DataError>
        ensures data { IfOk result (λ m. AcceptsHeld SuitsComposing (held_for_mapper self.now) (mapper_data_of m)) }
        ensures errors { IfErr result (λ e. (e ≡ DataError.Memory) ⊎ RefusesMapper (held_for_mapper self.now) e) };
}

impl<P> FormData for P
where
    P: DataProvider<NormalizerNfdDataV1>
        + DataProvider<NormalizerNfdTablesV1>
        + DataProvider<NormalizerNfkdDataV1>
        + DataProvider<NormalizerNfkdTablesV1>
        + DataProvider<NormalizerNfcV1>,
{
    ghost held_for_forms = { λ p. held_for_forms
        (⟦<P as DataProvider<NormalizerNfdDataV1>>⟧.payload p)
        (⟦<P as DataProvider<NormalizerNfdTablesV1>>⟧.payload p)
        (⟦<P as DataProvider<NormalizerNfkdDataV1>>⟧.payload p)
        (⟦<P as DataProvider<NormalizerNfkdTablesV1>>⟧.payload p)
        (⟦<P as DataProvider<NormalizerNfcV1>>⟧.payload p) };

    fn normalizer(&self, form: NormalForm) -> Result<AnyNormalizer, DataError> {
        Ok(match form {
            NormalForm::Nfd => {
                AnyNormalizer::Decomposing(DecomposingNormalizer::try_new_nfd_unstable(self)?)
            }
            NormalForm::Nfc => {
                AnyNormalizer::Composing(ComposingNormalizer::try_new_nfc_unstable(self)?)
            }
            NormalForm::Nfkd => {
                AnyNormalizer::Decomposing(DecomposingNormalizer::try_new_nfkd_unstable(self)?)
            }
            NormalForm::Nfkc => {
                AnyNormalizer::Composing(ComposingNormalizer::try_new_nfkc_unstable(self)?)
            }
        })
    }

    fn normalizers(&self) -> Result<AllNormalizers, DataError> {
        Ok(AllNormalizers {
            canonical: ComposingNormalizer::try_new_nfc_unstable(self)?,
            compatibility: ComposingNormalizer::try_new_nfkc_unstable(self)?,
        })
    }
}

impl<P> MappingData for P
where
    P: DataProvider<NormalizerUts46DataV1>
        + DataProvider<NormalizerNfdTablesV1>
        + DataProvider<NormalizerNfkdTablesV1>
        + DataProvider<NormalizerNfcV1>,
{
    ghost held_for_mapper = { λ p. uts46_data
        (⟦<P as DataProvider<NormalizerUts46DataV1>>⟧.payload p)
        (⟦<P as DataProvider<NormalizerNfdTablesV1>>⟧.payload p)
        (⟦<P as DataProvider<NormalizerNfkdTablesV1>>⟧.payload p)
        (⟦<P as DataProvider<NormalizerNfcV1>>⟧.payload p) };

    fn mapper(&self) -> Result<Uts46Mapper, DataError> {
        Uts46Mapper::try_new(self)
    }
}
