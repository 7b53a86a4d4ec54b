//! Normalizers to the four forms, over the same data.
ghost use Rattle.std.specs.Prelude.{◌≡◌, []};
ghost use Rattle.icu_normalizer.specs.AllNormalizers.{canonical_data_of, made_to};
ghost use Rattle.icu_normalizer.specs.AnyNormalizers.{made_by_borrowed};
ghost use Rattle.icu_normalizer.specs.ComposingNormalizers.{composing_data_of};
ghost use Rattle.normalizer_calls.specs.Forms.{form_by};
ghost use Rattle.normal_forms.specs.declared.Form.TheVariants.{Decomposing};

use crate::any_normalizer::{AnyNormalizerBorrowed, NormalForm};
use crate::composing_normalizer::ComposingNormalizer;
use normalizer_tables::CanonicalCompositions;
use normalizer_tables::characters::{CharacterData, Purpose};

/// Normalizers to the four forms: [`FormData::normalizers`](crate::FormData::normalizers) makes them. NFD is by the
/// data of NFC, and NFKD by those of NFKC, so that no data are held or checked twice.
#[derive(Drop)]
pub struct AllNormalizers {
    pub(crate) canonical: ComposingNormalizer,
    pub(crate) compatibility: ComposingNormalizer,
}

impl AllNormalizers {
    /// Returns the normalizer to a form, which borrows these data.
    pub fn to(&self, form: NormalForm) -> AnyNormalizerBorrowed<'_>
        ensures { made_by_borrowed result ≡ made_to self.now form }
    {
        match form {
            NormalForm::Nfd => decomposing(&self.canonical),
            NormalForm::Nfc => AnyNormalizerBorrowed::Composing(self.canonical.as_borrowed()),
            NormalForm::Nfkd => decomposing(&self.compatibility),
            NormalForm::Nfkc => AnyNormalizerBorrowed::Composing(self.compatibility.as_borrowed()),
        }
    }

    /// Returns the canonical data of characters.
    pub fn characters(&self) -> CharacterData<'_>
        ensures { result ≡ (canonical_data_of self.now).0 }
    {
        let decomposing = self.canonical.as_decomposing();
        decomposing.characters.as_borrowed(Purpose::Forms)
    }

    /// Returns the pairs that compose.
    pub fn pairs(&self) -> &CanonicalCompositions
        ensures { result.now ≡ (canonical_data_of self.now).1 }
    {
        &self.canonical.pairs
    }
}

/// The decomposing normalizer over the data of a composing one.
fn decomposing(normalizer: &ComposingNormalizer) -> AnyNormalizerBorrowed<'_>
    ensures { made_by_borrowed result ≡ form_by (composing_data_of normalizer.now) [] Decomposing }
{
    AnyNormalizerBorrowed::Decomposing(normalizer.as_decomposing().as_borrowed())
}
