//! Laws of normalizers, of records and of the data that they build. Each function does nothing: its contract is the
//! law.
ghost use Rattle.std.specs.Prelude.{◌≡◌};
ghost use Rattle.normal_forms.specs.declared.Form.TheVariants.{Composing, Decomposing};
ghost use Rattle.normalizer_check.specs.RequiredConditions.{SuitsTexts};
ghost use Rattle.normalizer_calls.specs.Forms.{composed_by, decomposed_by};

use crate::properties::CanonicalCombiningClass;
use crate::{ComposingNormalizerBorrowed, DecomposingNormalizerBorrowed};
pub use normalizer_builder::laws::{
    data_that_meet_conditions_are_accepted, packed_records_are_one, records_have_one_answer,
    what_is_built_is_accepted, what_is_built_suits_the_laws,
};
use normalizer_calls::{ComposingForm, DecomposingForm, Forming};

/// A decomposing normalizer makes the decomposing form, using its data, which satisfy the hypotheses of the laws of that
/// form.
pub fn laws_hold_of_decomposing<'a>(normalizer: &DecomposingNormalizerBorrowed<'a>)
    ensures form { ⟦<DecomposingForm<'a> as Forming>⟧.made_form normalizer.now.form
        ≡ decomposed_by normalizer.now }
    ensures laws { SuitsTexts (decomposed_by normalizer.now).reading Decomposing }
{}

/// A composing normalizer makes the composing form, using its data and pairs, which satisfy the hypotheses of the laws
/// of that form.
pub fn laws_hold_of_composing<'a>(normalizer: &ComposingNormalizerBorrowed<'a>)
    ensures form { ⟦<ComposingForm<'a> as Forming>⟧.made_form normalizer.now.form ≡ composed_by normalizer.now }
    ensures laws { SuitsTexts (composed_by normalizer.now).reading Composing }
{}

/// The classes that have names have the numbers that the Unicode Character Database has for them.
pub fn named_classes_are_those_of_unicode()
    ensures not_reordered { CanonicalCombiningClass.NotReordered.0 ≡ 0 }
    ensures kana_voicing { CanonicalCombiningClass.KanaVoicing.0 ≡ 8 }
    ensures virama { CanonicalCombiningClass.Virama.0 ≡ 9 }
    ensures above { CanonicalCombiningClass.Above.0 ≡ 230 }
{}

/// Normalizers may be moved to other threads, and shared by them.
pub fn normalizers_cross_threads() {
    crosses::<crate::DecomposingNormalizer>();
    crosses::<crate::ComposingNormalizer>();
    crosses::<crate::uts46::Uts46Mapper>();
    crosses::<DecomposingNormalizerBorrowed<'_>>();
    crosses::<ComposingNormalizerBorrowed<'_>>();
}

/// Does nothing, for a type whose values may be moved to other threads and shared by them.
fn crosses<T: Send + Sync>() {}
