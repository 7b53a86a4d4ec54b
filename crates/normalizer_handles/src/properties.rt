//! Properties of characters, by the data of normalizers.
ghost use Rattle.std.specs.Prelude.{◌≡◌, ◌⊎◌, IfErr, IfOk, Some};
ghost use Rattle.icu_normalizer.specs.AllNormalizers.{canonical_data_of};
ghost use Rattle.icu_normalizer.specs.Built.{data_in};
ghost use Rattle.icu_normalizer.specs.DataMarkerInfo.TheVariants.{NormalizerNfdDataV1};
ghost use Rattle.icu_normalizer.specs.StepData.{RefusesSteps};
ghost use Rattle.icu_normalizer.specs.StepMeaning.{HasSteps};

use icu_normalizer::properties::{Decomposed, check_steps};
use icu_normalizer::{
    AllNormalizers, Built, DataError, DataProvider, NonRecursiveDecompositionSupplement,
    NormalizerNfdSupplementV1,
};
use normalizer_tables::compose;
use normalizer_tables::step::step_of;

/// Canonical combining classes, the pairs that compose, and single steps of canonical decomposition: normalizers to the
/// four forms, whose canonical data tell them, and a supplement for steps.
#[derive(Drop)]
pub struct Properties {
    pub(crate) forms: AllNormalizers,
    supplement: NonRecursiveDecompositionSupplement,
    ghost steps: { HasSteps (canonical_data_of forms).0 supplement },
}

impl Properties {
    ghost use Rattle.normalizer_handles.specs.Properties.{canonical_in, class_in, composite_in, step_in, AreOver};

    /// Returns the properties by the data of normalizers and the supplement that a provider holds.
    ///
    /// # Errors
    /// `Memory`, or that of the lowest-numbered condition on steps that fails.
    pub(crate) fn over(forms: AllNormalizers, held: &Built) -> Result<Properties, DataError>
        requires { canonical_data_of forms ≡ canonical_in (data_in held.now) }
        ensures forms { IfOk result (λ q. q.forms ≡ forms) }
        ensures data { IfOk result (λ q. AreOver q (data_in held.now)) }
        ensures refused { let p = data_in held.now in IfErr result (λ e. (e ≡ DataError.Memory)
            ⊎ RefusesSteps NormalizerNfdDataV1 ((canonical_in p).0, p.supplement) e) }
    {
        let supplement = <Built as DataProvider<NormalizerNfdSupplementV1>>::load(held)?;
        check_steps(&forms.characters(), &supplement)?;
        Ok(Properties { forms, supplement })
    }

    /// Returns the canonical combining class of a number, 0 if it isn't a scalar value.
    #[tactic(auto, unfolding(normalizer_tables::specs::Characters::class_of, normalizer_tables::specs::Characters::word_of))]
    pub fn class(&self, number: u32) -> u8
        ensures { result ≡ class_in self.now number }
    {
        match char::from_u32(number) {
            Some(character) => self.forms.characters().class_of(character),
            None => 0,
        }
    }

    /// Returns what two characters compose to, if they do.
    pub fn composite(&self, first: char, second: char) -> Option<char>
        ensures { result ≡ composite_in self.now first second }
    {
        compose(self.forms.pairs(), first, second)
    }

    /// Returns one step of the canonical decomposition of a character.
    pub fn step(&self, character: char) -> Decomposed
        ensures { step_in self.now character ≡ Some result }
    {
        step_of(&self.forms.characters(), &self.supplement, character).unwrap()
    }
}
