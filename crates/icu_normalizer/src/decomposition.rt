//! One step of canonical decomposition: the canonical mapping of a character.
ghost use Rattle.std.specs.Prelude.{◌≡◌, IfErr, IfOk, IsOk, None};
ghost use Rattle.normalizer_tables.specs.Held.{AnswersHeld};
ghost use Rattle.normalizer_tables.specs.Steps.{step_of};
ghost use Rattle.normalizer_tables.specs.Characters.{characters_from};
ghost use Rattle.icu_normalizer.specs.StepData.{
  step_data,
  steps_from,
  RefusesSteps,
  SuitsSteps,
};
ghost use Rattle.icu_normalizer.specs.StepMeaning.{HasSteps, MeansInLists};

use normalizer_check::check::check;
use normalizer_check::loaded::LoadedData;
use normalizer_tables::characters::{CharacterData, Purpose};
use normalizer_tables::condition::{GREATEST_BOUNDS, STEPPING};
use normalizer_tables::step::{Step as Decomposed, step_of};
use normalizer_tables::{
    DataError, DataMarkerInfo, DataProvider, DecompositionData, DecompositionTables,
    NonRecursiveDecompositionSupplement, NormalizerNfdDataV1, NormalizerNfdSupplementV1,
    NormalizerNfdTablesV1,
};

/// One step of canonical decomposition. Its data were checked when it was made.
#[derive(Drop)]
pub struct CanonicalDecomposition {
    decompositions: DecompositionData,
    tables: DecompositionTables,
    supplement: NonRecursiveDecompositionSupplement,
    ghost steps: { HasSteps (characters_from decompositions tables None) supplement },
}

impl CanonicalDecomposition {
    ghost use Rattle.icu_normalizer.specs.Properties.{steps_of, steps_of_borrowed};

    /// Makes it from canonical data and their supplement, which it loads from the provider and checks.
    ///
    /// # Errors
    /// - `Provider` if the provider holds nothing for one of the markers; the data are loaded first.
    /// - `Invalid`, with the lowest-numbered condition that fails, if the data break one (`docs/CONDITIONS.md`).
    /// - `Memory` if a load ran out of memory.
    /// - `FutureExtension` if the tables have more items than the limit.
    ///
    /// # Examples
    /// ```rust
    /// let decomposition = CanonicalDecomposition::try_new_unstable(data)?;
    /// let step = decomposition.as_borrowed().decompose('\u{E4}');
    /// assert!(rt; step == Decomposed::Expansion('a', '\u{308}'));
    /// ```
    pub fn try_new_unstable<P>(provider: &P) -> Result<Self, DataError>
    where
        P: DataProvider<NormalizerNfdDataV1>
            + DataProvider<NormalizerNfdTablesV1>
            + DataProvider<NormalizerNfdSupplementV1>,
        ensures { AnswersHeld SuitsSteps RefusesSteps DataMarkerInfo.NormalizerNfdDataV1 steps_of
            (step_data (⟦<P as DataProvider<NormalizerNfdDataV1>>⟧.payload provider.now)
            (⟦<P as DataProvider<NormalizerNfdTablesV1>>⟧.payload provider.now)
            (⟦<P as DataProvider<NormalizerNfdSupplementV1>>⟧.payload provider.now)) result }
    {
        let decompositions = <P as DataProvider<NormalizerNfdDataV1>>::load(provider)?;
        let tables = <P as DataProvider<NormalizerNfdTablesV1>>::load(provider)?;
        let supplement = <P as DataProvider<NormalizerNfdSupplementV1>>::load(provider)?;
        Self::over(decompositions, tables, supplement)
    }

    /// The steps over loaded data, if they meet the written conditions.
    fn over(
        decompositions: DecompositionData,
        tables: DecompositionTables,
        supplement: NonRecursiveDecompositionSupplement,
    ) -> Result<Self, DataError>
        ensures ok { IfOk result (λ d. (steps_of d ≡ steps_from decompositions tables supplement) ×
            SuitsSteps (steps_from decompositions tables supplement)) }
        ensures err { IfErr result (RefusesSteps DataMarkerInfo.NormalizerNfdDataV1
            (steps_from decompositions tables supplement)) }
    {
        let characters = CharacterData::new(&decompositions, &tables, None, Purpose::Forms);
        check_steps(&characters, &supplement)?;
        Ok(CanonicalDecomposition {
            decompositions,
            tables,
            supplement,
        })
    }

    /// Returns the same over borrowed data.
    pub fn as_borrowed(&self) -> CanonicalDecompositionBorrowed<'_>
        ensures { steps_of_borrowed result ≡ steps_of self.now }
    {
        CanonicalDecompositionBorrowed {
            characters: CharacterData::new(
                &self.decompositions,
                &self.tables,
                None,
                Purpose::Forms,
            ),
            supplement: &self.supplement,
        }
    }
}

/// Checks that canonical data and a supplement meet the written conditions on single steps. It takes no memory.
///
/// # Errors
/// `FutureExtension`, or `Invalid` with the lowest-numbered condition that fails.
pub fn check_steps<'a>(
    characters: &CharacterData<'a>,
    supplement: &'a NonRecursiveDecompositionSupplement,
) -> Result<(), DataError>
    ensures ok { IsOk result → SuitsSteps (characters.now, supplement.now) }
    ensures steps { IsOk result → HasSteps characters.now supplement.now }
    ensures err { IfErr result (RefusesSteps DataMarkerInfo.NormalizerNfdDataV1 (characters.now, supplement.now)) }
{
    // No condition that is checked here depends on the bounds.
    let loaded = LoadedData::new(characters.copied(), GREATEST_BOUNDS, None, Some(supplement));
    check(&loaded, DataMarkerInfo::NormalizerNfdDataV1, &STEPPING)
}

/// One step of canonical decomposition, over borrowed data.
#[derive(Drop)]
pub struct CanonicalDecompositionBorrowed<'a> {
    characters: CharacterData<'a>,
    supplement: &'a NonRecursiveDecompositionSupplement,
    ghost steps: { HasSteps characters supplement.now },
}

impl<'a> CanonicalDecompositionBorrowed<'a> {
    ghost use Rattle.icu_normalizer.specs.Properties.{steps_of_borrowed};

    /// Returns the canonical mapping of a character, not repeated. A Hangul syllable of three jamo maps to one of two
    /// and the third (The Unicode Standard, section 3.12). It takes no memory.
    pub fn decompose(&self, character: char) -> Decomposed
        ensures step { let h = steps_of_borrowed self.now in step_of h.0 h.1 character ≡ Some result }
        ensures lists { MeansInLists (steps_of_borrowed self.now).0 character result }
    {
        step_of(&self.characters, self.supplement, character).unwrap()
    }
}
