//! The canonical combining classes of characters (The Unicode Standard, section 3.11).
ghost use Rattle.std.specs.Prelude.{◌≡◌, IfErr, IfOk};
ghost use Rattle.normalizer_tables.specs.Held.{held_or, AnswersHeld};
ghost use Rattle.icu_normalizer.specs.ClassData.{
  combining_class,
  HasNoClassesElsewhere,
  RefusesClasses,
  SuitsClasses,
};

use normalizer_check::check::check;
use normalizer_check::loaded::LoadedData;
use normalizer_tables::characters::{CharacterData, Purpose};
use normalizer_tables::condition::{CLASSES, GREATEST_BOUNDS};
use normalizer_tables::word::class_of_word;
use normalizer_tables::{
    DataError, DataMarkerInfo, DataProvider, DecompositionData, DecompositionTables,
    NormalizerNfdDataV1,
};

/// A canonical combining class: 0 for starters, else 1 to 254.
#[derive(Clone, Copy, PartialEq, Eq, PartialOrd, Ord, Debug)]
pub struct CanonicalCombiningClass(pub u8);

#[allow(non_upper_case_globals)]
impl CanonicalCombiningClass {
    /// Starters, which no reordering moves.
    pub const NotReordered: CanonicalCombiningClass = CanonicalCombiningClass(0);
    /// The voicing marks of Hiragana and Katakana.
    pub const KanaVoicing: CanonicalCombiningClass = CanonicalCombiningClass(8);
    /// Viramas.
    pub const Virama: CanonicalCombiningClass = CanonicalCombiningClass(9);
    /// Marks above their base.
    pub const Above: CanonicalCombiningClass = CanonicalCombiningClass(230);
}

/// The canonical combining classes of all characters. Its data were checked when it was made.
#[derive(Drop)]
pub struct CanonicalCombiningClassMap {
    decompositions: DecompositionData,
    ghost classes: { HasNoClassesElsewhere decompositions },
}

impl CanonicalCombiningClassMap {
    ghost use Rattle.icu_normalizer.specs.Properties.{classes_of, classes_of_borrowed};

    /// Makes the map of classes from canonical data, which it loads from the provider and checks: only what concerns
    /// classes.
    ///
    /// # Errors
    /// - `Provider` if the provider holds nothing for the marker.
    /// - `Invalid`, with the lowest-numbered condition that fails, if the data break one (`docs/CONDITIONS.md`).
    /// - `Memory` if a load ran out of memory.
    ///
    /// # Examples
    /// ```rust
    /// let classes = CanonicalCombiningClassMap::try_new_unstable(data)?;
    /// assert_eq!(rt; classes.as_borrowed().get_u8('\u{308}'), 230);
    /// ```
    pub fn try_new_unstable<P>(provider: &P) -> Result<Self, DataError>
    where
        P: DataProvider<NormalizerNfdDataV1>,
        ensures { let first = DataMarkerInfo.NormalizerNfdDataV1 in
            AnswersHeld SuitsClasses RefusesClasses first classes_of
            (held_or first (⟦<P as DataProvider<NormalizerNfdDataV1>>⟧.payload provider.now)) result }
    {
        let decompositions = <P as DataProvider<NormalizerNfdDataV1>>::load(provider)?;
        Self::over(DataMarkerInfo::NormalizerNfdDataV1, decompositions)
    }

    /// The classes of data of this marker, if they meet the written conditions.
    fn over(marker: DataMarkerInfo, decompositions: DecompositionData) -> Result<Self, DataError>
        ensures ok { IfOk result (λ m. (classes_of m ≡ decompositions) × SuitsClasses decompositions) }
        ensures err { IfErr result (RefusesClasses marker decompositions) }
    {
        // Classes depend on no table of lists.
        let tables = DecompositionTables::empty(decompositions.table.allocator());
        let characters = CharacterData::new(&decompositions, &tables, None, Purpose::Forms);
        let loaded = LoadedData::new(characters, GREATEST_BOUNDS, None, None);
        check(&loaded, marker, &CLASSES)?;
        Ok(CanonicalCombiningClassMap { decompositions })
    }

    /// Returns the map that borrows this one's data.
    pub fn as_borrowed(&self) -> CanonicalCombiningClassMapBorrowed<'_>
        ensures { classes_of_borrowed result ≡ classes_of self.now }
    {
        CanonicalCombiningClassMapBorrowed {
            decompositions: &self.decompositions,
        }
    }
}

/// The canonical combining classes of all characters, over borrowed data.
#[derive(Clone, Copy)]
pub struct CanonicalCombiningClassMapBorrowed<'a> {
    decompositions: &'a DecompositionData,
    ghost classes: { HasNoClassesElsewhere decompositions.now },
}

impl<'a> CanonicalCombiningClassMapBorrowed<'a> {
    ghost use Rattle.icu_normalizer.specs.Properties.{classes_of_borrowed};

    /// Returns the class of a character.
    pub fn get(&self, character: char) -> CanonicalCombiningClass
        ensures { result.0 ≡ combining_class (classes_of_borrowed self.now) character }
    {
        CanonicalCombiningClass(self.get_u8(character))
    }

    /// Returns the class of a code point: 0 for a number that isn't a scalar value.
    pub fn get32(&self, number: u32) -> CanonicalCombiningClass
        ensures { result.0 ≡ combining_class (classes_of_borrowed self.now) number }
    {
        CanonicalCombiningClass(self.get32_u8(number))
    }

    /// Returns the class of a character, as a number.
    pub fn get_u8(&self, character: char) -> u8
        ensures { result ≡ combining_class (classes_of_borrowed self.now) character }
    {
        self.get32_u8(character as u32)
    }

    /// Returns the class of a code point, as a number: 0 for a number that isn't a scalar value.
    pub fn get32_u8(&self, number: u32) -> u8
        ensures { result ≡ combining_class (classes_of_borrowed self.now) number }
    {
        // Neither surrogates nor the numbers past the code points have a class form.
        let decompositions = self.decompositions;
        class_of_word(decompositions.table.get32(number))
    }
}
