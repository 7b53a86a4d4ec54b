//! The mapper (UTS #46, section 4): characters mapped, decomposed, put in order and composed.
ghost use Rattle.std.specs.Prelude.{◌≡◌, ◌↔◌, true, IfErr, IfOk, IsTrue};
ghost use Rattle.std.specs.Iterator.{IsFinite};
ghost use Rattle.normal_forms.specs.Forms.{nfc};
ghost use Rattle.normalizer_tables.specs.Characters.{class_of};
ghost use Rattle.normalizer_tables.specs.Held.{AnswersHeld};
ghost use Rattle.normalizer_tables.specs.Owned.{characters_owned};
ghost use Rattle.icu_normalizer.specs.Acceptance.{bounds_of};
ghost use Rattle.icu_normalizer.specs.ComposingAcceptance.{RefusesToCompose, SuitsComposing};
ghost use Rattle.normalizer_iterators.specs.Iterating.{YieldsFormBy};
ghost use Rattle.icu_normalizer.specs.Uts46.{uts46_data, ServesMapper};

use normalizer_check::check::check;
use normalizer_check::loaded::LoadedData;
use normalizer_iterators::composition::composed;
use normalizer_iterators::{Composition, NormalizeError};
use normalizer_tables::characters::{CharacterData, IgnoredCharacters, Purpose};
use normalizer_tables::condition::{Bounds, mapping_conditions};
use normalizer_tables::owned::OwnedCharacterData;
use normalizer_tables::{
    CanonicalCompositions, DataError, DataMarkerInfo, DataProvider, NormalizerNfcV1,
    NormalizerNfdTablesV1, NormalizerNfkdTablesV1, NormalizerUts46DataV1,
};

/// The class of viramas.
const VIRAMA: u8 = 9;

/// A mapper of text for domain names (UTS #46, section 4). Its data were checked when it was made.
///
/// It maps and normalizes; STD3 rules, transitional processing, Punycode and the other steps of UTS #46 are left to
/// the caller.
#[derive(Drop)]
pub struct Uts46Mapper {
    characters: OwnedCharacterData,
    pairs: CanonicalCompositions,
    ghost serves: { ServesMapper (characters_owned characters true, pairs) (bounds_of characters.decompositions) },
}

impl Uts46Mapper {
    ghost use Rattle.icu_normalizer.specs.Mappers.{mapper_data_of, mapper_data_of_borrowed};

    /// Makes a mapper over the mapper's data and the pairs, which it loads from the provider and checks.
    ///
    /// # Errors
    /// - `Provider` if the provider holds nothing for one of the markers; the data of the first marker are loaded
    ///   first.
    /// - `FutureExtension` if the tables have more items than the limit.
    /// - `Invalid`, with the lowest-numbered condition that fails, if the data break one (`docs/CONDITIONS.md`).
    /// - `Memory` if a load ran out of memory. The check itself takes none.
    pub fn try_new<P>(provider: &P) -> Result<Self, DataError>
    where
        P: DataProvider<NormalizerUts46DataV1>
            + DataProvider<NormalizerNfdTablesV1>
            + DataProvider<NormalizerNfkdTablesV1>
            + DataProvider<NormalizerNfcV1>,
        ensures { AnswersHeld SuitsComposing RefusesToCompose DataMarkerInfo.NormalizerUts46DataV1 mapper_data_of
            (uts46_data (⟦<P as DataProvider<NormalizerUts46DataV1>>⟧.payload provider.now)
            (⟦<P as DataProvider<NormalizerNfdTablesV1>>⟧.payload provider.now)
            (⟦<P as DataProvider<NormalizerNfkdTablesV1>>⟧.payload provider.now)
            (⟦<P as DataProvider<NormalizerNfcV1>>⟧.payload provider.now)) result }
    {
        let decompositions = <P as DataProvider<NormalizerUts46DataV1>>::load(provider)?;
        let tables = <P as DataProvider<NormalizerNfdTablesV1>>::load(provider)?;
        let supplementary = <P as DataProvider<NormalizerNfkdTablesV1>>::load(provider)?;
        let pairs = <P as DataProvider<NormalizerNfcV1>>::load(provider)?;
        let characters = OwnedCharacterData {
            decompositions,
            tables,
            supplementary: Some(supplementary),
        };
        Self::over(characters, pairs)
    }

    /// A mapper over data that were loaded, if they meet the written conditions.
    fn over(characters: OwnedCharacterData, pairs: CanonicalCompositions) -> Result<Self, DataError>
        ensures ok { IfOk result (λ m. (mapper_data_of m ≡ (characters_owned characters true, pairs)) ×
            SuitsComposing (characters_owned characters true, pairs)) }
        ensures err { IfErr result (RefusesToCompose DataMarkerInfo.NormalizerUts46DataV1
            (characters_owned characters true, pairs)) }
    {
        let borrowed = characters.as_borrowed(Purpose::Mapping);
        let bounds = Bounds::of_cap(borrowed.cap());
        let loaded = LoadedData::new(borrowed, bounds, Some(&pairs), None);
        check(
            &loaded,
            DataMarkerInfo::NormalizerUts46DataV1,
            mapping_conditions(),
        )?;
        Ok(Uts46Mapper { characters, pairs })
    }

    /// Returns the mapper that borrows this one's data.
    pub fn as_borrowed(&self) -> Uts46MapperBorrowed<'_>
        ensures { mapper_data_of_borrowed result ≡ mapper_data_of self.now }
    {
        let characters = self.characters.as_borrowed(Purpose::Mapping);
        let bounds = Bounds::of_cap(characters.cap());
        Uts46MapperBorrowed {
            characters: characters.with_passthrough_bound(bounds.decomposition),
            pairs: &self.pairs,
            bounds,
        }
    }
}

/// A mapper of text over borrowed data.
#[derive(Drop)]
pub struct Uts46MapperBorrowed<'a> {
    characters: CharacterData<'a>,
    pairs: &'a CanonicalCompositions,
    bounds: Bounds,
    ghost serves: { ServesMapper (characters, pairs.now) bounds },
}

impl<'a> Uts46MapperBorrowed<'a> {
    ghost use Rattle.normalizer_tables.specs.declared.characters.IgnoredCharacters.TheVariants.{Dropped, Replaced};
    ghost use Rattle.normalizer_iterators.specs.CompositionItems.{data_of_composition, pairs_of_composition};
    ghost use Rattle.icu_normalizer.specs.Mappers.{mapper_data_of_borrowed};

    /// Returns whether `character` has the combining class of viramas, 9, in the mapper's data.
    pub fn is_virama(&self, character: char) -> bool
        ensures { IsTrue result ↔ (class_of (mapper_data_of_borrowed self.now).0 character ≡ 9) }
    {
        self.characters.class_of(character) == VIRAMA
    }

    /// Returns an iterator over what `iter` yields, mapped and in NFC. Ignored characters are dropped, so that marks
    /// after them reach the base before them; disallowed characters become U+FFFD.
    ///
    /// # Errors
    /// `Memory` if reading up to the first boundary needed memory that was refused. Items are `Result`s for the same
    /// reason: after one `Err`, only `None` comes. Memory is needed only if more than 17 characters are buffered at a
    /// time.
    ///
    /// # Examples
    /// ```rust
    /// let mapped = collected(
    ///     alloc,
    ///     mapper.as_borrowed().map_normalize("\u{C4}b".chars())?,
    /// )?;
    /// assert_eq!(rt; mapped.as_slice(), ['\u{E4}', 'b'].as_slice());
    /// ```
    pub fn map_normalize<I: Iterator<Item = char> + Drop>(
        &self,
        iter: I,
    ) -> Result<Composition<'a, I>, NormalizeError>
        requires can { I.can_next iter }
        requires ends { IsFinite (I.remaining iter) }
        ensures form { let h = mapper_data_of_borrowed self.now in YieldsFormBy I.next_gives
            ⟦<Composition<'a, I> as Iterator>⟧.next_gives h.0 Dropped h.1 nfc iter result }
        ensures ready { IfOk result ⟦<Composition<'a, I> as Iterator>⟧.can_next }
        ensures held { IfOk result (λ it. (data_of_composition it ≡ (mapper_data_of_borrowed self.now).0) ×
            (pairs_of_composition it ≡ (mapper_data_of_borrowed self.now).1)) }
    {
        let characters = self.characters.copied();
        let dropped = IgnoredCharacters::Dropped;
        composed(characters, dropped, self.pairs, self.bounds, iter)
    }

    /// Returns an iterator over what `iter` yields, mapped and in NFC, with U+FFFD for each ignored or disallowed
    /// character. Mapped text is valid only if this leaves it unchanged.
    ///
    /// # Errors
    /// `Memory` if reading up to the first boundary needed memory that was refused. Items are `Result`s for the same
    /// reason: after one `Err`, only `None` comes. Memory is needed only if more than 17 characters are buffered at a
    /// time.
    pub fn normalize_validate<I: Iterator<Item = char> + Drop>(
        &self,
        iter: I,
    ) -> Result<Composition<'a, I>, NormalizeError>
        requires can { I.can_next iter }
        requires ends { IsFinite (I.remaining iter) }
        ensures form { let h = mapper_data_of_borrowed self.now in YieldsFormBy I.next_gives
            ⟦<Composition<'a, I> as Iterator>⟧.next_gives h.0 Replaced h.1 nfc iter result }
        ensures ready { IfOk result ⟦<Composition<'a, I> as Iterator>⟧.can_next }
        ensures held { IfOk result (λ it. (data_of_composition it ≡ (mapper_data_of_borrowed self.now).0) ×
            (pairs_of_composition it ≡ (mapper_data_of_borrowed self.now).1)) }
    {
        let characters = self.characters.copied();
        let replaced = IgnoredCharacters::Replaced;
        composed(characters, replaced, self.pairs, self.bounds, iter)
    }
}
