//! The composing form over borrowed data.
ghost use Rattle.std.specs.Prelude.{◌≡◌, All, IfOk};
ghost use Rattle.std.specs.Iterator.{IsFinite};
ghost use Rattle.normal_forms.specs.Forms.{nfc};
ghost use Rattle.normalizer_tables.specs.Ignored.{ignored_list};
ghost use Rattle.normalizer_tables.specs.Characters.{word_of};
ghost use Rattle.normalizer_tables.specs.conditions.PairConditions.{is_taken_as_boundary};
ghost use Rattle.normalizer_tables.specs.conditions.PairConditions.{HasOrderedLists};
ghost use Rattle.normalizer_tables.specs.declared.characters.IgnoredCharacters.TheVariants.{Dropped};
ghost use Rattle.normalizer_iterators.specs.Iterating.{YieldsFormBy};
ghost use Rattle.normalizer_calls.specs.Serving.{AreComposingBytes, ServesComposing};

use crate::borrowed::NormalizerBorrowed;
use normalizer_iterators::composition::composed;
use normalizer_iterators::{Composition, NormalizeError};
use normalizer_passing::PassBytes;
use normalizer_tables::CanonicalCompositions;
use normalizer_tables::characters::{CharacterData, IgnoredCharacters};
use normalizer_tables::condition::Bounds;
use normalizer_tables::word::is_backward_combining;

/// NFC, or NFKC over compatibility data.
#[derive(Drop)]
pub struct ComposingForm<'a> {
    pub(crate) characters: CharacterData<'a>,
    pub(crate) pairs: &'a CanonicalCompositions,
    pub(crate) bounds: Bounds,
    pub(crate) bytes: &'a PassBytes,
    ghost passing: { AreComposingBytes characters pairs.now bytes.now },
    ghost serves: { ServesComposing characters bounds pairs.now },
}

/// A normalizer to NFC or NFKC over borrowed data: the calls on text are its methods.
pub type ComposingNormalizerBorrowed<'a> = NormalizerBorrowed<ComposingForm<'a>>;

impl<'a> ComposingForm<'a> {
    ghost use Rattle.normalizer_iterators.specs.CompositionItems.{data_of_composition, pairs_of_composition};

    /// Returns an iterator over the characters of the form of what an iterator yields.
    pub(crate) fn items<I: Iterator<Item = char> + Drop>(
        &self,
        iter: I,
    ) -> Result<Composition<'a, I>, NormalizeError>
        requires can { I.can_next iter }
        requires ends { IsFinite (I.remaining iter) }
        ensures form { YieldsFormBy I.next_gives ⟦<Composition<'a, I> as Iterator>⟧.next_gives
            self.now.characters Dropped self.now.pairs.now nfc iter result }
        ensures ready { IfOk result ⟦<Composition<'a, I> as Iterator>⟧.can_next }
        ensures kept { IfOk result (λ it. (data_of_composition it ≡ self.now.characters) ×
            (pairs_of_composition it ≡ self.now.pairs.now)) }
    {
        let characters = self.characters.copied();
        let dropped = IgnoredCharacters::Dropped;
        composed(characters, dropped, self.pairs, self.bounds, iter)
    }

    /// Whether a character is taken to begin a new part, by its word.
    #[tactic(auto, unfolding(normalizer_tables::specs::conditions::PairConditions::is_taken_as_boundary))]
    #[inline(always)]
    pub(crate) fn begins_by(&self, character: char, word: u32) -> bool
        requires { word ≡ word_of self.now.characters character }
        ensures { result ≡ is_taken_as_boundary self.now.characters self.now.bounds character }
    {
        !is_backward_combining(word) || (character as u32) < self.bounds.composition
    }
}

impl<'a> NormalizerBorrowed<ComposingForm<'a>> {
    ghost use Rattle.normalizer_calls.specs.BorrowedData.{composing_data_of_borrowed, pairs_of_borrowed};
    ghost use Rattle.normalizer_iterators.specs.CompositionItems.{data_of_composition, pairs_of_composition};

    /// Returns an iterator over the characters of the composed form of what `iter` yields. It reads `iter` up to the
    /// first boundary when it is made.
    ///
    /// # Errors
    /// `Memory` if reading up to the first boundary needed memory that was refused. Items are `Result`s for the same
    /// reason: after one `Err`, only `None` comes. Memory is needed only if more than 17 characters are buffered at a
    /// time.
    ///
    /// # Examples
    /// ```rust
    /// let form = collected(alloc, normalizer.normalize_iter("a\u{308}b".chars())?)?;
    /// assert_eq!(rt; form.as_slice(), ['\u{E4}', 'b'].as_slice());
    /// ```
    #[inline(always)]
    pub fn normalize_iter<I: Iterator<Item = char> + Drop>(
        &self,
        iter: I,
    ) -> Result<Composition<'a, I>, NormalizeError>
        requires can { I.can_next iter }
        requires ends { IsFinite (I.remaining iter) }
        ensures form { YieldsFormBy I.next_gives ⟦<Composition<'a, I> as Iterator>⟧.next_gives
            (composing_data_of_borrowed self.now) Dropped (pairs_of_borrowed self.now) nfc iter result }
        ensures ready { IfOk result ⟦<Composition<'a, I> as Iterator>⟧.can_next }
        ensures held { IfOk result (λ it. (data_of_composition it ≡ composing_data_of_borrowed self.now) ×
            (pairs_of_composition it ≡ pairs_of_borrowed self.now)) }
        ensures results { IfOk result (λ it.
            All (HasOrderedLists (data_of_composition it) (ignored_list Dropped)) (pairs_of_composition it)) }
    {
        self.form.items(iter)
    }
}
