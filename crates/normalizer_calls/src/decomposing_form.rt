//! The decomposing form over borrowed data.
ghost use Rattle.std.specs.Prelude.{IfOk, []};
ghost use Rattle.std.specs.Iterator.{IsFinite};
ghost use Rattle.normal_forms.specs.Forms.{nfd};
ghost use Rattle.normalizer_tables.specs.declared.characters.IgnoredCharacters.TheVariants.{Dropped};
ghost use Rattle.normalizer_iterators.specs.Iterating.{YieldsFormBy};
ghost use Rattle.normalizer_calls.specs.Serving.{ServesDecomposing};

use crate::borrowed::NormalizerBorrowed;
use normalizer_iterators::{Decomposition, NormalizeError};
use normalizer_tables::characters::{CharacterData, IgnoredCharacters};
use normalizer_tables::condition::Bounds;

/// NFD, or NFKD over compatibility data.
#[derive(Drop)]
pub struct DecomposingForm<'a> {
    pub(crate) characters: CharacterData<'a>,
    pub(crate) bounds: Bounds,
    ghost serves: { ServesDecomposing characters bounds },
}

/// A normalizer to NFD or NFKD over borrowed data: the calls on text are its methods.
pub type DecomposingNormalizerBorrowed<'a> = NormalizerBorrowed<DecomposingForm<'a>>;

impl<'a> DecomposingForm<'a> {
    /// Returns an iterator over the characters of the form of what an iterator yields.
    pub(crate) fn items<I: Iterator<Item = char> + Drop>(
        &self,
        iter: I,
    ) -> Result<Decomposition<'a, I>, NormalizeError>
        requires can { I.can_next iter }
        requires ends { IsFinite (I.remaining iter) }
        ensures form { YieldsFormBy I.next_gives ⟦<Decomposition<'a, I> as Iterator>⟧.next_gives
            self.now.characters Dropped [] nfd iter result }
        ensures ready { IfOk result ⟦<Decomposition<'a, I> as Iterator>⟧.can_next }
    {
        Decomposition::over(self.characters.copied(), IgnoredCharacters::Dropped, iter)
    }
}

impl<'a> NormalizerBorrowed<DecomposingForm<'a>> {
    ghost use Rattle.normalizer_calls.specs.BorrowedData.{data_of_borrowed};

    /// Returns an iterator over the characters of the decomposed form of what `iter` yields. It reads `iter` up to the
    /// first boundary when it is made.
    ///
    /// # Errors
    /// `Memory` if reading up to the first boundary needed memory that was refused. Items are `Result`s for the same
    /// reason: after one `Err`, only `None` comes. Memory is needed only if more than 17 characters are buffered at a
    /// time.
    ///
    /// # Examples
    /// ```rust
    /// let form = collected(alloc, normalizer.normalize_iter("\u{E4}b".chars())?)?;
    /// assert_eq!(rt; form.as_slice(), ['a', '\u{308}', 'b'].as_slice());
    /// ```
    #[inline(always)]
    pub fn normalize_iter<I: Iterator<Item = char> + Drop>(
        &self,
        iter: I,
    ) -> Result<Decomposition<'a, I>, NormalizeError>
        requires can { I.can_next iter }
        requires ends { IsFinite (I.remaining iter) }
        ensures form { YieldsFormBy I.next_gives ⟦<Decomposition<'a, I> as Iterator>⟧.next_gives
            (data_of_borrowed self.now) Dropped [] nfd iter result }
        ensures ready { IfOk result ⟦<Decomposition<'a, I> as Iterator>⟧.can_next }
    {
        self.form.items(iter)
    }
}
