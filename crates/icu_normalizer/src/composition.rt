//! The pairs of characters that compose (The Unicode Standard, D114).
ghost use Rattle.std.specs.Prelude.{◌≡◌, IfErr, IfOk};
ghost use Rattle.normalizer_tables.specs.Held.{held_or, AnswersHeld};
ghost use Rattle.normalizer_tables.specs.conditions.PairConditions.{AreSoundPairs};
ghost use Rattle.normalizer_tables.specs.Pairs.{pair_of};
ghost use Rattle.icu_normalizer.specs.PairData.{RefusesPairs};

use normalizer_check::pair_check::are_sound_pairs;
use normalizer_check::refusal::refusal_of;
use normalizer_tables::condition::Condition;
use normalizer_tables::{
    CanonicalCompositions, DataError, DataMarkerInfo, DataProvider, NormalizerNfcV1, compose,
};

/// The pairs of characters that compose. They were checked when it was made.
#[derive(Drop)]
pub struct CanonicalComposition {
    pairs: CanonicalCompositions,
    ghost sound: { AreSoundPairs pairs },
}

impl CanonicalComposition {
    ghost use Rattle.icu_normalizer.specs.Properties.{pairs_of, pairs_of_borrowed};

    /// Makes it from pairs, which it loads from the provider and checks: of condition 11, that they rise and that no
    /// second is in U+1161 to U+11FF, which compose by arithmetic.
    ///
    /// # Errors
    /// - `Provider` if the provider holds nothing for the marker.
    /// - `Invalid`, with the lowest-numbered condition that fails, if the data break one (`docs/CONDITIONS.md`).
    /// - `Memory` if a load ran out of memory.
    ///
    /// # Examples
    /// ```rust
    /// let composition = CanonicalComposition::try_new_unstable(data)?;
    /// assert_eq!(rt;
    ///     composition.as_borrowed().compose('a', '\u{308}'),
    ///     Some('\u{E4}')
    /// );
    /// ```
    pub fn try_new_unstable<P>(provider: &P) -> Result<Self, DataError>
    where
        P: DataProvider<NormalizerNfcV1>,
        ensures { let first = DataMarkerInfo.NormalizerNfcV1 in AnswersHeld AreSoundPairs RefusesPairs first pairs_of
            (held_or first (⟦<P as DataProvider<NormalizerNfcV1>>⟧.payload provider.now)) result }
    {
        let pairs = <P as DataProvider<NormalizerNfcV1>>::load(provider)?;
        Self::over(DataMarkerInfo::NormalizerNfcV1, pairs)
    }

    /// The pairs of this marker, if they are sound.
    fn over(marker: DataMarkerInfo, pairs: CanonicalCompositions) -> Result<Self, DataError>
        ensures ok { IfOk result (λ c. (pairs_of c ≡ pairs) × AreSoundPairs pairs) }
        ensures err { IfErr result (RefusesPairs marker pairs) }
    {
        if are_sound_pairs(&pairs) {
            Ok(CanonicalComposition { pairs })
        } else {
            Err(refusal_of(marker, Condition::PairOrder))
        }
    }

    /// Returns the same over borrowed pairs.
    pub fn as_borrowed(&self) -> CanonicalCompositionBorrowed<'_>
        ensures { pairs_of_borrowed result ≡ pairs_of self.now }
    {
        CanonicalCompositionBorrowed { pairs: &self.pairs }
    }
}

/// The pairs of characters that compose, borrowed.
#[derive(Clone, Copy)]
pub struct CanonicalCompositionBorrowed<'a> {
    pairs: &'a CanonicalCompositions,
    ghost sound: { AreSoundPairs pairs.now },
}

impl<'a> CanonicalCompositionBorrowed<'a> {
    ghost use Rattle.icu_normalizer.specs.Properties.{pairs_of_borrowed};

    /// Returns what two characters compose to, if they do, Hangul included.
    pub fn compose(self, starter: char, second: char) -> Option<char>
        ensures { result ≡ pair_of (pairs_of_borrowed self.entry) starter second }
    {
        compose(self.pairs, starter, second)
    }
}
