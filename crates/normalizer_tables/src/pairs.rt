//! The pairs of characters that compose.
ghost use Rattle.std.specs.Prelude.{◌≡◌, ◌↔◌, ◌<◌, ◌||◌, length, slice_get, All, Contains, false, true, ℕ, IfOk, IsOkUnless, IsTrue};
ghost use Rattle.normalizer_tables.specs.Pairs.{
  is_before,
  is_of,
  is_vowel_or_trailing_jamo,
  listed_result,
  may_be_second,
  pair_of,
  AreRising,
  IsNeverSecond,
};

mod buckets;
mod seconds;

use crate::hangul::{compose_hangul, is_never_hangul_second};
use crate::pairs::buckets::PairBuckets;
use crate::pairs::seconds::Seconds;
use crate::table::TableError;
use std::alloc::{AllocError, Global};
use std::marker::Model;

/// The first vowel of the block Hangul Jamo.
const FIRST_VOWEL: u32 = 0x1161;

/// The last trailing consonant of that block.
const LAST_TRAILING: u32 = 0x11FF;

/// The pairs of characters that compose: a list of triples of second character, first character and result.
pub struct CanonicalCompositions {
    pairs: PairBuckets,
    seconds: Seconds,
    is_rising: bool,
}

// Written out, so that each place that drops one makes one call.
impl Drop for CanonicalCompositions {
    fn drop(self) {
        let CanonicalCompositions {
            pairs: _pairs,
            seconds: _seconds,
            is_rising: _is_rising,
        } = self;
    }
}

impl Model for CanonicalCompositions {
    ghost use Rattle.std.specs.Prelude.{◌≡◌, ◌↔◌, ℕ, List, IsTrue};
    ghost use Rattle.normalizer_tables.specs.Pairs.{AreRising};
    ghost use Rattle.normalizer_tables.specs.inner.Seconds.{AreBitsOf};

    ghost Value = { List (ℕ × ℕ × ℕ) };

    ghost view = { λ c. c.pairs };

    ghost invariant = { λ c. (IsTrue c.is_rising ↔ AreRising c.pairs) × AreBitsOf c.seconds c.pairs };
}

impl CanonicalCompositions {
    /// Makes it from a list of triples of second, first and result, kept as it is. Constructors check whether it
    /// rises.
    ///
    /// # Errors
    /// `Memory` if an allocation failed.
    pub fn from_pairs(pairs: Vec<(char, char, char)>) -> Result<Self, TableError>
        ensures held { IfOk result (λ c. c ≡ pairs.items) }
        ensures refused { IsOkUnless result TableError.Memory }
    {
        let is_rising = are_rising(&pairs);
        let seconds = Seconds::of_pairs(*pairs.allocator(), &pairs)?;
        let pairs = PairBuckets::from_pairs(pairs)?;
        Ok(CanonicalCompositions {
            pairs,
            seconds,
            is_rising,
        })
    }

    /// The characters that may be second in a pair: the vowels and trailing consonants, and the seconds of the list.
    pub(crate) fn all_seconds(&self, alloc: Global) -> Result<Vec<char>, AllocError>
        ensures { IfOk result (λ seconds. (n : ℕ) → may_be_second self.now n ≡ true → Contains seconds.items n) }
    {
        let mut seconds = Vec::new(alloc);
        for number in FIRST_VOWEL..=LAST_TRAILING {
            if let Some(second) = char::from_u32(number) {
                seconds.push(second)?;
            }
        }
        for place in 0..self.pairs.len() {
            seconds.push(self.pairs.at(place).0)?;
        }
        Ok(seconds)
    }

    /// Whether no pair has this second.
    fn is_never_listed_second(&self, second: char) -> bool
        ensures { IsTrue result ↔ ((first : ℕ) → listed_result self.now first second ≡ None) }
    {
        !self.seconds.has(second)
    }
}

/// Returns what two characters compose to, if they do: by the arithmetic of Hangul alone if the second is a vowel or
/// a trailing consonant of that block, otherwise as listed.
#[tactic(auto, unfolding(crate::specs::Pairs::pair_of))]
#[inline(always)]
pub fn compose(pairs: &CanonicalCompositions, first: char, second: char) -> Option<char>
    ensures { result ≡ pair_of pairs.now first second }
{
    if is_vowel_or_trailing_jamo(second) {
        compose_hangul(first, second)
    } else {
        pairs.pairs.result_of(first, second)
    }
}

/// Returns whether a character composes with none before it.
#[tactic(auto, unfolding(crate::specs::Pairs::IsNeverSecond, crate::specs::Pairs::pair_of))]
pub fn is_never_second(pairs: &CanonicalCompositions, second: char) -> bool
    ensures { IsTrue result ↔ IsNeverSecond pairs.now second }
{
    if is_vowel_or_trailing_jamo(second) {
        is_never_hangul_second(second)
    } else {
        pairs.is_never_listed_second(second)
    }
}

/// Returns whether some character may compose with this one after it: whether it is a vowel or trailing jamo, or a
/// listed pair has it second.
#[tactic(auto, unfolding(crate::specs::Pairs::may_be_second))]
#[inline(always)]
pub fn may_be_second(pairs: &CanonicalCompositions, second: char) -> bool
    ensures { result ≡ may_be_second pairs.now second }
{
    is_vowel_or_trailing_jamo(second) || pairs.seconds.has(second)
}

/// Returns whether the list is sorted, without duplicates, by second, then by first.
pub fn is_rising(pairs: &CanonicalCompositions) -> bool
    ensures { IsTrue result ↔ AreRising pairs.now }
{
    pairs.is_rising
}

/// Returns how many pairs there are.
pub fn pair_count(pairs: &CanonicalCompositions) -> usize
    ensures { result ≡ length pairs.now }
{
    pairs.pairs.len()
}

/// Returns the pair at this place, counted from 0: second, first and result.
pub fn pair_at(pairs: &CanonicalCompositions, place: usize) -> (char, char, char)
    requires { place < length pairs.now }
    ensures { slice_get pairs.now place ≡ Some result }
{
    pairs.pairs.at(place)
}

/// Returns whether no second is in U+1161 to U+11FF, whose characters compose by arithmetic.
#[tactic(auto, unfolding(crate::specs::Pairs::pair_at))]
pub fn has_no_jamo_second(pairs: &CanonicalCompositions) -> bool
    ensures { IsTrue result ↔ All (λ p. is_vowel_or_trailing_jamo p.0 ≡ false) pairs.now }
{
    for place in 0..pair_count(pairs) {
        if is_vowel_or_trailing_jamo(pair_at(pairs, place).0) {
            return false;
        }
    }
    true
}

/// Equal if and only if the lists are.
impl PartialEq for CanonicalCompositions {
    ghost use Rattle.std.specs.Cmp.{partial_equiv_from_equiv};
    ghost use Rattle.std.specs.Cmp.Lexicographic.{pointwise};
    ghost use Rattle.normalizer_tables.specs.Pairs.{same_pair};
    ghost use Rattle.normalizer_tables.specs.inner.Buckets.{same_pairs_equiv};

    ghost eq = { pointwise same_pair };

    ghost laws = { partial_equiv_from_equiv same_pairs_equiv };

    fn eq(&self, other: &Self) -> bool {
        self.pairs.as_slice() == other.pairs.as_slice()
    }
}

impl Eq for CanonicalCompositions {
    ghost use Rattle.normalizer_tables.specs.inner.Buckets.{same_pairs_equiv};

    ghost laws = { same_pairs_equiv };
}

impl Clone for CanonicalCompositions {
    ghost is_clone = { λ c d. d ≡ c };

    fn clone(&self) -> Result<Self, AllocError> {
        Ok(CanonicalCompositions {
            pairs: self.pairs.clone()?,
            seconds: self.seconds.clone()?,
            is_rising: self.is_rising,
        })
    }
}

fn are_rising(pairs: &[(char, char, char)]) -> bool
    ensures { IsTrue result ↔ AreRising pairs.now }
{
    pairs.is_sorted_by(|pair, next| is_before(pair, next.0, next.1))
}

#[tactic(auto, unfolding(crate::specs::Pairs::is_before))]
fn is_before(pair: &(char, char, char), second: char, first: char) -> bool
    ensures { result ≡ is_before pair.now second first }
{
    pair.0 < second || (pair.0 == second && pair.1 < first)
}

#[tactic(auto, unfolding(crate::specs::Pairs::is_of))]
#[inline(always)]
fn is_of(pair: &(char, char, char), first: char, second: char) -> bool
    ensures { result ≡ is_of pair.now first second }
{
    pair.0 == second && pair.1 == first
}

#[tactic(auto, unfolding(crate::specs::Pairs::is_vowel_or_trailing_jamo))]
#[inline(always)]
fn is_vowel_or_trailing_jamo(c: char) -> bool
    ensures { result ≡ is_vowel_or_trailing_jamo c }
{
    '\u{1161}' <= c && c <= '\u{11FF}'
}
