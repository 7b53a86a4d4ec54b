//! What is required of the characters that a composing loop passes.
ghost use Rattle.std.specs.Prelude.{◌≡◌, ◌↔◌, ℕ, [], ◌∷◌, true, IsTrue, All};
ghost use Rattle.normal_forms.specs.Composition.{compose, joined};
ghost use Rattle.normalizer_tables.specs.conditions.PairConditions.{
  ListBeginsAtBoundary,
  KeepsBoundary,
  KeepsRoundTrip,
  RoundTrips,
  is_taken_as_boundary,
  is_taken_to_round_trip,
};
ghost use Rattle.normalizer_tables.specs.Pairs.{is_vowel_or_trailing_jamo};
ghost use Rattle.normalizer_check.specs.inner.Walk.{KeepsPlainBoundary};
ghost use Rattle.normalizer_tables.specs.Read.{IsRead};
ghost use Rattle.normalizer_tables.specs.Readings.{reading_by};
ghost use Rattle.normalizer_tables.specs.declared.characters.IgnoredCharacters.TheVariants.{Dropped};

use normalizer_tables::characters::CharacterData;
use normalizer_tables::condition::Bounds;
use normalizer_tables::members::Members;
use normalizer_tables::read::{ReadCharacter, read_by_word};
use normalizer_tables::word::{is_backward_combining, is_non_round_trip, is_plain};
use normalizer_tables::{CanonicalCompositions, compose, is_never_second, pair_at, pair_count};

/// Whether the list of a character composes to it alone if a composing loop relies on it: all after the first join.
#[tactic(auto, using(crate::proofs::composites::PairLaws::trips), unfolding(normalizer_tables::specs::conditions::PairConditions::KeepsRoundTrip, normalizer_tables::specs::conditions::PairConditions::RoundTrips))]
pub fn keeps_round_trip(
    data: &CharacterData<'_>,
    bounds: Bounds,
    compositions: &CanonicalCompositions,
    read: &ReadCharacter<'_>,
) -> bool
    requires { IsRead data.now read.now }
    ensures { IsTrue result ↔ KeepsRoundTrip data.now bounds compositions.now read.now.character }
{
    let is_taken = !is_non_round_trip(read.word) || (read.character as u32) < bounds.composition;
    if !is_taken {
        return true;
    }
    let list = &read.list;
    let Some(mut composite) = list.get(0) else {
        return false;
    };
    for place in 1..list.len() {
        match joined(data, compositions, composite, list.at(place)) {
            Some(next) => composite = next,
            None => return false,
        }
    }
    composite == read.character
}

/// Whether the list of a character begins with a starter that is second in no pair if a composing loop relies on it.
#[tactic(auto, using(crate::proofs::composites::PairConditionLemmas::beginnings), unfolding(normalizer_tables::specs::conditions::PairConditions::KeepsBoundary))]
pub fn keeps_boundary(
    data: &CharacterData<'_>,
    bounds: Bounds,
    compositions: &CanonicalCompositions,
    read: &ReadCharacter<'_>,
) -> bool
    requires { IsRead data.now read.now }
    ensures { IsTrue result ↔ KeepsBoundary data.now bounds compositions.now read.now.character }
{
    let is_taken = !is_backward_combining(read.word)
        || (read.character as u32) < bounds.composition;
    match read.list.get(0) {
        _ if !is_taken => true,
        Some(first) => data.class_of(first) == 0 && is_never_second(compositions, first),
        None => false,
    }
}

/// Whether all characters whose word is 0, flags aside, keep their beginnings. Only the seconds of pairs may not,
/// Hangul ones included.
#[tactic(auto, using(crate::proofs::conditions::WalkLemmas::all_keep_plain_beginning), unfolding(normalizer_tables::specs::Pairs::is_vowel_or_trailing_jamo))]
pub fn keep_plain_boundaries(
    data: &CharacterData<'_>,
    bounds: Bounds,
    compositions: &CanonicalCompositions,
) -> bool
    ensures { IsTrue result ↔ ((n : ℕ) → KeepsPlainBoundary data.now bounds compositions.now n) }
{
    for place in 0..pair_count(compositions) {
        let (second, _, _) = pair_at(compositions, place);
        if !keeps_plain_boundary(data, bounds, compositions, second as u32) {
            return false;
        }
    }
    for jamo in 0x1161..0x1200 {
        if !keeps_plain_boundary(data, bounds, compositions, jamo) {
            return false;
        }
    }
    true
}

/// Whether a number has another word than 0, flags aside, or keeps its beginning.
#[tactic(auto, unfolding(crate::specs::inner::Walk::KeepsPlainBoundary, normalizer_tables::specs::conditions::PairConditions::KeepsBoundary))]
fn keeps_plain_boundary(
    data: &CharacterData<'_>,
    bounds: Bounds,
    compositions: &CanonicalCompositions,
    number: u32,
) -> bool
    ensures { IsTrue result ↔ KeepsPlainBoundary data.now bounds compositions.now number }
{
    let Some(character) = char::from_u32(number) else {
        return true;
    };
    let word = data.word_of(character);
    !is_plain(word)
        || keeps_boundary(
            data,
            bounds,
            compositions,
            &read_by_word(data, character, word),
        )
}

/// What a character and the one right after it compose to.
#[tactic(auto, unfolding(normal_forms::specs::Composition::joined, normal_forms::specs::Composition::is_blocked))]
fn joined(
    data: &CharacterData<'_>,
    compositions: &CanonicalCompositions,
    first: char,
    second: char,
) -> Option<char>
    ensures { result ≡ joined (reading_by data.now Dropped compositions.now) first [] second }
{
    if data.class_of(first) == 0 {
        compose(compositions, first, second)
    } else {
        None
    }
}
