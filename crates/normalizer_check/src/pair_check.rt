//! The conditions on composing pairs, and on decomposition data by the pairs.
ghost use Rattle.std.specs.Prelude.{◌↔◌, [], IsTrue, All};
ghost use Rattle.normalizer_tables.specs.conditions.PairConditions.{
  AreSoundPairs,
  HasOrderedLists,
  IsComposable,
  IsComposablePair,
};

use crate::pair_check::results::is_ordered_lists;
use normalizer_tables::characters::{CharacterData, IgnoredCharacters};
use normalizer_tables::word::{IGNORED_MARKER, is_class_form};
use normalizer_tables::{
    CanonicalCompositions, has_no_jamo_second, is_rising, pair_at, pair_count,
};

pub(crate) mod results;
pub(crate) mod round_trips;

/// Whether pairs are sorted, without duplicates, and none has a vowel or a trailing consonant of Hangul as its second.
pub fn are_sound_pairs(compositions: &CanonicalCompositions) -> bool
    ensures { IsTrue result ↔ AreSoundPairs compositions.now }
{
    is_rising(compositions) && has_no_jamo_second(compositions)
}

/// Whether no first and no result has a class form or is ignored.
#[tactic(auto, unfolding(normalizer_tables::specs::conditions::PairConditions::IsComposablePair))]
pub(crate) fn have_composable_members(
    data: &CharacterData<'_>,
    compositions: &CanonicalCompositions,
) -> bool
    ensures { IsTrue result ↔ All (IsComposablePair data.now) compositions.now }
{
    for place in 0..pair_count(compositions) {
        let (_, first, result) = pair_at(compositions, place);
        if !is_composable(data, first) || !is_composable(data, result) {
            return false;
        }
    }
    true
}

#[tactic(auto, unfolding(normalizer_tables::specs::Characters::has_class_form))]
pub(crate) fn is_composable(data: &CharacterData<'_>, character: char) -> bool
    ensures { IsTrue result ↔ IsComposable data.now character }
{
    let word = data.word_of(character);
    !is_class_form(word) && word != IGNORED_MARKER
}

/// Whether each result has the ordered lists of first and second.
#[tactic(auto, unfolding(normalizer_tables::specs::conditions::PairConditions::HasOrderedLists))]
pub(crate) fn have_ordered_lists(
    data: &CharacterData<'_>,
    compositions: &CanonicalCompositions,
) -> bool
    ensures { IsTrue result ↔ All (HasOrderedLists data.now []) compositions.now }
{
    for place in 0..pair_count(compositions) {
        let (second, first, result) = pair_at(compositions, place);
        let of_result = data.members(result, IgnoredCharacters::Dropped);
        if !is_ordered_lists(data, &of_result, first, second) {
            return false;
        }
    }
    true
}
