//! The first character that breaks a condition.
ghost use Rattle.std.specs.Prelude.{◌≡◌, MatchOption};
ghost use Rattle.std.specs.Char.{IsScalar};
ghost use Rattle.normalizer_check.specs.EachCharacter.{
  composing_members,
  IsFirstBreaking,
  IsFirstUncomposable,
};
ghost use Rattle.normalizer_tables.specs.conditions.Conditions.{says};
ghost use Rattle.normalizer_tables.specs.conditions.PairConditions.{IsComposable};

use crate::check::met::is_met_at;
use crate::loaded::LoadedData;
use crate::pair_check::is_composable;
use normalizer_tables::characters::{CODE_POINTS, CharacterData};
use normalizer_tables::condition::Condition;
use normalizer_tables::read::read_character;
use normalizer_tables::{CanonicalCompositions, pair_at, pair_count};

/// Returns the first character that breaks what a condition says of each. It takes no memory.
pub fn first_breaking(data: &LoadedData<'_>, condition: Condition) -> Option<char>
    ensures { IsFirstBreaking data.now condition result }
{
    for number in 0..CODE_POINTS {
        if let Some(character) = breaking_at(data, condition, number) {
            return Some(character);
        }
    }
    None
}

/// The character of a number, if it breaks the condition.
fn breaking_at(data: &LoadedData<'_>, condition: Condition, number: u32) -> Option<char>
    ensures { MatchOption result (IsScalar number → (says data.now condition).of_each number)
        (λ c. (c ≡ number) × IsScalar c × (¬ (says data.now condition).of_each c)) }
{
    let character = char::from_u32(number)?;
    let read = read_character(&data.characters, character);
    if is_met_at(data, condition, &read) {
        return None;
    }
    Some(character)
}

/// Returns the first character that has a class form or is ignored among the firsts and the results of pairs. It takes
/// no memory.
pub fn first_uncomposable(data: &CharacterData<'_>, pairs: &CanonicalCompositions) -> Option<char>
    ensures { IsFirstUncomposable data.now pairs.now result }
{
    for place in 0..pair_count(pairs) {
        let (_, first, result) = pair_at(pairs, place);
        if !is_composable(data, first) {
            return Some(first);
        }
        if !is_composable(data, result) {
            return Some(result);
        }
    }
    None
}
