//! The complete check of what was loaded: the first of the written conditions that it breaks.
ghost use Rattle.std.specs.Prelude.{◌≡◌, ◌↔◌, ◌≤◌, Bool, IsTrue, IsOk, IfErr, All};
ghost use Rattle.std.specs.Char.{IsScalar};
ghost use Rattle.std.specs.List.{Contains};
ghost use Rattle.normalizer_tables.specs.conditions.Conditions.{IsFirstFailing, IsMet, says};
ghost use Rattle.normalizer_check.specs.Refusals.{RefusesFirstFailing};
ghost use Rattle.normalizer_tables.specs.Characters.{word_of};
ghost use Rattle.normalizer_tables.specs.Table.{code_points};
ghost use Rattle.normalizer_tables.specs.declared.condition.Condition.TheVariants as condition;
ghost use Rattle.normalizer_check.specs.inner.Walk.{AreUnasked, is_asked_of_words, IsEndOfEqualWords, IsMetBefore};
ghost use Rattle.normalizer_check.specs.inner.Walk.{IsPlaceOfFirstFailing};

use crate::check::met::{is_met_at, is_met_before};
use crate::loaded::LoadedData;
use crate::refusal::refusal_of;
use normalizer_tables::characters::{CODE_POINTS, CharacterData};
use normalizer_tables::condition::Condition;
use normalizer_tables::hangul::{N_COUNT, S_BASE, is_hangul_syllable};
use normalizer_tables::read::read_by_word;
use normalizer_tables::word::DISALLOWED_WORD;
use normalizer_tables::{DataError, DataMarkerInfo};

pub mod breaking;
mod lists;
mod met;
mod numbers;
mod overall;

/// Checks that loaded data meet these conditions; the decomposition data have the marker. It takes no memory.
///
/// # Errors
/// The error for the first condition that fails.
pub fn check(
    data: &LoadedData<'_>,
    data_marker: DataMarkerInfo,
    conditions: &[Condition],
) -> Result<(), DataError>
    ensures ok { IsOk result ↔ All (IsMet data.now) conditions.now }
    ensures err { IfErr result (RefusesFirstFailing data_marker data.now conditions.now) }
{
    match first_failing(data, conditions) {
        Some(condition) => Err(refusal_of(data_marker, condition)),
        None => Ok(()),
    }
}

/// Returns the first of these conditions that loaded data don't meet, if there is one. It takes no memory.
#[tactic(auto, unfolding(normalizer_tables::specs::Table::code_points))]
pub fn first_failing(data: &LoadedData<'_>, conditions: &[Condition]) -> Option<Condition>
    ensures { IsFirstFailing (IsMet data.now) conditions.now result }
{
    let mut failing = first_failing_before(data, conditions);
    let hangul_is_sound = asks_hangul(&conditions[..failing]);
    // Those before say nothing of each character.
    let asked = first_asked_of_words(conditions);
    let mut from = 0;
    while from < CODE_POINTS && asked < failing {
        let (number, word) = data.characters.next_with_word(from);
        failing = asked + first_failing_at(data, &conditions[asked..failing], number, word);
        from = end_of_equal_words(&data.characters, number, word, hangul_is_sound);
    }
    conditions.get(failing).copied()
}

/// Whether Hangul is among these conditions.
fn asks_hangul(conditions: &[Condition]) -> bool
    ensures { IsTrue result ↔ Contains conditions.now condition.Hangul }
{
    conditions
        .iter()
        .any(|&condition| condition == Condition::Hangul)
}

/// The place of the first condition that may say something of each character.
fn first_asked_of_words(conditions: &[Condition]) -> usize
    ensures { AreUnasked conditions.now result }
{
    conditions
        .iter()
        .position(|&condition| is_asked_of_words(condition))
        .unwrap_or(conditions.len())
}

/// Whether a condition may say something of each character: those below 7 say nothing.
#[tactic(auto, unfolding(crate::specs::inner::Walk::is_asked_of_words))]
fn is_asked_of_words(condition: Condition) -> bool
    ensures { result ≡ is_asked_of_words condition }
{
    condition.number() >= Condition::Words.number()
}

/// The end of the numbers for which it suffices to check this one. If Hangul is sound, that is all syllables after it
/// with the same leading consonant; if it is disallowed, all disallowed characters right after it. Surrogates are no
/// characters.
#[tactic(auto, unfolding(normalizer_tables::specs::Hangul::is_hangul_syllable, normalizer_tables::specs::Table::code_points))]
fn end_of_equal_words(
    data: &CharacterData<'_>,
    number: u32,
    word: u32,
    hangul_is_sound: bool,
) -> u32
    requires place { number ≤ code_points }
    requires word { word ≡ word_of data.now number }
    ensures { IsEndOfEqualWords data.now hangul_is_sound number result }
{
    if hangul_is_sound && is_hangul_syllable(number) {
        S_BASE + ((number - S_BASE) / N_COUNT + 1) * N_COUNT
    } else if 0xD800 <= number && number < 0xE000 {
        0xE000
    } else if word == DISALLOWED_WORD {
        end_of_disallowed(data, number)
    } else {
        number + 1
    }
}

/// The same of a number with the word of a disallowed character. Of a Hangul syllable the word says something else, and
/// U+FFFD doesn't map to another character.
#[tactic(auto, unfolding(normalizer_tables::specs::Table::code_points))]
fn end_of_disallowed(data: &CharacterData<'_>, number: u32) -> u32
    requires place { number ≤ code_points }
    requires word { word_of data.now number ≡ 0x4000FFFD }
    ensures { (hangul_is_sound : Bool) → IsEndOfEqualWords data.now hangul_is_sound number result }
{
    if 0xFFFD < number && number < CODE_POINTS {
        data.end_of_disallowed(number)
    } else if 0xE000 <= number && number < 0xFFFD {
        data.end_of_disallowed(number).min(0xFFFD)
    } else if number < S_BASE {
        data.end_of_disallowed(number).min(S_BASE)
    } else {
        number + 1
    }
}

/// The place of the first condition that fails before the walk over words.
fn first_failing_before(data: &LoadedData<'_>, conditions: &[Condition]) -> usize
    ensures { IsPlaceOfFirstFailing (IsMetBefore data.now) conditions.now result }
{
    conditions
        .iter()
        .position(|&condition| !is_met_before(data, condition))
        .unwrap_or(conditions.len())
}

/// The place of the first condition that fails of a number with this word, if a character has it.
fn first_failing_at(
    data: &LoadedData<'_>,
    conditions: &[Condition],
    number: u32,
    word: u32,
) -> usize
    requires { word ≡ word_of data.now.characters number }
    ensures { IsPlaceOfFirstFailing (λ c. IsScalar number → (says data.now c).of_each number) conditions.now result }
{
    let Some(character) = char::from_u32(number) else {
        return conditions.len();
    };
    // It is read here for all conditions.
    let read = read_by_word(&data.characters, character, word);
    conditions
        .iter()
        .position(|&condition| !is_met_at(data, condition, &read))
        .unwrap_or(conditions.len())
}
