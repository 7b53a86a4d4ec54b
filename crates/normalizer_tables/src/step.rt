//! One step of canonical decomposition.
ghost use Rattle.std.specs.Prelude.{◌≡◌, [], true, false};
ghost use Rattle.normalizer_tables.specs.Characters.{Characters, as_text, list_read};
ghost use Rattle.normalizer_tables.specs.Hangul.{is_hangul_syllable};
ghost use Rattle.normalizer_tables.specs.Read.{IsRead};
ghost use Rattle.normalizer_tables.specs.Steps.{
  listed_step,
  may_have_oxia,
  step_by,
  step_of,
  step_to,
  two_characters_step,
  supplementary_step,
};

use crate::characters::{CharacterData, items_at};
use crate::hangul::{S_BASE, T_BASE, T_COUNT, is_hangul_syllable};
use crate::members::Members;
use crate::provider::NonRecursiveDecompositionSupplement;
use crate::read::{ReadCharacter, read_character};
use crate::word::WordReading;

/// The result of one step of canonical decomposition.
#[derive(Clone, Copy, PartialEq, Eq, Debug)]
pub enum Step {
    /// The character has no canonical mapping.
    Default,
    /// It maps to one character.
    Singleton(char),
    /// It maps to two characters.
    Expansion(char, char),
}

/// Returns the canonical mapping of a character, or that it has none, if the words say which. It takes no memory.
#[tactic(auto, using(crate::proofs::syllables::SyllableJamo::jamo_are_text), unfolding(crate::specs::Steps::step_of, crate::specs::Steps::hangul_mapping, crate::specs::Steps::step_by, crate::specs::Hangul::is_hangul_syllable))]
pub fn step_of(
    data: &CharacterData<'_>,
    supplement: &NonRecursiveDecompositionSupplement,
    character: char,
) -> Option<Step>
    ensures { result ≡ step_of data.now supplement.now character }
{
    if is_hangul_syllable(character as u32) {
        // It maps by arithmetic (The Unicode Standard, section 3.12).
        let trailing = (character as u32 - S_BASE) % T_COUNT;
        let mapping = if trailing == 0 {
            Members::of_hangul_syllable(character)
        } else {
            Members::of_numbers(character as u32 - trailing, T_BASE + trailing)?
        };
        return step_to(&mapping);
    }
    step_by_reading(supplement, &read_character(data, character))
}

/// Returns the canonical mapping of a character that isn't a Hangul syllable.
#[tactic(auto, using(crate::proofs::words::ReadLemmas::readings), unfolding(crate::specs::Steps::step_of, crate::specs::Steps::step_of_reading, crate::specs::Steps::two_characters_step, crate::specs::Steps::step_by))]
pub fn step_by_reading(
    supplement: &NonRecursiveDecompositionSupplement,
    read: &ReadCharacter<'_>,
) -> Option<Step>
    requires { is_hangul_syllable read.now.character ≡ false }
    ensures { (s : Characters) → IsRead s read.now → result ≡ step_of s supplement.now read.now.character }
{
    match read.reading {
        WordReading::Itself | WordReading::ClassForm(_) => Some(Step::Default),
        WordReading::TwoCharacters(_, _) if may_have_oxia(read.character) => {
            supplementary_step(supplement, read.character)
        }
        WordReading::Listed(_, _, _) if read.reads => {
            listed_step(supplement, read.character, &read.list)
        }
        WordReading::TwoCharacters(_, _)
        | WordReading::SpecialForm(_)
        | WordReading::OneCharacter(_)
            if read.reads => step_to(&read.list),
        _ => None,
    }
}

/// Whether a character is in the part of the Greek block that has those with oxia.
#[tactic(auto, unfolding(crate::specs::Steps::may_have_oxia))]
fn may_have_oxia(character: char) -> bool
    ensures { result ≡ may_have_oxia character }
{
    '\u{1F71}' <= character && character <= '\u{1FFB}'
}

/// The step of a character whose list is in the tables.
#[tactic(auto, unfolding(crate::specs::Steps::listed_step))]
fn listed_step(
    supplement: &NonRecursiveDecompositionSupplement,
    character: char,
    list: &Members<'_>,
) -> Option<Step>
    ensures { result ≡ listed_step supplement.now character list.now }
{
    if character == '\u{212B}' {
        Some(Step::Singleton('\u{C5}'))
    } else if list.len() <= 2 {
        step_to(list)
    } else {
        supplementary_step(supplement, character)
    }
}

/// The step that the supplement decides, by the mapping that its word names.
#[tactic(auto, unfolding(crate::specs::Steps::supplementary_step, crate::specs::Steps::supplementary_mapping, crate::specs::Steps::step_by))]
fn supplementary_step(
    supplement: &NonRecursiveDecompositionSupplement,
    character: char,
) -> Option<Step>
    ensures { result ≡ supplementary_step supplement.now character }
{
    let word = supplement.table.get(character);
    let lead = word & 0xFFFF;
    let trail = word >> 16;
    let mapping = if lead != 0 && trail != 0 {
        Members::of_numbers(lead, trail)?
    } else if lead != 0 {
        Members::of_number(lead)?
    } else if trail != 0 {
        Members::of_scalars(items_at(supplement.scalars24.as_slice(), trail as usize - 1, 2)?)
    } else {
        return None;
    };
    step_to(&mapping)
}

/// Returns the step of a mapping to one character, or to two.
#[tactic(auto, unfolding(crate::specs::Steps::step_to))]
pub fn step_to(mapping: &Members<'_>) -> Option<Step>
    ensures { result ≡ step_to mapping.now }
{
    match mapping.len() {
        1 => Some(Step::Singleton(mapping.at(0))),
        2 => Some(Step::Expansion(mapping.at(0), mapping.at(1))),
        _ => None,
    }
}
