//! The conditions on canonical data and the supplement, by which characters are decomposed one step.
ghost use Rattle.std.specs.Prelude.{◌≡◌, ◌≢◌, ◌↔◌, [], Bool, IsTrue};
ghost use Rattle.normal_forms.specs.Order.{order};
ghost use Rattle.normalizer_tables.specs.Characters.{list_of};
ghost use Rattle.normalizer_tables.specs.conditions.StepConditions.{HasSoundStep, IsSoundStep};
ghost use Rattle.normalizer_tables.specs.Words.{read};
ghost use Rattle.normalizer_tables.specs.Read.{IsRead};
ghost use Rattle.normalizer_tables.specs.Readings.{reading_by};
ghost use Rattle.normalizer_tables.specs.declared.characters.IgnoredCharacters.TheVariants.{Dropped};
ghost use Rattle.normalizer_tables.specs.declared.word.WordReading.TheVariants.{Fdfa};

use crate::pair_check::results::{is_ordered_lists, is_spelled, put_in_order, write};
use normalizer_tables::NonRecursiveDecompositionSupplement;
use normalizer_tables::characters::{CharacterData, IgnoredCharacters};
use normalizer_tables::hangul::is_hangul_syllable;
use normalizer_tables::members::Members;
use normalizer_tables::read::ReadCharacter;
use normalizer_tables::step::{Step, step_by_reading};

/// Room for a list, of at most 18 characters.
const ROOM: usize = 18;

/// Whether the word of a number, flags aside, has not the form of U+FDFA: that of a Hangul syllable never has.
#[tactic(auto, using(crate::proofs::words::FdfaWords::syllable_avoids, crate::proofs::words::FdfaWords::other_avoids))]
pub(crate) fn avoids_fdfa(number: u32, word: u32) -> bool
    ensures { (is_mapper : Bool) → IsTrue result ↔ (read number word is_mapper ≢ Fdfa) }
{
    is_hangul_syllable(number) || word & 0x3FFF_FFFF != 1
}

/// Whether a character has a sound step unless it is a Hangul syllable.
#[tactic(auto, unfolding(normalizer_tables::specs::conditions::StepConditions::HasSoundStep))]
pub(crate) fn has_sound_step(
    data: &CharacterData<'_>,
    supplement: &NonRecursiveDecompositionSupplement,
    read: &ReadCharacter<'_>,
) -> bool
    requires { IsRead data.now read.now }
    ensures { IsTrue result ↔ HasSoundStep data.now supplement.now read.now.character }
{
    if is_hangul_syllable(read.character as u32) {
        return true;
    }
    match step_by_reading(supplement, read) {
        Some(step) => is_sound_step(data, read, step),
        None => false,
    }
}

/// Whether a step of a character is `Default` if and only if the list is the character alone, and else the list is the
/// ordered lists of its parts.
#[tactic(auto, unfolding(normalizer_tables::specs::conditions::StepConditions::IsSoundStep, normalizer_tables::specs::conditions::StepConditions::IsInOrder))]
fn is_sound_step(data: &CharacterData<'_>, read: &ReadCharacter<'_>, step: Step) -> bool
    requires { IsRead data.now read.now }
    ensures { IsTrue result ↔ IsSoundStep data.now read.now.character step }
{
    let is_alone = is_spelled(&read.list, &[read.character]);
    match step {
        Step::Default => is_alone,
        Step::Singleton(a) => !is_alone && has_ordered_list(data, &read.list, a),
        Step::Expansion(a, b) => !is_alone && is_ordered_lists(data, &read.list, a, b),
    }
}

/// Whether a list is that of a character put in order.
#[tactic(auto, using(crate::proofs::composites::PairConditionLemmas::ordered_lists))]
fn has_ordered_list(data: &CharacterData<'_>, list: &Members<'_>, character: char) -> bool
    ensures { IsTrue result ↔ (list.now ≡ order (reading_by data.now Dropped []) (list_of data.now [] character)) }
{
    let of_character = data.members(character, IgnoredCharacters::Dropped);
    let mut room = ['\0'; ROOM];
    let ordered = &mut room[..of_character.len()];
    write(&of_character, ordered);
    put_in_order(data, ordered);
    is_spelled(list, ordered)
}
