//! What the conditions say of single words and lists.
ghost use Rattle.std.specs.Prelude.{◌≡◌, ◌↔◌, ◌<◌, ℕ, [], Some, true, false, IsTrue, All};
ghost use Rattle.std.specs.Int.{is_in_range};
ghost use Rattle.normalizer_tables.specs.Characters.{Characters, list_of, word_of};
ghost use Rattle.normalizer_tables.specs.conditions.CharacterConditions.{
  IsPlainStarter,
  IsSoundClass,
  IsSoundHangul,
  IsSoundWord,
  ReadsToItself,
  is_composing_jamo,
  is_surrogate,
};
ghost use Rattle.normalizer_tables.specs.Words.{is_class_form};
ghost use Rattle.normalizer_tables.specs.Read.{IsRead};

use crate::pair_check::results::is_spelled;
use normalizer_tables::characters::CharacterData;
use normalizer_tables::read::{ReadCharacter, read_by_word, read_character};
use normalizer_tables::special::fixed_list_of;
use normalizer_tables::word::{
    IGNORED_MARKER, SURROGATE_WORD, class_of_word, is_backward_combining, is_class_form,
    is_ordinary_class_form, is_plain, is_special_class_form, low_byte,
};

/// Whether all numbers from one to another have this word.
fn have_word(data: &CharacterData<'_>, first: u32, last: u32, word: u32) -> bool
    ensures { IsTrue result ↔ ((n : ℕ) → is_in_range first last n ≡ true → word_of data.now n ≡ word) }
{
    for number in first..=last {
        if data.word_of_number(number) != word {
            return false;
        }
    }
    true
}

/// Whether all surrogates have their word.
#[tactic(auto, unfolding(normalizer_tables::specs::conditions::CharacterConditions::is_surrogate))]
pub fn have_surrogate_words(data: &CharacterData<'_>) -> bool
    ensures { IsTrue result ↔ ((n : ℕ) → is_surrogate n ≡ true → word_of data.now n ≡ 0xC000FFFD) }
{
    have_word(data, 0xD800, 0xDFFF, SURROGATE_WORD)
}

/// Whether no surrogate has a class form.
#[tactic(auto, unfolding(normalizer_tables::specs::conditions::CharacterConditions::is_surrogate))]
pub fn have_no_surrogate_classes(data: &CharacterData<'_>) -> bool
    ensures { IsTrue result ↔ ((n : ℕ) → is_surrogate n ≡ true → is_class_form (word_of data.now n) ≡ false) }
{
    for surrogate in 0xD800..0xE000 {
        if is_class_form(data.word_of_number(surrogate)) {
            return false;
        }
    }
    true
}

/// Whether all Hangul syllables have the word 1, and all jamo of one read to themselves with class 0. The lists of
/// syllables need no look.
#[tactic(auto, unfolding(normalizer_tables::specs::conditions::CharacterConditions::is_composing_jamo))]
pub fn have_sound_hangul(data: &CharacterData<'_>) -> bool
    ensures { IsTrue result ↔ ((n : ℕ) → IsSoundHangul data.now n) }
{
    for jamo in 0x1100..0x11C3 {
        if !is_sound_jamo(data, jamo) {
            return false;
        }
    }
    have_word(data, 0xAC00, 0xD7A3, 1)
}

/// Whether a number is that of no jamo of a syllable, or of one that reads to itself with class 0.
#[tactic(auto, unfolding(normalizer_tables::specs::conditions::CharacterConditions::is_composing_jamo))]
fn is_sound_jamo(data: &CharacterData<'_>, number: u32) -> bool
    ensures { IsTrue result ↔ (is_composing_jamo number ≡ true → IsPlainStarter data.now number) }
{
    match char::from_u32(number) {
        Some(character) => {
            !is_composing_jamo(character) || is_plain_starter(&read_character(data, character))
        }
        None => true,
    }
}

/// Whether a character takes part in Hangul syllables as one of their jamo.
#[tactic(auto, unfolding(normalizer_tables::specs::conditions::CharacterConditions::is_composing_jamo))]
fn is_composing_jamo(character: char) -> bool
    ensures { result ≡ is_composing_jamo character }
{
    matches!(character, '\u{1100}'..='\u{1112}' | '\u{1161}'..='\u{1175}' | '\u{11A8}'..='\u{11C2}')
}

/// Whether a character reads to itself with class 0.
#[tactic(auto, using(normalizer_tables::proofs::words::ReadLemmas::readings), unfolding(normalizer_tables::specs::conditions::CharacterConditions::IsPlainStarter, normalizer_tables::specs::conditions::CharacterConditions::ReadsToItself))]
pub fn is_plain_starter(read: &ReadCharacter<'_>) -> bool
    ensures { (s : Characters) → IsRead s read.now → IsTrue result ↔ IsPlainStarter s read.now.character }
{
    reads_to_itself(read) && class_of_word(read.word) == 0
}

/// Whether the word of a character reads, and to the character alone.
#[tactic(auto, using(normalizer_tables::proofs::words::ReadLemmas::readings), unfolding(normalizer_tables::specs::conditions::CharacterConditions::ReadsToItself))]
fn reads_to_itself(read: &ReadCharacter<'_>) -> bool
    ensures { (s : Characters) → IsRead s read.now → IsTrue result ↔ ReadsToItself s read.now.character }
{
    read.reads && is_spelled(&read.list, &[read.character])
}

/// Whether the word of a character reads, and keeps the rules of its form.
pub fn is_sound_word(data: &CharacterData<'_>, read: &ReadCharacter<'_>) -> bool
    requires { IsRead data.now read.now }
    ensures { IsTrue result ↔ IsSoundWord data.now read.now.character }
{
    read.reads
        && is_sound_class(read.character, read.word)
        && (!is_class_form(read.word) || is_backward_combining(read.word))
        && (data.is_mapper() || read.word != IGNORED_MARKER)
}

/// Whether a word isn't a class form, or has a class that its character may have.
#[tactic(auto, using(normalizer_tables::proofs::conditions::ConditionLemmas::one_class_form))]
pub fn is_sound_class(character: char, word: u32) -> bool
    ensures { IsTrue result ↔ IsSoundClass character word }
{
    if is_ordinary_class_form(word) {
        let class = low_byte(word);
        0 < class && class < 255
    } else {
        !is_special_class_form(word)
            || fixed_list_of(character).is_some_and(|fixed| fixed.class() == low_byte(word))
    }
}

/// Whether every member of the list of a character reads to itself.
#[tactic(auto, using(normalizer_tables::proofs::conditions::ConditionLemmas::itself_reads_in_full))]
pub fn reads_in_full(data: &CharacterData<'_>, read: &ReadCharacter<'_>) -> bool
    requires { IsRead data.now read.now }
    ensures { IsTrue result ↔ All (ReadsToItself data.now) (list_of data.now [] read.now.character) }
{
    // The only member of its own list was read.
    if reads_to_itself(read) {
        return true;
    }
    for place in 0..read.list.len() {
        if !member_reads_to_itself(data, read.list.at(place)) {
            return false;
        }
    }
    true
}

/// Whether a member of a list reads to itself. Most have a word that is 0, flags aside.
#[tactic(auto, using(normalizer_tables::proofs::conditions::ConditionLemmas::plain_words), unfolding(normalizer_tables::specs::conditions::CharacterConditions::ReadsToItself))]
fn member_reads_to_itself(data: &CharacterData<'_>, member: char) -> bool
    ensures { IsTrue result ↔ ReadsToItself data.now member }
{
    let word = data.word_of(member);
    is_plain(word) || reads_to_itself(&read_by_word(data, member, word))
}
