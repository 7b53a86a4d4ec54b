//! The readings of the 32-bit words of decomposition data.
ghost use Rattle.std.specs.Prelude.{◌≡◌};
ghost use Rattle.normalizer_tables.specs.Words.{
  class_of_word,
  has_high_zeros,
  has_low_zeros,
  is_backward_combining,
  is_class_form,
  is_non_round_trip,
  is_ordinary_class_form,
  is_plain,
  is_special_class_form,
  low_byte,
  read,
};

use crate::hangul::is_hangul_syllable;

/// The word of a character that the mapper ignores (UTS #46, section 4).
pub const IGNORED_MARKER: u32 = 0xFFFF_FFFF;

/// The word of a surrogate, with its flags.
pub const SURROGATE_WORD: u32 = 0xC000_FFFD;

/// The word of a character that the mapper disallows: U+FFFD, with NON_ROUND_TRIP.
pub const DISALLOWED_WORD: u32 = 0x4000_FFFD;

/// The word of a Hangul syllable.
pub const HANGUL_WORD: u32 = 1;

/// NON_ROUND_TRIP and BACKWARD_COMBINING.
pub(crate) const FLAGS: u32 = 0xC000_0000;

/// The reading of a word: what it says of its character.
#[derive(Clone, Copy, PartialEq, Eq, Debug)]
pub enum WordReading {
    /// The mapper ignores the character.
    Ignored,
    /// The character itself, a starter.
    Itself,
    /// The character itself, with this class.
    ClassForm(u8),
    /// The fixed list of the character, with this class.
    SpecialForm(u8),
    /// Two characters.
    TwoCharacters(u16, u16),
    /// The jamo of a Hangul syllable, by arithmetic.
    HangulSyllable,
    /// The fixed list of U+FDFA.
    Fdfa,
    /// One character up to U+FFFF.
    OneCharacter(u16),
    /// A list in the tables: its first item, the low bits of its length, and whether all members after the first are
    /// promised as marks.
    Listed(u32, u8, bool),
}

/// Returns the reading of the word of a character, in the mapper's data or in others.
#[tactic(auto, using(crate::proofs::words::WordLemmas::item_above_zero), unfolding(crate::specs::Words::read, crate::specs::Words::two_characters, crate::specs::Words::listed_reading, crate::specs::Words::read_low))]
#[inline(always)]
pub fn read(character: char, word: u32, is_mapper: bool) -> WordReading
    ensures { result ≡ read character word is_mapper }
{
    if is_mapper && word == IGNORED_MARKER {
        WordReading::Ignored
    } else if is_plain(word) {
        WordReading::Itself
    } else if is_ordinary_class_form(word) {
        WordReading::ClassForm(low_byte(word))
    } else if is_special_class_form(word) {
        WordReading::SpecialForm(low_byte(word))
    } else if !has_high_zeros(word) && !has_low_zeros(word) {
        WordReading::TwoCharacters((word & 0x7FFF) as u16, ((word >> 15) & 0x7FFF) as u16)
    } else if !has_high_zeros(word) {
        // It points into the tables.
        let first = ((word & 0x3FFF_FFFF) >> 16) - 1;
        WordReading::Listed(first, (word & 0xF) as u8, word & 0x10 != 0)
    } else if is_hangul_syllable(character as u32) {
        WordReading::HangulSyllable
    } else if word & 0xFFFF == 1 {
        WordReading::Fdfa
    } else {
        WordReading::OneCharacter((word & 0xFFFF) as u16)
    }
}

/// Returns the class in a word: the low byte of a class form, otherwise 0.
#[tactic(auto, unfolding(crate::specs::Words::class_of_word))]
#[inline(always)]
pub fn class_of_word(word: u32) -> u8
    ensures { result ≡ class_of_word word }
{
    if is_class_form(word) {
        low_byte(word)
    } else {
        0
    }
}

/// Returns whether a word has one of the two class forms.
#[tactic(auto, unfolding(crate::specs::Words::is_class_form))]
#[inline(always)]
pub fn is_class_form(word: u32) -> bool
    ensures { result ≡ is_class_form word }
{
    is_ordinary_class_form(word) || is_special_class_form(word)
}

/// Returns whether a word has the ordinary class form: the character itself, with the class of the low byte.
#[tactic(auto, unfolding(crate::specs::Words::is_ordinary_class_form))]
#[inline(always)]
pub fn is_ordinary_class_form(word: u32) -> bool
    ensures { result ≡ is_ordinary_class_form word }
{
    word & 0x3FFF_FF00 == 0xD800
}

/// Returns whether a word has the special class form: the fixed list of the character, with the class of the low byte.
#[tactic(auto, unfolding(crate::specs::Words::is_special_class_form))]
#[inline(always)]
pub fn is_special_class_form(word: u32) -> bool
    ensures { result ≡ is_special_class_form word }
{
    word & 0x3FFF_FF00 == 0xD900
}

/// Returns whether bit 30, NON_ROUND_TRIP, is set: the list doesn't compose to the character alone.
#[tactic(auto, unfolding(crate::specs::Words::is_non_round_trip))]
#[inline(always)]
pub fn is_non_round_trip(word: u32) -> bool
    ensures { result ≡ is_non_round_trip word }
{
    word & 0x4000_0000 != 0
}

/// Returns whether bit 31, BACKWARD_COMBINING, is set: the list begins with a mark or with the second of a pair.
#[tactic(auto, unfolding(crate::specs::Words::is_backward_combining))]
#[inline(always)]
pub fn is_backward_combining(word: u32) -> bool
    ensures { result ≡ is_backward_combining word }
{
    word & 0x8000_0000 != 0
}

/// Returns whether a word reads as the character itself with class 0, whatever its flags.
#[tactic(auto, unfolding(crate::specs::Words::is_plain))]
#[inline(always)]
pub fn is_plain(word: u32) -> bool
    ensures { result ≡ is_plain word }
{
    word & 0x3FFF_FFFF == 0
}

#[tactic(auto, unfolding(crate::specs::Words::has_high_zeros))]
#[inline(always)]
fn has_high_zeros(word: u32) -> bool
    ensures { result ≡ has_high_zeros word }
{
    word & 0x3FFF_0000 == 0
}

#[tactic(auto, unfolding(crate::specs::Words::has_low_zeros))]
#[inline(always)]
fn has_low_zeros(word: u32) -> bool
    ensures { result ≡ has_low_zeros word }
{
    word & 0xFFE0 == 0
}

/// Returns the low byte of a word, the class of a class form.
#[tactic(auto, unfolding(crate::specs::Words::low_byte))]
#[inline(always)]
pub fn low_byte(word: u32) -> u8
    ensures { result ≡ low_byte word }
{
    (word & 0xFF) as u8
}
