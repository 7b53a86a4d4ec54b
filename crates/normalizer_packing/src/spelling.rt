//! How the word of a character spells its list.
#![tactic(auto, unfolding(crate::specs::Spelling::spelling, crate::specs::Spelling::spelling_or_ignored, crate::specs::Spelling::final_word, normalizer_tables::specs::conditions::Conditions::is_surrogate, crate::specs::Spelling::spelling_by_list, crate::specs::Spelling::has_fixed_list, crate::specs::Spelling::spelling_of_list, crate::specs::Spelling::spells_two, normalizer_tables::specs::Words::has_high_zeros, normalizer_tables::specs::Words::has_low_zeros))]

ghost use Rattle.std.specs.Prelude.{◌≡◌, option_copied};
ghost use Rattle.normalizer_tables.specs.Entries.{class_in};
ghost use Rattle.normalizer_packing.specs.Spelling.{HasRoomForFlags, final_word, has_fixed_list, have_classes};
ghost use Rattle.normalizer_packing.specs.Spelling.{spelling, spelling_by_list, spelling_of_list};
ghost use Rattle.normalizer_packing.specs.Spelling.{spelling_of_two};

use crate::entries::{Entries, class_of};
use normalizer_tables::hangul::is_hangul_syllable;
use normalizer_tables::members::fdfa_list;
use normalizer_tables::special::fixed_list_of;
use normalizer_tables::word::{HANGUL_WORD, IGNORED_MARKER};

/// The first line that fits.
#[derive(Clone, Copy, Debug, PartialEq, Eq)]
pub enum Spelling {
    /// The word, with its flags.
    Final(u32),
    /// The word, without its flags.
    Short(u32),
    /// The list is in a table.
    Listed,
}

/// How the word of a character spells its list. Without one the character is ignored.
pub fn spell(entries: &Entries<'_>, character: char, list: Option<&[char]>) -> Spelling
    ensures line { result ≡ spelling (class_in entries.now) character (option_copied list.entry) }
    ensures room { HasRoomForFlags result }
{
    if let Some(word) = final_word(character) {
        return Spelling::Final(word);
    }
    match list {
        Some(list) => spelling_by_list(entries, character, list),
        None => Spelling::Final(IGNORED_MARKER),
    }
}

/// The word, with its flags, of characters whose list no entry changes.
pub fn final_word(character: char) -> Option<u32>
    ensures { result ≡ final_word character }
{
    if is_hangul_syllable(character as u32) {
        Some(HANGUL_WORD)
    } else if character == '\u{FFFD}' {
        Some(0x4000_0000)
    } else {
        None
    }
}

fn spelling_by_list(entries: &Entries<'_>, character: char, list: &[char]) -> Spelling
    ensures line { result ≡ spelling_by_list (class_in entries.now) character list.now }
    ensures room { HasRoomForFlags result }
{
    if has_fixed_list(entries, character, list) {
        Spelling::Short(0xD900 + class_of(entries, character) as u32)
    } else if list == [character].as_slice() {
        let class = class_of(entries, character) as u32;
        Spelling::Short(if class == 0 { 0 } else { 0xD800 + class })
    } else {
        spelling_of_list(entries, character, list)
    }
}

/// Whether a character is one of the nine that have a fixed list, with that list and its classes.
fn has_fixed_list(entries: &Entries<'_>, character: char, list: &[char]) -> bool
    ensures { result ≡ has_fixed_list (class_in entries.now) character list.now }
{
    match fixed_list_of(character) {
        Some(fixed) => {
            fixed.list() == list
                && fixed.class() == class_of(entries, character)
                && have_classes(entries, fixed.member_classes(), list)
        }
        None => false,
    }
}

fn have_classes(entries: &Entries<'_>, classes: &[u8], list: &[char]) -> bool
    ensures { result ≡ have_classes (class_in entries.now) classes.now list.now }
{
    if classes.len() != list.len() {
        return false;
    }
    for place in 0..list.len() {
        if classes[place] != class_of(entries, list[place]) {
            return false;
        }
    }
    true
}

/// How a list is spelled that isn't the character alone.
fn spelling_of_list(entries: &Entries<'_>, character: char, list: &[char]) -> Spelling
    ensures line { result ≡ spelling_of_list (class_in entries.now) character list.now }
    ensures room { HasRoomForFlags result }
{
    match list {
        &[member] if member <= '\u{FFFF}' && member != '\u{1}' => Spelling::Short(member as u32),
        &[_] => Spelling::Listed,
        &[first, second] => spelling_of_two(entries, character, first, second),
        _ if list == fdfa_list() => Spelling::Short(1),
        _ => Spelling::Listed,
    }
}

/// How a list of two characters is spelled: in one word if both have 15 bits and it isn't another form of word.
fn spelling_of_two(entries: &Entries<'_>, character: char, first: char, second: char) -> Spelling
    ensures line { result ≡ spelling_of_two (class_in entries.now) character first second }
    ensures room { HasRoomForFlags result }
{
    if first >= '\u{8000}' || second >= '\u{8000}' {
        return Spelling::Listed;
    }
    let word = first as u32 + second as u32 * 0x8000;
    let is_mark = 0 < class_of(entries, second);
    if is_mark && character != '\u{212B}' && word & 0x3FFF_0000 != 0 && word & 0xFFE0 != 0 {
        Spelling::Short(word)
    } else {
        Spelling::Listed
    }
}
