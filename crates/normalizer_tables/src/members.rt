//! The list of a character, walked without taking memory.
ghost use Rattle.std.specs.Prelude.{◌≡◌, ◌↔◌, ◌<◌, ℕ, List, [], ◌∷◌, Some, IsTrue, All};
ghost use Rattle.std.specs.Prelude.{length, slice_get, true};
ghost use lib.Utf8.{scalar};
ghost use Rattle.std.specs.Char.{IsScalar};
ghost use Rattle.std.specs.List.{list_all};
ghost use Rattle.normalizer_tables.specs.Characters.{as_text};
ghost use Rattle.normalizer_tables.specs.Hangul.{hangul_decomposition, is_hangul_syllable};
ghost use Rattle.normalizer_tables.specs.SpecialLists.{fdfa_list};
ghost use Rattle.normalizer_tables.specs.inner.Members.{members_of, spells_characters};

use crate::hangul::decompose_hangul;
use crate::scalars::spell_characters;
use crate::short_list::ShortList;
use std::marker::Model;

/// A list of characters: a borrowed one, or a short one. It takes no memory.
#[derive(Drop)]
pub struct Members<'a> {
    shape: Shape<'a>,
}

/// How the list is stored.
#[derive(Clone, Copy)]
enum Shape<'a> {
    Empty,
    One(char),
    Two(char, char),
    Three(char, char, char),
    Narrow(&'a [u16]),
    Wide(&'a [char]),
}

impl<'a> Model for Members<'a> {
    ghost Value = { List ℕ };

    ghost view = { λ m. members_of m.shape };

    ghost invariant = { λ m. spells_characters m.shape ≡ true };
}

static FDFA: [char; 18] = [
    '\u{635}', '\u{644}', '\u{649}', '\u{20}', '\u{627}', '\u{644}', '\u{644}', '\u{647}',
    '\u{20}', '\u{639}', '\u{644}', '\u{64A}', '\u{647}', '\u{20}', '\u{648}', '\u{633}',
    '\u{644}', '\u{645}',
];

impl<'a> Members<'a> {
    /// Returns how many members there are.
    #[inline(always)]
    pub fn len(&self) -> usize
        ensures { result ≡ length self.now }
    {
        match self.shape {
            Shape::Empty => 0,
            Shape::One(_) => 1,
            Shape::Two(_, _) => 2,
            Shape::Three(_, _, _) => 3,
            Shape::Narrow(units) => units.len(),
            Shape::Wide(scalars) => scalars.len(),
        }
    }

    /// Returns whether there is no member.
    pub fn is_empty(&self) -> bool
        ensures { IsTrue result ↔ (self.now ≡ []) }
    {
        self.len() == 0
    }

    /// Returns the member at this place, counted from 0.
    #[inline(always)]
    pub fn get(&self, place: usize) -> Option<char>
        ensures { result ≡ slice_get self.now place }
    {
        match self.shape {
            Shape::Empty => None,
            Shape::One(a) => [a].get(place).copied(),
            Shape::Two(a, b) => [a, b].get(place).copied(),
            Shape::Three(a, b, c) => [a, b, c].get(place).copied(),
            Shape::Narrow(units) => character_at(units, place),
            Shape::Wide(scalars) => scalars.get(place).copied(),
        }
    }

    /// Returns the member at a place before the end.
    #[inline(always)]
    pub fn at(&self, place: usize) -> char
        requires { place < length self.now }
        ensures { slice_get self.now place ≡ Some result }
    {
        self.get(place).unwrap()
    }

    /// Returns the list of no member.
    pub fn empty() -> Self
        ensures { result ≡ [] }
    {
        Members {
            shape: Shape::Empty,
        }
    }

    /// Returns the list of one member.
    #[inline(always)]
    pub fn one(a: char) -> Self
        ensures { result ≡ a ∷ [] }
    {
        Members {
            shape: Shape::One(a),
        }
    }

    #[inline(always)]
    pub(crate) fn two(a: char, b: char) -> Self
        ensures { result ≡ a ∷ b ∷ [] }
    {
        Members {
            shape: Shape::Two(a, b),
        }
    }

    /// The one character of this number.
    #[tactic(auto, unfolding(crate::specs::Characters::as_text))]
    #[inline(always)]
    pub(crate) fn of_number(a: u32) -> Option<Self>
        ensures { result ≡ as_text (a ∷ []) }
    {
        Some(Members::one(char::from_u32(a)?))
    }

    /// The two characters of these numbers.
    #[tactic(auto, unfolding(crate::specs::Characters::as_text))]
    #[inline(always)]
    pub(crate) fn of_numbers(a: u32, b: u32) -> Option<Self>
        ensures { result ≡ as_text (a ∷ b ∷ []) }
    {
        Some(Members::two(char::from_u32(a)?, char::from_u32(b)?))
    }

    /// Characters up to U+FFFF, if these numbers are all those of characters.
    #[tactic(auto, unfolding(crate::specs::Characters::as_text))]
    pub(crate) fn of_units(units: &'a [u16]) -> Option<Self>
        ensures { result ≡ as_text units.now }
    {
        if spell_characters(units) {
            Some(Members::of_characters(units))
        } else {
            None
        }
    }

    /// Characters up to U+FFFF.
    #[inline(always)]
    pub(crate) fn of_characters(units: &'a [u16]) -> Self
        requires { list_all scalar units.now ≡ true }
        ensures { result ≡ units.now }
    {
        Members {
            shape: Shape::Narrow(units),
        }
    }

    /// Returns the list of these members.
    #[inline(always)]
    pub fn of_scalars(scalars: &'a [char]) -> Self
        ensures { result ≡ scalars.now }
    {
        Members {
            shape: Shape::Wide(scalars),
        }
    }

    /// Returns the jamo of a Hangul syllable (The Unicode Standard, section 3.12).
    #[tactic(auto, unfolding(crate::specs::ShortLists::text_of))]
    #[inline(always)]
    pub fn of_hangul_syllable(syllable: char) -> Self
        requires { is_hangul_syllable syllable ≡ true }
        ensures { result ≡ hangul_decomposition syllable }
    {
        let shape = match decompose_hangul(syllable) {
            ShortList::One(a) => Shape::One(a),
            ShortList::Two(a, b) => Shape::Two(a, b),
            ShortList::Three(a, b, c) => Shape::Three(a, b, c),
        };
        Members { shape }
    }

    /// The fixed list of U+FDFA.
    pub fn of_fdfa() -> Self
        ensures { result ≡ fdfa_list }
    {
        Members::of_scalars(fdfa_list())
    }
}

/// The list of U+FDFA ARABIC LIGATURE SALLALLAHOU ALAYHE WASALLAM.
#[tactic(auto, unfolding(crate::specs::SpecialLists::fdfa_list))]
pub fn fdfa_list() -> &'static [char]
    ensures { result.now ≡ fdfa_list }
{
    &FDFA
}

/// The character at a place among numbers of characters.
#[inline(always)]
fn character_at(units: &[u16], place: usize) -> Option<char>
    requires { All IsScalar units.now }
    ensures { result ≡ slice_get units.now place }
{
    char::from_u32(*units.get(place)? as u32)
}
