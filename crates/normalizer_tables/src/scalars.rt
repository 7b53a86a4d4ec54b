//! Lists of characters that the words of a table point into.
ghost use Rattle.std.specs.Prelude.{◌≡◌, ◌↔◌, ℕ, [], List, length, IsTrue, nat_eq};
ghost use Rattle.std.specs.Cmp.{partial_equiv_from_equiv};
ghost use Rattle.std.specs.Cmp.Lexicographic.{pointwise};
ghost use Rattle.std.specs.List.{list_all};
ghost use Rattle.std.proofs.lemmas.Cmp.{nat_list_eq_equiv};
ghost use lib.Utf8.{scalar};

use std::alloc::{AllocError, Global};
use std::marker::Model;

/// A list of 16-bit numbers: in data that constructors accept, characters up to U+FFFF. It is made from a `Vec`, and
/// turned back into it, without allocating.
#[derive(Drop)]
pub struct Scalars16 {
    units: Vec<u16>,
    are_characters: bool,
}

impl Model for Scalars16 {
    ghost Value = { List ℕ };

    ghost view = { λ s. s.units.items };

    ghost invariant = { λ s. s.are_characters ≡ list_all scalar s.units.items };
}

impl Scalars16 {
    /// Returns the allocator of the list.
    pub fn allocator(&self) -> Global {
        *self.units.allocator()
    }

    /// Returns the numbers as a slice.
    pub fn as_slice(&self) -> &[u16]
        ensures { result.now ≡ self.now }
    {
        self.units.as_slice()
    }

    /// Returns how many numbers there are.
    pub fn len(&self) -> usize
        ensures { result ≡ length self.now }
    {
        self.units.len()
    }

    /// Returns whether there is no number.
    pub fn is_empty(&self) -> bool
        ensures { IsTrue result ↔ (self.now ≡ []) }
    {
        self.units.is_empty()
    }

    /// Whether all these numbers are those of characters. None is looked at.
    pub(crate) fn are_characters(&self) -> bool
        ensures { result ≡ list_all scalar self.now }
    {
        self.are_characters
    }
}

impl From<Vec<u16>> for Scalars16 {
    ghost from_gives = { λ v s. s ≡ v.items };

    fn from(units: Vec<u16>) -> Self {
        let are_characters = spell_characters(units.as_slice());
        Scalars16 {
            units,
            are_characters,
        }
    }
}

impl From<Scalars16> for Vec<u16> {
    ghost from_gives = { λ s v. v.items ≡ s };

    fn from(scalars: Scalars16) -> Self {
        let Scalars16 { units, .. } = scalars;
        units
    }
}

impl PartialEq for Scalars16 {
    ghost eq = { pointwise nat_eq };

    ghost laws = { partial_equiv_from_equiv nat_list_eq_equiv };

    fn eq(&self, other: &Self) -> bool {
        self.units == other.units
    }
}

impl Eq for Scalars16 {
    ghost laws = { nat_list_eq_equiv };
}

impl Clone for Scalars16 {
    ghost is_clone = { λ s t. t ≡ s };

    fn clone(&self) -> Result<Self, AllocError> {
        Ok(Scalars16 {
            units: self.units.clone()?,
            are_characters: self.are_characters,
        })
    }
}

/// Whether all these numbers are those of characters.
pub(crate) fn spell_characters(units: &[u16]) -> bool
    ensures { result ≡ list_all scalar units.now }
{
    units
        .iter()
        .all(|&unit| char::from_u32(unit as u32).is_some())
}

/// A list of characters. It is made from a `Vec`, and turned back into it, without allocating.
#[derive(Drop)]
pub struct Scalars24 {
    scalars: Vec<char>,
}

impl Model for Scalars24 {
    ghost Value = { List ℕ };

    ghost view = { λ s. s.scalars.items };
}

impl Scalars24 {
    /// Returns the characters as a slice.
    pub fn as_slice(&self) -> &[char]
        ensures { result.now ≡ self.now }
    {
        self.scalars.as_slice()
    }

    /// Returns how many characters there are.
    pub fn len(&self) -> usize
        ensures { result ≡ length self.now }
    {
        self.scalars.len()
    }

    /// Returns whether there isn't a character.
    pub fn is_empty(&self) -> bool
        ensures { IsTrue result ↔ (self.now ≡ []) }
    {
        self.scalars.is_empty()
    }
}

impl From<Vec<char>> for Scalars24 {
    ghost from_gives = { λ v s. s ≡ v.items };

    fn from(scalars: Vec<char>) -> Self {
        Scalars24 { scalars }
    }
}

impl From<Scalars24> for Vec<char> {
    ghost from_gives = { λ s v. v.items ≡ s };

    fn from(scalars: Scalars24) -> Self {
        let Scalars24 { scalars } = scalars;
        scalars
    }
}

impl PartialEq for Scalars24 {
    ghost eq = { pointwise nat_eq };

    ghost laws = { partial_equiv_from_equiv nat_list_eq_equiv };

    fn eq(&self, other: &Self) -> bool {
        self.scalars == other.scalars
    }
}

impl Eq for Scalars24 {
    ghost laws = { nat_list_eq_equiv };
}

impl Clone for Scalars24 {
    ghost is_clone = { λ s t. t ≡ s };

    fn clone(&self) -> Result<Self, AllocError> {
        Ok(Scalars24 {
            scalars: self.scalars.clone()?,
        })
    }
}
