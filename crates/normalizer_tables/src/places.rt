//! Items that are sorted by character, looked up by the place of each.
ghost use Rattle.std.specs.Prelude.{◌≡◌, ◌==◌, IfOk, find, map, option_copied, position};
ghost use Rattle.normalizer_tables.specs.Places.{AreRisingBy, ArePlaces, place_in};

use crate::blocks::Blocks;
use std::alloc::{AllocError, Global};
use std::marker::Model;

/// An item that says something of a character.
pub trait HasCharacter {
    ghost use Rattle.std.specs.Prelude.{ℕ};

    ghost character: { Self → ℕ };

    /// Returns the character.
    fn character(&self) -> char
        ensures { result ≡ character self.now };
}

/// Items of different characters, in their order.
#[derive(Drop)]
pub struct ByCharacter<'a, T: HasCharacter> {
    items: &'a [T],
    /// The place of each item by its character.
    places: Blocks,
}

impl<'a, T: HasCharacter> Model for ByCharacter<'a, T> {
    ghost use Rattle.std.specs.Prelude.{List, map};
    ghost use Rattle.normalizer_tables.specs.Places.{ArePlaces};

    ghost Value = { List T };

    ghost view = { λ b. b.items.now };

    ghost invariant = { λ b. ArePlaces (map T.character b.items.now) b.places };
}

impl<'a, T: HasCharacter> ByCharacter<'a, T> {
    /// Takes items that are sorted by character.
    ///
    /// # Errors
    /// [`AllocError`] if an allocation failed.
    pub fn new(alloc: Global, items: &'a [T]) -> Result<Self, AllocError>
        requires { AreRisingBy T.character items.now }
        ensures { IfOk result (λ b. b ≡ items.now) }
    {
        let places = places_of(alloc, items)?;
        Ok(ByCharacter { items, places })
    }

    /// Returns the items as a slice.
    pub fn as_slice(&self) -> &'a [T]
        ensures { result.now ≡ self.now }
    {
        self.items
    }

    /// Returns the place of the item of a character, if it has one.
    pub fn position(&self, c: char) -> Option<usize>
        ensures { result ≡ position (λ x. T.character x == c) self.now }
    {
        place_in(&self.places, c)
    }

    /// Returns the item of a character, if it has one.
    pub fn get(&self, c: char) -> Option<&'a T>
        ensures { option_copied result ≡ find (λ x. T.character x == c) self.now }
    {
        let place = self.position(c)?;
        self.items.get(place)
    }
}

/// The place of a character by such words, counted from 0.
#[tactic(auto, unfolding(crate::specs::Places::place_in, crate::specs::Table::code_points))]
fn place_in(places: &Blocks, c: char) -> Option<usize>
    ensures { result ≡ place_in places.now c }
{
    match places.word(c as u32) {
        0 => None,
        place => Some(place as usize - 1),
    }
}

/// The words that are the places of the characters of items, counted from 1. Every other code point has 0.
fn places_of<T: HasCharacter>(alloc: Global, items: &[T]) -> Result<Blocks, AllocError>
    requires { AreRisingBy T.character items.now }
    ensures { IfOk result (ArePlaces (map T.character items.now)) }
{
    let mut ranges = Vec::with_capacity(alloc, items.len())?;
    let mut place = 0;
    for item in items {
        let number = item.character() as u32;
        place += 1;
        ranges.push((number, number, place))?;
    }
    Blocks::from_ranges(alloc, &ranges)
}

/// Returns the characters of items, in a list with room for so many more.
///
/// # Errors
/// [`AllocError`] if an allocation failed.
pub fn characters_of<T: HasCharacter>(
    alloc: Global,
    items: &[T],
    room: usize,
) -> Result<Vec<char>, AllocError>
    ensures { IfOk result (λ v. v.items ≡ map T.character items.now) }
{
    // (`collect` would try again after a failed growth)
    let mut characters = Vec::with_capacity(alloc, items.len().saturating_add(room))?;
    for item in items {
        characters.push(item.character())?;
    }
    Ok(characters)
}
