//! Entries, with how each of their lists is spelled.
#![tactic(auto, unfolding(crate::specs::inner::Spelled::spellings_of))]

ghost use Rattle.std.specs.Prelude.{◌≡◌, ◌<◌, IfOk, Some, length, slice_get};
ghost use Rattle.normalizer_tables.specs.Entries.{AreRising, class_in, list_in};
ghost use Rattle.normalizer_packing.specs.Spelling.{HasRoomForFlags, spelling};
ghost use Rattle.normalizer_packing.specs.inner.Spelled.{AreSpelled, HaveRoomForFlags, spelled_in, spellings_of};

use crate::entries::Entries;
use crate::spelling::{Spelling, spell};
use normalizer_tables::entry::{Entry, Kind};
use std::alloc::{AllocError, Global};
use std::marker::Model;

/// How the lists of an entry are spelled, in each kind of data.
#[derive(Clone, Copy)]
pub struct Spellings {
    canonical: Spelling,
    compatibility: Spelling,
    mapper: Spelling,
}

impl Spellings {
    fn new(entries: &Entries<'_>, entry: &Entry) -> Self
        ensures line { result ≡ spellings_of (class_in entries.now) entry.now }
        ensures room { HaveRoomForFlags result }
    {
        Spellings {
            canonical: spell(entries, entry.character, entry.list(Kind::Canonical)),
            compatibility: spell(entries, entry.character, entry.list(Kind::Compatibility)),
            mapper: spell(entries, entry.character, entry.list(Kind::Mapper)),
        }
    }

    /// Returns how the list in one kind of data is spelled.
    pub fn of(&self, kind: Kind) -> Spelling
        ensures { result ≡ spelled_in kind self.now }
    {
        match kind {
            Kind::Canonical => self.canonical,
            Kind::Compatibility => self.compatibility,
            Kind::Mapper => self.mapper,
        }
    }
}

/// Entries of different characters, in their order, with how each of their lists is spelled.
#[derive(Drop)]
pub struct SpelledEntries<'a> {
    entries: Entries<'a>,
    /// How the lists of each entry are spelled, at its place.
    spellings: Vec<Spellings>,
}

impl<'a> Model for SpelledEntries<'a> {
    ghost use Rattle.std.specs.Prelude.{List};
    ghost use Rattle.normalizer_tables.specs.Entries.{EntryValue};
    ghost use Rattle.normalizer_packing.specs.inner.Spelled.{AreSpelled};

    ghost Value = { List EntryValue };

    ghost view = { λ s. s.entries };

    ghost invariant = { λ s. AreSpelled s.entries s.spellings.items };
}

impl<'a> SpelledEntries<'a> {
    /// Spells the lists of entries that are sorted by character.
    ///
    /// # Errors
    /// [`AllocError`] if an allocation failed.
    pub fn new(alloc: Global, items: &'a [Entry]) -> Result<Self, AllocError>
        requires { AreRising items.now }
        ensures { IfOk result (λ s. s ≡ items.now) }
    {
        let entries = Entries::new(alloc, items)?;
        let spellings = all_spellings(alloc, &entries)?;
        Ok(SpelledEntries { entries, spellings })
    }

    /// Returns the entries by character.
    pub fn by_character(&self) -> &Entries<'a>
        ensures { result.now ≡ self.now }
    {
        &self.entries
    }

    /// Returns how many entries there are.
    pub fn len(&self) -> usize
        ensures { result ≡ length self.now }
    {
        self.spellings.len()
    }

    /// Returns the entry at a place, and how its lists are spelled.
    pub fn at(&self, place: usize) -> (&'a Entry, Spellings)
        requires { place < length self.now }
        ensures entry { slice_get self.now place ≡ Some result.0.now }
        ensures spellings { result.1 ≡ spellings_of (class_in self.now) result.0.now }
    {
        (&self.entries.as_slice()[place], self.spellings[place])
    }

    /// Returns how the list of a character in one kind of data is spelled.
    pub fn spelling(&self, kind: Kind, character: char) -> Spelling
        ensures line { result ≡ spelling (class_in self.now) character (list_in kind self.now character) }
        ensures room { HasRoomForFlags result }
    {
        match self.entries.position(character) {
            Some(place) => self.spellings[place].of(kind),
            None => spell(&self.entries, character, Some(&[character])),
        }
    }
}

/// The spellings of each entry, in their order.
fn all_spellings(alloc: Global, entries: &Entries<'_>) -> Result<Vec<Spellings>, AllocError>
    ensures { IfOk result (λ v. AreSpelled entries.now v.items) }
{
    let items = entries.as_slice();
    let mut spellings = Vec::with_capacity(alloc, items.len())?;
    for entry in items {
        spellings.push(Spellings::new(entries, entry))?;
    }
    Ok(spellings)
}
