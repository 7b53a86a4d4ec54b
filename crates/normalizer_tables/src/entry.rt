//! What is packed.
ghost use Rattle.std.specs.Prelude.{◌≡◌, List, ℕ, option_copied, IfOk};
ghost use Rattle.normalizer_tables.specs.Entries.{own_list};
ghost use Rattle.normalizer_tables.specs.MapperLists.{entry_with, mapped_in};
ghost use Rattle.normalizer_tables.specs.MapperSources.{mapped_from};

use crate::places::HasCharacter;
use crate::step::Step;
use std::alloc::AllocError;
use std::marker::Model;

/// The three kinds of decomposition data.
#[derive(Clone, Copy, Debug, PartialEq, Eq)]
pub enum Kind {
    /// Canonical decompositions.
    Canonical,
    /// Compatibility decompositions.
    Compatibility,
    /// The mapper's (UTS #46, section 4).
    Mapper,
}

/// The list of a character in the mapper's data.
#[derive(Drop)]
pub enum MapperList {
    /// The canonical list.
    Canonical,
    /// None: the mapper ignores the character.
    Ignored,
    /// A list of its own.
    Own(Vec<char>),
}

/// Where an entry has its list in the mapper's data.
#[derive(Clone, Copy)]
enum MapperSource {
    /// It is the canonical list.
    Canonical,
    /// There is none.
    Ignored,
    /// It is after the other lists.
    Own,
}

/// A character, its canonical combining class, its full decomposition in each kind of data, and its recorded canonical
/// mapping.
#[derive(Drop)]
pub struct Entry {
    /// The character.
    pub character: char,
    /// Its canonical combining class.
    pub class: u8,
    /// Which list it has in the mapper's data. (Here it takes no room of its own.)
    mapper: MapperSource,
    /// Its recorded canonical mapping, before it is replaced further.
    pub mapping: Step,
    /// Its lists in canonical and compatibility data, and the mapper's own, one after another.
    members: Vec<char>,
    /// Where the first of them ends.
    canonical_end: usize,
    /// Where the second ends.
    compatibility_end: usize,
}

impl Model for Entry {
    ghost use Rattle.std.specs.Prelude.{◌≤◌, drop, length, take};
    ghost use Rattle.normalizer_tables.specs.Entries.{EntryValue};
    ghost use Rattle.normalizer_tables.specs.MapperSources.{mapped_from};

    ghost Value = { EntryValue };

    ghost view = { λ e. record {
      character = e.character;
      class = e.class;
      canonical = take e.canonical_end e.members.items;
      compatibility = drop e.canonical_end (take e.compatibility_end e.members.items);
      mapper = mapped_from (take e.canonical_end e.members.items) (drop e.compatibility_end e.members.items) e.mapper;
      mapping = e.mapping;
    } };

    ghost invariant = { λ e. (e.canonical_end ≤ e.compatibility_end) × (e.compatibility_end ≤ length e.members.items) };
}

impl HasCharacter for Entry {
    ghost character = { λ e. e.character };

    fn character(&self) -> char {
        self.character
    }
}

impl Entry {
    /// Makes the entry of a character of its class, its recorded canonical mapping, and its lists.
    ///
    /// # Errors
    /// [`AllocError`] if an allocation failed.
    pub fn new(
        character: char,
        class: u8,
        mapping: Step,
        canonical: Vec<char>,
        compatibility: &[char],
        mapper: MapperList,
    ) -> Result<Entry, AllocError>
        ensures { IfOk result (λ e. e ≡ entry_with character class mapping canonical.items compatibility.now mapper) }
    {
        let (source, own) = source_of(&mapper);
        let canonical_end = canonical.len();
        let mut members = canonical;
        members.reserve_exact(compatibility.len() + own.len())?;
        members.extend_from_slice(compatibility)?;
        let compatibility_end = members.len();
        members.extend_from_slice(own)?;
        Ok(Entry {
            character,
            class,
            mapper: source,
            mapping,
            members,
            canonical_end,
            compatibility_end,
        })
    }

    /// Returns the list in canonical data.
    pub fn canonical(&self) -> &[char]
        ensures { result.now ≡ self.now.canonical }
    {
        &self.members[..self.canonical_end]
    }

    /// Returns the list in compatibility data.
    pub fn compatibility(&self) -> &[char]
        ensures { result.now ≡ self.now.compatibility }
    {
        &self.members[self.canonical_end..self.compatibility_end]
    }

    /// Returns the list in the mapper's data, `None` if the mapper ignores the character.
    pub fn mapped(&self) -> Option<&[char]>
        ensures { option_copied result ≡ self.now.mapper }
    {
        match self.mapper {
            MapperSource::Canonical => Some(self.canonical()),
            MapperSource::Ignored => None,
            MapperSource::Own => Some(&self.members[self.compatibility_end..]),
        }
    }

    /// Returns the full decomposition in one kind of data, `None` if the mapper ignores the character.
    pub fn list(&self, kind: Kind) -> Option<&[char]>
        ensures { option_copied result ≡ own_list kind self.now }
    {
        match kind {
            Kind::Canonical => Some(self.canonical()),
            Kind::Compatibility => Some(self.compatibility()),
            Kind::Mapper => self.mapped(),
        }
    }
}

/// Where an entry has this list of the mapper's, and what is to be after its other lists.
fn source_of(mapper: &MapperList) -> (MapperSource, &[char])
    ensures { (canonical : List ℕ) → mapped_from canonical result.1.now result.0 ≡ mapped_in canonical mapper.now }
{
    match mapper {
        MapperList::Canonical => (MapperSource::Canonical, &[]),
        MapperList::Ignored => (MapperSource::Ignored, &[]),
        MapperList::Own(list) => (MapperSource::Own, list.as_slice()),
    }
}
