//! Tables of the lists that no word spells.
#![tactic(auto, using(crate::proofs::lists::ListPlaces::place_within, crate::proofs::lists::StoreLemmas::narrow_member), unfolding(crate::specs::inner::Stores::stored_place, crate::specs::Stored::items_of, crate::specs::Stored::is_among, crate::specs::Stored::item_at, crate::specs::Stored::is_narrow, crate::specs::Stored::listed_of))]

ghost use Rattle.std.specs.Prelude.{◌≡◌, ℕ, ◌++◌, nat_le, [], ◌∷◌, true, OnOk, IfOk, length, option_copied};
ghost use Rattle.std.specs.List.{list_all};
ghost use Rattle.normalizer_tables.specs.conditions.Conditions.{item_count};
ghost use Rattle.normalizer_packing.specs.Stored.{is_narrow, item_at, listed_in, listed_of};
ghost use Rattle.normalizer_packing.specs.inner.Spelled.{spellings_of};
ghost use Rattle.normalizer_packing.specs.inner.Stores.{stored_place, tables_in, Holds, HoldsLists, HoldsMore};
ghost use Rattle.normalizer_packing.specs.inner.Stores.{StandsAt};

use crate::spelled::{SpelledEntries, Spellings};
use crate::spelling::Spelling;
use normalizer_tables::DecompositionTables;
use normalizer_tables::entry::{Entry, Kind};
use std::alloc::{AllocError, Global};
use std::collections::BTreeMap;

/// Lists in two tables, equal ones once, and the place of each in its table.
#[derive(Drop)]
pub struct Store<'a> {
    scalars16: Vec<u16>,
    scalars24: Vec<char>,
    places: BTreeMap<&'a [char], usize>,
}

impl<'a> Store<'a> {
    /// Makes a store of no list.
    pub fn new(alloc: Global) -> Self
        ensures { Holds [] result }
    {
        Store {
            scalars16: Vec::new(alloc),
            scalars24: Vec::new(alloc),
            places: BTreeMap::new(alloc),
        }
    }

    /// The place of a list in its table.
    pub fn place_of(&self, list: &[char]) -> Option<usize>
        ensures { result ≡ stored_place self.now list.now }
    {
        self.places.get(list).copied()
    }

    /// The item of a place of a list, if the two tables are put one after the other.
    pub fn item_at(&self, list: &[char], place: usize) -> usize
        requires { StandsAt (tables_in self.now) list.now place }
        ensures { result ≡ item_at (tables_in self.now) list.now place }
    {
        if is_narrow(list) {
            place
        } else {
            self.scalars16.len() + place
        }
    }

    /// Appends a list to its table, if it isn't there.
    ///
    /// # Errors
    /// [`AllocError`] if an allocation failed.
    pub fn put(&mut self, list: &'a [char]) -> Result<(), AllocError>
        ensures { OnOk result (HoldsMore self.old list.now self.new) }
    {
        if self.place_of(list).is_some() {
            return Ok(());
        }
        let place = if is_narrow(list) {
            append_narrow(&mut self.scalars16, list)?
        } else {
            append_wide(&mut self.scalars24, list)?
        };
        match self.places.insert(list, place) {
            Ok(_) => Ok(()),
            Err(_) => Err(AllocError),
        }
    }

    /// How many items the two tables have together.
    pub fn len(&self) -> usize
        ensures { result ≡ item_count (tables_in self.now) }
    {
        self.scalars16.len() + self.scalars24.len()
    }

    /// The table of characters alone.
    pub fn into_scalars24(self) -> Vec<char>
        ensures { result.items ≡ self.entry.scalars24.items }
    {
        self.scalars24
    }

    /// Returns the two tables.
    pub fn into_tables(self) -> DecompositionTables
        ensures { result ≡ tables_in self.entry }
    {
        DecompositionTables {
            scalars16: self.scalars16.into(),
            scalars24: self.scalars24.into(),
        }
    }
}

/// Whether a list goes into the table of 16-bit numbers.
pub fn is_narrow(list: &[char]) -> bool
    ensures { result ≡ is_narrow list.now }
{
    2 <= list.len() && fits_units(list)
}

/// Whether all members are up to U+FFFF.
fn fits_units(list: &[char]) -> bool
    ensures { result ≡ list_all (λ c. nat_le c 0xFFFF) list.now }
{
    list.iter().all(|member| *member <= '\u{FFFF}')
}

/// Appends a list to a table of 16-bit numbers, and returns its place.
fn append_narrow(units: &mut Vec<u16>, list: &[char]) -> Result<usize, AllocError>
    requires { is_narrow list.now ≡ true }
    ensures place { IfOk result (λ n. n ≡ length units.old.items) }
    ensures appended { OnOk result (units.new.items ≡ units.old.items ++ list.now) }
{
    let place = units.len();
    for member in list {
        units.push(*member as u16)?;
    }
    Ok(place)
}

/// Appends a list to a table of characters, and returns its place.
fn append_wide(scalars: &mut Vec<char>, list: &[char]) -> Result<usize, AllocError>
    ensures place { IfOk result (λ n. n ≡ length scalars.old.items) }
    ensures appended { OnOk result (scalars.new.items ≡ scalars.old.items ++ list.now) }
{
    let place = scalars.len();
    scalars.extend_from_slice(list)?;
    Ok(place)
}

/// The list of an entry, if its word doesn't spell it.
fn listed_of<'a>(kind: Kind, entry: &'a Entry, spellings: Spellings) -> Option<&'a [char]>
    ensures { (class : ℕ → ℕ) → spellings ≡ spellings_of class entry.now →
        option_copied result ≡ listed_of class kind entry.now }
{
    match spellings.of(kind) {
        Spelling::Listed => entry.list(kind),
        _ => None,
    }
}

/// Puts the lists of one kind of data that no word spells into a store, except those in the one before.
///
/// # Errors
/// [`AllocError`] if an allocation failed.
pub fn put_lists<'a>(
    entries: &SpelledEntries<'a>,
    kind: Kind,
    before: &Store<'_>,
    store: &mut Store<'a>,
) -> Result<(), AllocError>
    ensures { OnOk result (HoldsLists before.now store.old (listed_in entries.now kind) store.new) }
{
    for place in 0..entries.len() {
        let (entry, spellings) = entries.at(place);
        if let Some(list) = listed_of(kind, entry, spellings) {
            if before.place_of(list).is_none() {
                store.put(list)?;
            }
        }
    }
    Ok(())
}
