//! What is packed of records, or the first thing that is wrong with them.
ghost use Rattle.std.specs.Prelude.{◌≡◌, ◌↔◌, ◌∷◌, All, false, find, is_some, map, IfOk, IsTrue, MatchResult};
ghost use Rattle.std.specs.BTreeSet.{contains};
ghost use Rattle.std.specs.List.{list_any};
ghost use Rattle.std.specs.Option.{option_map};
ghost use Rattle.std.specs.Ordering.{nat_cmp};
ghost use Rattle.normalizer_records.specs.declared.records.BuildError.TheVariants.{Chain, Class, Length};
ghost use Rattle.normalizer_records.specs.inner.CutLists.{IsCutEntry};
ghost use Rattle.normalizer_records.specs.inner.Findings.{AreFound};
ghost use Rattle.normalizer_records.specs.AtFault.{IsFirstShowing, IsRefusal};
ghost use Rattle.normalizer_records.specs.Faults.{
  AreMapperRising,
  AreRising,
  has_fixed_fault,
  IsAsked,
  mapped_to,
};
ghost use Rattle.normalizer_records.specs.Meaning.{status_of};
ghost use Rattle.normalizer_records.specs.Recorded.{AreExpanded};

use crate::at_fault::{RecordAtFault, Refusal, first_of, first_with};
use crate::chains::{has_any, on_long_chains};
use crate::cut_lists::cut_entry;
use crate::faults::{first_bad_mapping, first_fixed, first_out_of_order};
use crate::list_faults::{
    has_long_mapper_list, has_long_own_list, has_wrong_mapper_list, has_wrong_own_class,
};
use crate::lookup::{SortedMapperRecords, SortedRecords, uts46_record_of};
use crate::pair_list::{first_of_same_pair, pairs};
use crate::recorded::sorted_characters;
use crate::records::{BuildError, Record, Uts46Record, Uts46Status};
use normalizer_tables::entry::Entry;
use std::alloc::{AllocError, Global};
use std::collections::BTreeSet;

/// Records that rise, and what is found of them.
#[derive(Drop)]
struct Findings<'a> {
    records: SortedRecords<'a>,
    uts46: SortedMapperRecords<'a>,
    /// The characters on long chains.
    long: BTreeSet<char>,
    /// An entry for each character that has a record. Lists that are too long are cut.
    entries: Vec<Entry>,
}

/// Finds what is looked at together of all records.
fn findings_of<'a>(
    alloc: Global,
    records: &'a [Record],
    uts46: &'a [Uts46Record],
) -> Result<Findings<'a>, AllocError>
    requires rising { AreRising records.now }
    requires mapper { AreMapperRising uts46.now }
    requires fixed { has_fixed_fault records.now uts46.now ≡ false }
    ensures records { IfOk result (λ f. f.records ≡ records.now) }
    ensures mapper { IfOk result (λ f. f.uts46 ≡ uts46.now) }
    ensures found { IfOk result AreFound }
{
    let sorted = SortedRecords::new(alloc, records)?;
    let long = on_long_chains(alloc, &sorted)?;
    let characters = sorted_characters(alloc, records, uts46)?;
    let mapper = SortedMapperRecords::new(alloc, uts46)?;
    let entries = cut_entries(alloc, &sorted, &mapper, &characters)?;
    Ok(Findings {
        records: sorted,
        uts46: mapper,
        long,
        entries,
    })
}

/// The entries of these characters.
fn cut_entries(
    alloc: Global,
    records: &SortedRecords<'_>,
    uts46: &SortedMapperRecords<'_>,
    characters: &[char],
) -> Result<Vec<Entry>, AllocError>
    ensures characters { IfOk result (λ v. map (λ e. e.character) v.items ≡ characters.now) }
    ensures entries { IfOk result (λ v. All (IsCutEntry records.now uts46.now) v.items) }
{
    let mut entries = Vec::with_capacity(alloc, characters.len())?;
    for place in 0..characters.len() {
        entries.push(cut_entry(alloc, records, uts46, characters[place])?)?;
    }
    Ok(entries)
}

impl Findings<'_> {
    /// What the mapper maps a character to.
    fn mapped_to(&self, c: char) -> &[char]
        requires { AreFound self.now }
        ensures { result.now ≡ mapped_to (status_of self.now.uts46 c) }
    {
        match uts46_record_of(&self.uts46, c) {
            None => &[],
            Some(record) => match &record.status {
                Uts46Status::Mapped(mapping) => mapping,
                _ => &[],
            },
        }
    }

    /// Whether a character, or one that the mapper maps it to, is on a long chain.
    fn is_on_long_chain(&self, c: char) -> bool
        requires { AreFound self.now }
        ensures { result ≡ list_any (contains nat_cmp self.now.long) (c ∷ mapped_to (status_of self.now.uts46 c)) }
    {
        self.long.contains(&c) || has_any(&self.long, self.mapped_to(c))
    }

    /// Whether the class and the lists of a character are checked.
    fn is_asked(&self, c: char) -> bool
        requires { AreFound self.now }
        ensures { IsTrue result ↔ IsAsked self.now.records self.now.uts46 c }
    {
        !self.is_on_long_chain(c)
    }

    /// The first record whose class or list is wrong.
    fn first_wrong_class(&self) -> Option<RecordAtFault>
        requires { AreFound self.now }
        ensures { IsFirstShowing self.now.records self.now.uts46 Class result }
    {
        let own = first_with(&self.entries, |entry| {
            has_wrong_own_class(&self.records, entry) && self.is_asked(entry.character)
        });
        let mapped = first_with(&self.entries, |entry| {
            has_wrong_mapper_list(&self.records, entry) && self.is_asked(entry.character)
        });
        first_of(own, mapped)
    }

    /// The first record that leads to a list that is too long.
    fn first_long_list(&self) -> Option<RecordAtFault>
        requires { AreFound self.now }
        ensures { IsFirstShowing self.now.records self.now.uts46 Length result }
    {
        let own = first_with(&self.entries, |entry| {
            has_long_own_list(entry) && self.is_asked(entry.character)
        });
        let mapped = first_with(&self.entries, |entry| {
            has_long_mapper_list(entry) && self.is_asked(entry.character)
        });
        first_of(own, mapped)
    }

    /// The first record on a long chain.
    fn first_on_long_chain(&self) -> Option<RecordAtFault>
        requires { AreFound self.now }
        ensures { IsFirstShowing self.now.records self.now.uts46 Chain result }
    {
        let records = self.records.as_slice();
        first_of(
            first_with(records, |record| self.long.contains(&record.c)),
            None,
        )
    }
}

/// What is packed of records: an entry for each character that has a record, and the pairs, which rise.
#[derive(Drop)]
pub struct ExpandedRecords {
    /// What records mean of each character.
    pub entries: Vec<Entry>,
    /// The second character, the first one, and what they compose to.
    pub pairs: Vec<(char, char, char)>,
}

/// What is packed of records that are sorted and have no fixed character, or their first refusal.
fn expanded_of_rising(
    alloc: Global,
    records: &[Record],
    uts46: &[Uts46Record],
) -> Result<ExpandedRecords, Refusal>
    requires rising { AreRising records.now }
    requires mapper { AreMapperRising uts46.now }
    requires fixed { has_fixed_fault records.now uts46.now ≡ false }
    ensures { MatchResult result (λ x. AreExpanded records.now uts46.now x.entries.items x.pairs.items)
        (IsRefusal records.now uts46.now) }
{
    let found = findings_of(alloc, records, uts46)?;
    let pairs = pairs(alloc, records)?;
    let tests = [
        (BuildError::Class, found.first_wrong_class()),
        (BuildError::Mapping, first_bad_mapping(records, uts46)),
        (BuildError::Chain, found.first_on_long_chain()),
        (BuildError::Length, found.first_long_list()),
        (BuildError::Pair, first_of_same_pair(records, &pairs)),
    ];
    match first_refusal(&tests) {
        None => Ok(ExpandedRecords {
            entries: found.entries,
            pairs,
        }),
        Some(refusal) => Err(refusal),
    }
}

/// The first of these faults that a record shows.
fn first_refusal(tests: &[(BuildError, Option<RecordAtFault>)]) -> Option<Refusal>
    ensures { result ≡ option_map (λ t. record { error = t.0; at_fault = t.1 }) (find (λ t. is_some t.1) tests.now) }
{
    let test = tests.iter().find(|test| test.1.is_some())?;
    Some(Refusal {
        error: test.0,
        at_fault: test.1,
    })
}

/// Returns what is packed of records.
///
/// # Errors
/// The first thing that is wrong with the records by themselves, `Pair` or a variant of [`BuildError`] before it; or
/// `Memory` if an allocation failed.
pub fn expanded(
    alloc: Global,
    records: &[Record],
    uts46: &[Uts46Record],
) -> Result<ExpandedRecords, Refusal>
    ensures { MatchResult result (λ x. AreExpanded records.now uts46.now x.entries.items x.pairs.items)
        (IsRefusal records.now uts46.now) }
{
    if let Some(record) = first_out_of_order(records, uts46) {
        return Err(Refusal {
            error: BuildError::Order,
            at_fault: Some(record),
        });
    }
    if let Some(record) = first_fixed(records, uts46) {
        return Err(Refusal {
            error: BuildError::Fixed,
            at_fault: Some(record),
        });
    }
    expanded_of_rising(alloc, records, uts46)
}
