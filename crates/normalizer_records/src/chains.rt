//! How many records lead from one to the next.
ghost use Rattle.std.specs.Prelude.{◌≡◌, ◌↔◌, ◌||◌, ◌&&◌, ℕ, IfOk, IsTrue, OnOk, flat_map, map};
ghost use Rattle.std.specs.BTreeSet.{contains, IsFromIterResult};
ghost use Rattle.std.specs.List.{list_any};
ghost use Rattle.std.specs.Ordering.{nat_cmp};
ghost use Rattle.normalizer_records.specs.inner.Chains.{
  beginning,
  IsBetween,
  IsLedTo,
  IsSetOf,
  leading,
  leads_on,
  LeadsOn,
};
ghost use Rattle.normalizer_records.specs.Faults.{AreRising, IsOnLongChain};
ghost use Rattle.normalizer_records.specs.Meaning.{mapping_of};

use crate::lookup::{SortedRecords, mapping_of};
use crate::records::Record;
use std::alloc::{AllocError, Global};
use std::collections::BTreeSet;

/// How many records may lead from one to the next.
pub(crate) const CHAIN_LIMIT: u8 = 16;

/// The characters of records.
fn recorded(alloc: Global, records: &SortedRecords<'_>) -> Result<BTreeSet<char>, AllocError>
    ensures { IfOk result (IsFromIterResult nat_cmp (map (λ r. r.c) records.now)) }
{
    records
        .as_slice()
        .iter()
        .map(|record| record.c)
        .collect(alloc)
}

/// Whether a list has one of these characters.
pub(crate) fn has_any(set: &BTreeSet<char>, mapping: &[char]) -> bool
    ensures { result ≡ list_any (contains nat_cmp set.now) mapping.now }
{
    mapping.iter().any(|member| set.contains(member))
}

/// The character of a record that leads to one of these.
fn beginning<'a>(set: &BTreeSet<char>, record: &'a Record) -> &'a [char]
    ensures { result.now ≡ beginning set.now «record».now }
{
    if has_any(set, &record.mapping) {
        std::slice::from_ref(&record.c)
    } else {
        &[]
    }
}

/// The characters of records that lead to one of these.
fn beginnings(
    alloc: Global,
    records: &SortedRecords<'_>,
    set: &BTreeSet<char>,
) -> Result<BTreeSet<char>, AllocError>
    ensures { IfOk result (IsFromIterResult nat_cmp (flat_map (beginning set.now) records.now)) }
{
    records
        .as_slice()
        .iter()
        .flat_map(|record| beginning(set, record).iter().copied())
        .collect(alloc)
}

/// What the records of these characters lead to.
fn all_ends(
    alloc: Global,
    records: &SortedRecords<'_>,
    set: &BTreeSet<char>,
) -> Result<BTreeSet<char>, AllocError>
    ensures { IfOk result (IsFromIterResult nat_cmp (flat_map (mapping_of records.now) set.now.keys)) }
{
    set.iter()
        .flat_map(|c| mapping_of(records, *c).iter().copied())
        .collect(alloc)
}

/// Adds what both have.
fn add_common(
    found: &mut BTreeSet<char>,
    set: &BTreeSet<char>,
    other: &BTreeSet<char>,
) -> Result<(), AllocError>
    ensures { OnOk result ((c : ℕ) → contains nat_cmp found.new c
        ≡ (contains nat_cmp found.old c || (contains nat_cmp set.now c && contains nat_cmp other.now c))) }
{
    found.extend(set.intersection(other).copied())?;
    Ok(())
}

/// The characters from which `count` records lead on. `led` are those to which some number of records lead; the
/// characters between are added to `found`.
fn leading_on(
    alloc: Global,
    records: &SortedRecords<'_>,
    count: u8,
    led: &BTreeSet<char>,
    found: &mut BTreeSet<char>,
) -> Result<BTreeSet<char>, AllocError>
    requires { AreRising records.now }
    ensures leading { IfOk result (IsSetOf (LeadsOn records.now count)) }
    ensures between { OnOk result ((k : ℕ) → IsSetOf (IsLedTo records.now k) led.now → (c : ℕ) →
        IsTrue (contains nat_cmp found.new c)
        ↔ IsBetween records.now (IsTrue (contains nat_cmp found.old c)) count k c) }
{
    if count == 0 {
        let leading = recorded(alloc, records)?;
        add_common(found, &leading, led)?;
        return Ok(leading);
    }
    let next = all_ends(alloc, records, led)?;
    let shorter = leading_on(alloc, records, count - 1, &next, found)?;
    let leading = beginnings(alloc, records, &shorter)?;
    add_common(found, &leading, led)?;
    Ok(leading)
}

/// Whether a record leads on from a character of a list.
fn any_leads_on(records: &SortedRecords<'_>, mapping: &[char]) -> bool
    ensures { result ≡ list_any (leads_on records.now) mapping.now }
{
    mapping
        .iter()
        .any(|member| 0 < mapping_of(records, *member).len())
}

/// A mapping, if a record leads on from one of its members.
fn leading<'a>(records: &SortedRecords<'_>, mapping: &'a [char]) -> &'a [char]
    ensures { result.now ≡ leading records.now mapping.now }
{
    if any_leads_on(records, mapping) {
        mapping
    } else {
        &[]
    }
}

/// What the records of these characters lead to, without mappings from which no record leads on.
fn next_led(
    alloc: Global,
    records: &SortedRecords<'_>,
    led: &BTreeSet<char>,
) -> Result<BTreeSet<char>, AllocError>
    ensures { IfOk result
        (IsFromIterResult nat_cmp (flat_map (λ c. leading records.now (mapping_of records.now c)) led.now.keys)) }
{
    led.iter()
        .flat_map(|c| leading(records, mapping_of(records, *c)).iter().copied())
        .collect(alloc)
}

/// Whether fewer than 16 records lead to no character from which one leads on. Then no chain has more than 16 records.
fn are_chains_short(alloc: Global, records: &SortedRecords<'_>) -> Result<bool, AllocError>
    ensures { IfOk result (λ b. IsTrue b → (c : ℕ) → ¬ IsOnLongChain records.now c) }
{
    let mut led = recorded(alloc, records)?;
    let mut count = 0;
    while count + 1 < CHAIN_LIMIT && !led.is_empty() {
        led = next_led(alloc, records, &led)?;
        count += 1;
    }
    Ok(led.is_empty())
}

/// The characters on chains of more than 16 records, each with the next one's character in its mapping.
pub(crate) fn on_long_chains(
    alloc: Global,
    records: &SortedRecords<'_>,
) -> Result<BTreeSet<char>, AllocError>
    requires { AreRising records.now }
    ensures { IfOk result (IsSetOf (IsOnLongChain records.now)) }
{
    let mut found = BTreeSet::new(alloc);
    if are_chains_short(alloc, records)? {
        return Ok(found);
    }
    let recorded = recorded(alloc, records)?;
    leading_on(alloc, records, CHAIN_LIMIT, &recorded, &mut found)?;
    Ok(found)
}
