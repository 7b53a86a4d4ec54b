//! The pairs of records.
#![tactic(auto, unfolding(crate::specs::Meaning::pair_of_record, crate::specs::Meaning::pairs_of, normalizer_tables::specs::Pairs::is_before))]

ghost use Rattle.std.specs.Prelude.{◌≡◌, ◌↔◌, List, IfOk, IsSomeAnd, IsTrue};
ghost use Rattle.std.specs.List.Sorted.{IsPermutation, IsSorted};
ghost use Rattle.normalizer_tables.specs.Pairs.{is_before, AreRising as ArePairsRising};
ghost use Rattle.normalizer_records.specs.declared.records.BuildError.TheVariants.{Pair};
ghost use Rattle.normalizer_records.specs.AtFault.{IsFirstShowing, IsTwice};
ghost use Rattle.normalizer_records.specs.Faults.{HasPairFault};
ghost use Rattle.normalizer_records.specs.RecordValue.{Uts46RecordValue};
ghost use Rattle.normalizer_records.specs.Meaning.{pair_of_mapping, pair_of_record, pairs_of};
ghost use Rattle.normalizer_records.specs.inner.SortedPairs.{by_second_and_first};

use crate::at_fault::{RecordAtFault, first_of, first_with};
use crate::records::Record;
use normalizer_tables::special::fixed_list_of;
use std::alloc::{AllocError, Global};

/// The pair of a record: second, first, and what they compose to.
fn pair_of_record(record: &Record) -> Option<(char, char, char)>
    ensures { result ≡ pair_of_record record.now }
{
    if !record.compatibility && !record.excluded && fixed_list_of(record.c).is_none() {
        pair_of_mapping(record.c, &record.mapping)
    } else {
        None
    }
}

fn pair_of_mapping(c: char, mapping: &[char]) -> Option<(char, char, char)>
    ensures { result ≡ pair_of_mapping c mapping.now }
{
    match mapping {
        [first, second] => Some((*second, *first, c)),
        _ => None,
    }
}

fn unsorted_pairs(alloc: Global, records: &[Record]) -> Result<Vec<(char, char, char)>, AllocError>
    ensures { IfOk result (λ v. v.items ≡ pairs_of records.now) }
{
    let mut pairs = Vec::new(alloc);
    for entry in records {
        if let Some(pair) = pair_of_record(entry) {
            pairs.push(pair)?;
        }
    }
    Ok(pairs)
}

/// Returns the pairs of records, sorted by second, then by first. They strictly rise unless two records have the same
/// pair.
///
/// # Errors
/// [`AllocError`] if an allocation failed.
pub fn pairs(alloc: Global, records: &[Record]) -> Result<Vec<(char, char, char)>, AllocError>
    ensures same { IfOk result (λ v. IsPermutation (pairs_of records.now) v.items) }
    ensures sorted { IfOk result (λ v. IsSorted by_second_and_first v.items) }
    ensures rising { IfOk result (λ v. (¬ HasPairFault records.now) → ArePairsRising v.items) }
{
    let mut pairs = unsorted_pairs(alloc, records)?;
    pairs.sort_by_key(|pair| (pair.0, pair.1))?;
    Ok(pairs)
}

fn is_before(pair: &(char, char, char), next: &(char, char, char)) -> bool
    ensures { result ≡ is_before pair.now next.now.0 next.now.1 }
{
    pair.0 < next.0 || (pair.0 == next.0 && pair.1 < next.1)
}

/// The first record that has the pair of another one, by the sorted pairs.
pub(crate) fn first_of_same_pair(
    records: &[Record],
    pairs: &[(char, char, char)],
) -> Option<RecordAtFault>
    requires same { IsPermutation (pairs_of records.now) pairs.now }
    requires sorted { IsSorted by_second_and_first pairs.now }
    ensures { (uts46 : List Uts46RecordValue) → IsFirstShowing records.now uts46 Pair result }
{
    first_of(
        first_with(records, |record| has_pair_twice(pairs, record)),
        None,
    )
}

/// Whether two records have the pair of this one, by the sorted pairs.
fn has_pair_twice(pairs: &[(char, char, char)], record: &Record) -> bool
    requires { IsSorted by_second_and_first pairs.now }
    ensures { IsTrue result ↔ IsSomeAnd (pair_of_record «record».now) (IsTwice pairs.now) }
{
    match pair_of_record(record) {
        Some(pair) => is_twice(pairs, &pair),
        None => false,
    }
}

/// Whether two of the sorted pairs are of these characters: the first that isn't before it, and the next one.
fn is_twice(pairs: &[(char, char, char)], pair: &(char, char, char)) -> bool
    requires { IsSorted by_second_and_first pairs.now }
    ensures { IsTrue result ↔ IsTwice pairs.now pair.now }
{
    let next = pairs.partition_point(|earlier| is_before(earlier, pair)) + 1;
    next < pairs.len() && !is_before(pair, &pairs[next])
}
