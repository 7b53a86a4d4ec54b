//! Builds data from records, those of the mapper by ranges.
#![tactic(auto, unfolding(crate::specs::Building::IsSmallest, crate::specs::inner::Ranges::is_free, crate::specs::inner::Ranges::is_recorded, crate::specs::inner::Ranges::ends_of, crate::specs::inner::Ranges::whole_range))]

ghost use Rattle.std.specs.Prelude.{◌≡◌, ◌≤◌, ◌++◌, ℕ, List, None, IfOk, OnOk, IfSome, MatchResult, flat_map};
ghost use Rattle.normalizer_records.specs.Faults.{AreRising};
ghost use Rattle.normalizer_records.specs.RecordValue.{Uts46RecordValue};
ghost use Rattle.normalizer_records.specs.Ranges.{entries_of};
ghost use Rattle.normalizer_records.specs.Recorded.{AreExpanded};
ghost use Rattle.normalizer_builder.specs.Building.{Builds, IsSmallest};
ghost use Rattle.normalizer_builder.specs.Built.{data_in};
ghost use Rattle.normalizer_builder.specs.Demands.{IsFirstUnmet};
ghost use Rattle.normalizer_builder.specs.inner.Ranges.{
  ends_of,
  is_clear,
  is_free,
  is_recorded,
  IsSplit,
  whole_range,
};

use crate::build::Records;
use crate::built::Built;
use crate::unmet::first_unmet;
use normalizer_packing::{PackError, Packed, pack};
use normalizer_records::{
    BuildError, ExpandedRecords, Record, Refusal, Uts46Range, Uts46Record, expanded, is_disallowed,
    push_records, records_of_ranges,
};
use std::alloc::{AllocError, Global};

impl Records {
    /// Builds the data that [`Records::build`] builds of the mapper's records that these ranges list, one range after
    /// another. Long ranges of disallowed characters take little time and memory, if nothing else is recorded of their
    /// characters.
    ///
    /// # Errors
    /// Those of [`Records::build`].
    pub fn build_of_ranges(
        alloc: Global,
        records: &[Record],
        ranges: &[Uts46Range],
    ) -> Result<Built, BuildError>
        ensures { MatchResult result (λ b. Builds records.now (flat_map entries_of ranges.now) (data_in b))
            (IsSmallest records.now (flat_map entries_of ranges.now)) }
    {
        if let Some(parts) = parts_of(alloc, records, ranges)? {
            if let Some(built) = built_of_parts(alloc, records, &parts)? {
                return Ok(built);
            }
        }
        // (They are refused, or their order is wrong: all records say which refusal is the first.)
        let listed = records_of_ranges(alloc, ranges)?;
        Records::build(alloc, records, &listed)
    }
}

/// The mapper's records that aren't in ranges, and ranges of disallowed characters, each from its first to its last
/// character.
#[derive(Drop)]
struct Parts {
    others: Vec<Uts46Record>,
    disallowed: Vec<(char, char)>,
}

/// The data of records of which the mapper's are split, unless the records are refused.
fn built_of_parts(
    alloc: Global,
    records: &[Record],
    parts: &Parts,
) -> Result<Option<Built>, AllocError>
    ensures { (all : List Uts46RecordValue) (end : ℕ) →
        IsSplit records.now all parts.now.others.items parts.now.disallowed.items end →
        IfOk result (λ o. IfSome o (λ b. Builds records.now all (data_in b))) }
{
    match expanded(alloc, records, &parts.others) {
        Ok(expanded) => built_beside(alloc, records, expanded, &parts.disallowed),
        Err(
            Refusal {
                error: BuildError::Memory,
                ..
            },
        ) => Err(AllocError),
        Err(_) => Ok(None),
    }
}

/// The data of what is packed of the other records, and ranges beside it.
fn built_beside(
    alloc: Global,
    records: &[Record],
    expanded: ExpandedRecords,
    disallowed: &[(char, char)],
) -> Result<Option<Built>, AllocError>
    requires { (others : List Uts46RecordValue) ×
        AreExpanded records.now others expanded.entries.items expanded.pairs.items }
    ensures { (all others : List Uts46RecordValue) (end : ℕ) →
        AreExpanded records.now others expanded.entries.items expanded.pairs.items →
        IsSplit records.now all others disallowed.now end →
        IfOk result (λ o. IfSome o (λ b. Builds records.now all (data_in b))) }
{
    let ExpandedRecords { entries, pairs } = expanded;
    match pack(alloc, entries.as_slice(), disallowed, pairs) {
        Ok(packed) => Ok(fit(records, packed)),
        Err(PackError::Memory) => Err(AllocError),
        Err(PackError::TableFull) => Ok(None),
    }
}

/// The data, if they meet all that is required.
fn fit(records: &[Record], packed: Packed) -> Option<Built>
    requires { AreRising records.now }
    ensures { IfSome result (λ b. (data_in b ≡ packed) × IsFirstUnmet records.now packed None) }
{
    match first_unmet(records, &packed) {
        None => Some(Built { packed }),
        Some(_) => None,
    }
}

/// The parts of the records that ranges list, if each range begins at or after the end of the one before.
fn parts_of(
    alloc: Global,
    records: &[Record],
    ranges: &[Uts46Range],
) -> Result<Option<Parts>, AllocError>
    ensures { IfOk result (λ o. IfSome o (λ p. (end : ℕ)
        × IsSplit records.now (flat_map entries_of ranges.now) p.others.items p.disallowed.items end)) }
{
    let mut others = Vec::new(alloc);
    let mut disallowed = Vec::new(alloc);
    let mut end = 0;
    for range in ranges {
        if range.first < end || range.end < range.first {
            return Ok(None);
        }
        put_range(records, range, &mut others, &mut disallowed)?;
        end = range.end;
    }
    Ok(Some(Parts { others, disallowed }))
}

fn put_range(
    records: &[Record],
    range: &Uts46Range,
    others: &mut Vec<Uts46Record>,
    disallowed: &mut Vec<(char, char)>,
) -> Result<(), AllocError>
    ensures { OnOk result ((all : List Uts46RecordValue) (end : ℕ) →
        IsSplit records.now all others.old.items disallowed.old.items end →
        end ≤ range.now.first → range.now.first ≤ range.now.end →
        IsSplit records.now (all ++ entries_of range.now) others.new.items disallowed.new.items range.now.end) }
{
    match whole_range(records, range) {
        Some(ends) => {
            disallowed.push(ends)?;
            Ok(())
        }
        None => push_records(others, range),
    }
}

/// The first and the last character of a range, if it is only recorded of its characters that the mapper disallows
/// them.
fn whole_range(records: &[Record], range: &Uts46Range) -> Option<(char, char)>
    ensures { result ≡ whole_range records.now range.now }
{
    let is_whole = is_disallowed(&range.status)
        && is_free(range.first, range.end)
        && !is_recorded(records, range.first, range.end);
    if is_whole {
        ends_of(range.first, range.end)
    } else {
        None
    }
}

/// Whether none of these code points is a character whose data are fixed.
fn is_free(first: u32, end: u32) -> bool
    ensures { result ≡ is_free first end }
{
    is_clear(first, end, 0x1100, 0x11FF)
        && is_clear(first, end, 0xAC00, 0xD7A3)
        && is_clear(first, end, 0xFFFD, 0xFFFD)
}

/// Whether none of these code points is from one up to another.
fn is_clear(first: u32, end: u32, low: u32, high: u32) -> bool
    ensures { result ≡ is_clear first end low high }
{
    end <= low || high < first
}

/// Whether some record is of one of these code points.
fn is_recorded(records: &[Record], first: u32, end: u32) -> bool
    ensures { result ≡ is_recorded records.now first end }
{
    records.iter().any(|record| first <= record.c as u32 && (record.c as u32) < end)
}

/// The first and the last of these code points, if both are characters.
fn ends_of(first: u32, end: u32) -> Option<(char, char)>
    ensures { result ≡ ends_of first end }
{
    if end == 0 {
        return None;
    }
    match (char::from_u32(first), char::from_u32(end - 1)) {
        (Some(first), Some(last)) => Some((first, last)),
        _ => None,
    }
}
