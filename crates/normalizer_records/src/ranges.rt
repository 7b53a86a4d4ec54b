//! Records of the mapper by ranges of characters.
ghost use Rattle.std.specs.Prelude.{◌≡◌, ◌++◌, OnOk, IfOk};
ghost use Rattle.std.specs.List.{flat_map};
ghost use Rattle.normalizer_records.specs.Statuses.{status_of as status_of_record};
ghost use Rattle.normalizer_records.specs.Ranges.{entries_at, entries_of};

use crate::records::{Uts46Record, Uts46Status};
use std::alloc::{AllocError, Global};
use std::marker::Model;

/// What the mapper does with the characters of a range: it is short for a [`Uts46Record`] of each of them.
#[derive(Drop, Clone, Debug)]
pub struct Uts46Range {
    /// The first code point.
    pub first: u32,
    /// The code point after the last one.
    pub end: u32,
    /// What the mapper does with them. Surrogates are no characters, and have no record.
    pub status: Uts46Status,
}

impl Model for Uts46Range {
    ghost use Rattle.normalizer_records.specs.Ranges.{Uts46RangeValue};

    ghost Value = { Uts46RangeValue };

    ghost use Rattle.normalizer_records.specs.Statuses.{status_of};

    ghost view = { λ r. record { first = r.first; end = r.end; status = status_of r.status } };
}

/// Returns a record for each character of the ranges, one range after another.
///
/// # Errors
/// [`AllocError`] if an allocation failed.
pub fn records_of_ranges(
    alloc: Global,
    ranges: &[Uts46Range],
) -> Result<Vec<Uts46Record>, AllocError>
    ensures { IfOk result (λ v. v.items ≡ flat_map entries_of ranges.now) }
{
    let mut records = Vec::new(alloc);
    for range in ranges {
        push_records(&mut records, range)?;
    }
    Ok(records)
}

/// Adds a record for each character of a range.
///
/// # Errors
/// [`AllocError`] if an allocation failed.
#[tactic(auto, unfolding(crate::specs::Ranges::entries_of))]
pub fn push_records(records: &mut Vec<Uts46Record>, range: &Uts46Range) -> Result<(), AllocError>
    ensures { OnOk result (records.new.items ≡ records.old.items ++ entries_of range.now) }
{
    for code in range.first..range.end {
        push_record(records, code, &range.status)?;
    }
    Ok(())
}

/// Adds the record of a character; a surrogate is none.
fn push_record(
    records: &mut Vec<Uts46Record>,
    code: u32,
    status: &Uts46Status,
) -> Result<(), AllocError>
    ensures { OnOk result (records.new.items ≡ records.old.items ++ entries_at (status_of_record status.now) code) }
{
    if let Some(c) = char::from_u32(code) {
        let status = status.clone()?;
        records.push(Uts46Record { c, status })?;
    }
    Ok(())
}
