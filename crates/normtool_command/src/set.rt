//! The records of the set.
ghost use Rattle.std.specs.Prelude.{◌≡◌, IfOk, map};
ghost use Rattle.normtool_command.specs.declared.set_table.TheConstants.{MAPPER_ROWS, ROWS};
ghost use Rattle.normtool_command.specs.Rows.{entry_of, is_compatibility, is_excluded, mapper_entry_of, status_of};
ghost use Rattle.icu_normalizer.specs.Statuses.{status_of as status_of_record};

use crate::row::{Kind, MapperRow, Row, Treatment};
use crate::set_table::{MAPPER_ROWS, ROWS};
use icu_normalizer::{Record, Uts46Record, Uts46Status};
use std::alloc::{AllocError, Global};

/// Returns the records of the set, a record for each row.
///
/// # Errors
/// [`AllocError`] if an allocation failed.
pub fn records(alloc: Global) -> Result<Vec<Record>, AllocError>
    ensures { IfOk result (λ v. v.items ≡ map (λ row. entry_of row.0 row.1 row.2.now row.3) ROWS) }
{
    records_of(alloc, &ROWS)
}

fn records_of(alloc: Global, rows: &[Row]) -> Result<Vec<Record>, AllocError>
    ensures { IfOk result (λ v. v.items ≡ map (λ row. entry_of row.0 row.1 row.2.now row.3) rows.now) }
{
    let mut records = Vec::new(alloc);
    for place in 0..rows.len() {
        let (c, class, mapping, kind) = rows[place];
        records.push(record_of(alloc, c, class, mapping, kind)?)?;
    }
    Ok(records)
}

fn record_of(
    alloc: Global,
    c: char,
    class: u8,
    mapping: &[char],
    kind: Kind,
) -> Result<Record, AllocError>
    ensures { IfOk result (λ r. r ≡ entry_of c class mapping.now kind) }
{
    Ok(Record {
        c,
        class,
        mapping: mapping.to_vec(alloc)?,
        compatibility: is_compatibility(kind),
        excluded: is_excluded(kind),
    })
}

fn is_compatibility(kind: Kind) -> bool
    ensures { result ≡ is_compatibility kind }
{
    matches!(kind, Kind::Compatibility)
}

fn is_excluded(kind: Kind) -> bool
    ensures { result ≡ is_excluded kind }
{
    matches!(kind, Kind::Excluded)
}

/// Returns the records of the mapper, a record for each row.
///
/// # Errors
/// [`AllocError`] if an allocation failed.
pub fn mapper_records(alloc: Global) -> Result<Vec<Uts46Record>, AllocError>
    ensures { IfOk result (λ v. v.items ≡ map (λ row. mapper_entry_of row.0 row.1.now row.2) MAPPER_ROWS) }
{
    mapper_records_of(alloc, &MAPPER_ROWS)
}

fn mapper_records_of(alloc: Global, rows: &[MapperRow]) -> Result<Vec<Uts46Record>, AllocError>
    ensures { IfOk result (λ v. v.items ≡ map (λ row. mapper_entry_of row.0 row.1.now row.2) rows.now) }
{
    let mut records = Vec::new(alloc);
    for place in 0..rows.len() {
        let (c, mapping, treatment) = rows[place];
        let status = status_of(alloc, mapping, treatment)?;
        records.push(Uts46Record { c, status })?;
    }
    Ok(records)
}

fn status_of(
    alloc: Global,
    mapping: &[char],
    treatment: Treatment,
) -> Result<Uts46Status, AllocError>
    ensures { IfOk result (λ s. status_of_record s ≡ status_of mapping.now treatment) }
{
    match treatment {
        Treatment::Mapped => Ok(Uts46Status::Mapped(mapping.to_vec(alloc)?)),
        Treatment::Ignored => Ok(Uts46Status::Ignored),
        Treatment::Disallowed => Ok(Uts46Status::Disallowed),
    }
}
