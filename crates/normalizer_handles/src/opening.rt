//! Opening a handle.
ghost use Rattle.std.specs.Prelude.{◌≡◌, IfOk, List, MatchResult, Some};
ghost use Rattle.std.specs.List.{flat_map};
ghost use Rattle.std.specs.Option.{option_and_then};
ghost use Rattle.icu_normalizer.specs.AtFault.{IsFirstAtFault};
ghost use Rattle.icu_normalizer.specs.Building.{Builds, IsSmallest};
ghost use Rattle.icu_normalizer.specs.MapperRanges.{entries_of};
ghost use Rattle.icu_normalizer.specs.Packed.{Packed};
ghost use Rattle.icu_normalizer.specs.RecordValue.{RecordValue, Uts46RecordValue};
ghost use Rattle.normalizer_handles.specs.Handles.{held_normalizers};
ghost use Rattle.normalizer_handles.specs.Made.{AreReadBy};
ghost use Rattle.normalizer_handles.specs.Opening.{
  of_idna_table,
  of_unicode_data,
  version_of,
  AreBy,
  Holds,
  IsBuildFault,
  Opens,
  Reads,
};
ghost use Rattle.normalizer_handles.specs.Prepared.{AreOfFile, IsFaultOfFile};
ghost use Rattle.normalizer_handles.specs.declared.fault.Fault.TheVariants.{Memory};
ghost use Rattle.normalizer_prepared.specs.Prepared.{IsFileOf};
ghost use Rattle.normalizer_ucd.specs.RecordPlaces.{place_of_record};

use crate::fault::{Fault, RecordsFault};
use crate::handle::Handle;
use crate::normalizers::{Normalizers, Version};
use crate::owner::Owner;
use icu_normalizer::record_laws::{
    data_that_meet_conditions_are_accepted, what_is_built_is_accepted,
};
use icu_normalizer::{BuildError, Record, Records, Uts46Range, records_of_ranges};
use normalizer_prepared::PreparedData;
use normalizer_ucd::{
    Disallowed, place_of_record, records_of_unicode_data, stated_version,
    uts46_ranges_beside_exclusions,
};
use std::alloc::{AllocError, Global};

/// Opens normalizers by the bytes of `UnicodeData.txt` and `CompositionExclusions.txt`, and their mapper by those of
/// `IdnaMappingTable.txt`, without its disallowed ranges of more than `disallowed_limit` code points. If nothing is
/// mapped, or there are no bytes, the handle has no mapper. What the handle had is dropped.
///
/// # Errors
/// `Line`, `Records` or `Memory`. The handle then has what it had.
pub fn open_files(
    alloc: Global,
    handle: &mut Handle,
    unicode_data: &[u8],
    exclusions: &[u8],
    idna_table: &[u8],
    disallowed_limit: u32,
) -> Result<(), Fault>
    ensures { Opens unicode_data.now exclusions.now idna_table.now disallowed_limit
        (held_normalizers handle.old) (held_normalizers handle.new) result }
{
    let records = unicode_data_records(alloc, unicode_data, exclusions)?;
    let mapper = idna_table_ranges(alloc, exclusions, idna_table, disallowed_limit)?;
    let version = version_of(alloc, exclusions)?;
    let lines = Lines {
        unicode_data,
        idna_table,
    };
    open(alloc, handle, &records, &mapper, version, &lines)
}

/// Opens normalizers by the bytes of a file of prepared data, and their mapper if its data aren't the canonical ones.
/// What the handle had is dropped.
///
/// # Errors
/// `Prepared`, `Unfit` or `Memory`. The handle then has what it had.
pub fn open_prepared(alloc: Global, handle: &mut Handle, prepared: &[u8]) -> Result<(), Fault>
    // By the data whose file it is.
    ensures file { Holds (AreOfFile prepared.now) (IsFaultOfFile prepared.now)
        (held_normalizers handle.old) (held_normalizers handle.new) result }

    // By the records that these data were built from.
    ensures records { (records : List RecordValue) (mapper : List Uts46RecordValue) (p : Packed) →
        Builds records mapper p → IsFileOf prepared.now p →
        Holds (AreReadBy records mapper) (λ fault. fault ≡ Memory)
        (held_normalizers handle.old) (held_normalizers handle.new) result }
{
    what_is_built_is_accepted();
    data_that_meet_conditions_are_accepted();
    open_file(alloc, handle, prepared)
}

fn open_file(alloc: Global, handle: &mut Handle, prepared: &[u8]) -> Result<(), Fault>
    ensures { Holds (AreOfFile prepared.now) (IsFaultOfFile prepared.now)
        (held_normalizers handle.old) (held_normalizers handle.new) result }
{
    let normalizers = normalizers_of_file(alloc, prepared)?;
    hold(alloc, handle, normalizers)
}

fn unicode_data_records(
    alloc: Global,
    unicode_data: &[u8],
    exclusions: &[u8],
) -> Result<Vec<Record>, Fault>
    ensures { Reads (λ v. v.items) result (of_unicode_data unicode_data.now exclusions.now) }
{
    Ok(records_of_unicode_data(alloc, unicode_data, exclusions)?)
}

fn idna_table_ranges(
    alloc: Global,
    exclusions: &[u8],
    idna_table: &[u8],
    disallowed_limit: u32,
) -> Result<Vec<Uts46Range>, Fault>
    ensures { Reads (λ v. flat_map entries_of v.items) result
        (of_idna_table exclusions.now idna_table.now disallowed_limit) }
{
    if idna_table.is_empty() {
        return Ok(Vec::new(alloc));
    }
    let disallowed = Disallowed::RangesUpTo(disallowed_limit);
    Ok(uts46_ranges_beside_exclusions(alloc, exclusions, idna_table, disallowed)?)
}

/// The version of Unicode that exclusions state, or 0.0.0.
fn version_of(alloc: Global, exclusions: &[u8]) -> Result<Version, AllocError>
    ensures { IfOk result (λ version. version ≡ version_of exclusions.now) }
{
    match stated_version(alloc, exclusions)? {
        Some(version) => Ok((version.major, version.minor, version.update)),
        None => Ok((0, 0, 0)),
    }
}

/// The files whose lines state records.
#[derive(Drop)]
struct Lines<'a> {
    unicode_data: &'a [u8],
    idna_table: &'a [u8],
}

/// Opens what records build, those of the mapper by ranges.
fn open(
    alloc: Global,
    handle: &mut Handle,
    records: &[Record],
    mapper: &[Uts46Range],
    version: Version,
    lines: &Lines<'_>,
) -> Result<(), Fault>
    ensures { Holds (AreBy records.now (flat_map entries_of mapper.now) version)
        (IsBuildFault (place_of_record lines.now.unicode_data.now lines.now.idna_table.now) records.now
        (flat_map entries_of mapper.now))
        (held_normalizers handle.old) (held_normalizers handle.new) result }
{
    let normalizers = normalizers_of(alloc, records, mapper, version, lines)?;
    hold(alloc, handle, normalizers)
}

/// Puts the only share in normalizers into a handle.
fn hold(alloc: Global, handle: &mut Handle, normalizers: Normalizers) -> Result<(), Fault>
    ensures { MatchResult result (λ _. held_normalizers handle.new ≡ Some normalizers)
        (λ fault. (held_normalizers handle.new ≡ held_normalizers handle.old) × (fault ≡ Memory)) }
{
    let owner = Owner::of(alloc, normalizers)?;
    handle.put(owner);
    Ok(())
}

fn normalizers_of(
    alloc: Global,
    records: &[Record],
    mapper: &[Uts46Range],
    version: Version,
    lines: &Lines<'_>,
) -> Result<Normalizers, Fault>
    ensures { MatchResult result (AreBy records.now (flat_map entries_of mapper.now) version)
        (IsBuildFault (place_of_record lines.now.unicode_data.now lines.now.idna_table.now) records.now
        (flat_map entries_of mapper.now)) }
{
    match Records::build_of_ranges(alloc, records, mapper) {
        Ok(built) => Ok(Normalizers::over(&built, mapper, version)?),
        Err(error) => Err(build_fault(alloc, records, mapper, lines, error)),
    }
}

/// Why records aren't built.
fn build_fault(
    alloc: Global,
    records: &[Record],
    mapper: &[Uts46Range],
    lines: &Lines<'_>,
    error: BuildError,
) -> Fault
    requires { IsSmallest records.now (flat_map entries_of mapper.now) error }
    ensures { IsBuildFault (place_of_record lines.now.unicode_data.now lines.now.idna_table.now) records.now
        (flat_map entries_of mapper.now) result }
{
    if matches!(error, BuildError::Memory) {
        return Fault::Memory;
    }
    match records_fault(alloc, records, mapper, lines, error) {
        Ok(fault) => Fault::Records(fault),
        Err(_) => Fault::Memory,
    }
}

/// The first record at fault, and its line. Only this makes a list of all records of the mapper.
fn records_fault(
    alloc: Global,
    records: &[Record],
    mapper: &[Uts46Range],
    lines: &Lines<'_>,
    error: BuildError,
) -> Result<RecordsFault, AllocError>
    requires { IsSmallest records.now (flat_map entries_of mapper.now) error }
    ensures { IfOk result (λ f. (f.error ≡ error)
        × IsFirstAtFault records.now (flat_map entries_of mapper.now) error f.at_fault
        × (f.place ≡ option_and_then (place_of_record lines.now.unicode_data.now lines.now.idna_table.now) f.at_fault)) }
{
    let listed = records_of_ranges(alloc, mapper)?;
    let at_fault = Records::first_at_fault(alloc, records, &listed, error)?;
    let place = match at_fault {
        Some(at_fault) => place_of_record(alloc, lines.unicode_data, lines.idna_table, at_fault)?,
        None => None,
    };
    Ok(RecordsFault {
        error,
        at_fault,
        place,
    })
}

/// The normalizers over the data of a file of prepared data.
fn normalizers_of_file(alloc: Global, prepared: &[u8]) -> Result<Normalizers, Fault>
    ensures { MatchResult result (AreOfFile prepared.now) (IsFaultOfFile prepared.now) }
{
    let read = PreparedData::read(alloc, prepared)?;
    Ok(Normalizers::over_prepared(&read)?)
}
