//! The data of a directory of Unicode's files.
ghost use Rattle.std.specs.Prelude.{◌≡◌, List, [], IfErr, IfOk, IfSome, OnOk, string_bytes, unwrap_or};
ghost use Rattle.std.specs.List.{flat_map};
ghost use Rattle.std.specs.Option.{option_map};
ghost use Rattle.icu_normalizer.specs.Building.{Builds, IsSmallest};
ghost use Rattle.icu_normalizer.specs.Built.{data_in};
ghost use Rattle.icu_normalizer.specs.MapperRanges.{entries_of};
ghost use Rattle.icu_normalizer.specs.RecordValue.{RecordValue, Uts46RecordValue};
ghost use Rattle.normalizer_ucd.specs.FallibleReads.{Gives};
ghost use Rattle.normalizer_ucd.specs.RecordPlaces.{place_of_record};
ghost use Rattle.normalizer_ucd.specs.declared.error.LineFault.{LineFault};
ghost use Rattle.normalizer_command.specs.DataFaults.{file_of, IsFaultOf, IsFaultOfRecords, IsReadFault, IsRecordsFault, IsUnread};
ghost use Rattle.normalizer_command.specs.FileFaults.{fault_of_file, IsFileFault};
ghost use Rattle.normalizer_command.specs.UnicodeFiles.{mapper_records_of, path_of, purpose_of, AreFiles, AreRecorded};
ghost use Rattle.normalizer_command.specs.UnicodeFiles.{IsFile, IsTable};

use crate::command::Command;
use crate::devices::Inputs;
use crate::fault::{Fault, RecordsFault};
use icu_normalizer::{BuildError, Built, Record, Records, Uts46Range, records_of_ranges};
use normalizer_io::read_all;
use normalizer_ucd::{
    Disallowed, Place, UcdError, UcdFile, place_of_record, records_of_unicode_data,
    uts46_ranges_beside_exclusions,
};
use std::alloc::{AllocError, Global};
use std::io::ErrorKind;

/// What data are for.
#[derive(Clone, Copy, PartialEq, Eq)]
pub(crate) enum Purpose {
    /// Normal forms, which need no mapping table.
    Forms,
    /// The mapper.
    Mapper,
    /// Both, if there is a mapping table.
    Both,
}

/// What a command needs data for.
pub(crate) fn purpose_of(command: Command) -> Purpose
    ensures { result ≡ purpose_of command }
{
    match command {
        Command::OfForm(..) => Purpose::Forms,
        Command::OfMapper(..) => Purpose::Mapper,
    }
}

/// A file of a directory that failed.
#[derive(Clone, Copy)]
pub(crate) struct FileFault {
    pub(crate) file: UcdFile,
    pub(crate) fault: Fault,
}

/// Memory ran out, which is said of the first file.
pub(crate) const OUT_OF_MEMORY: FileFault = FileFault {
    file: UcdFile::UnicodeData,
    fault: Fault::Memory,
};

/// The path of a file in a directory.
fn path(alloc: Global, directory: &str, file: UcdFile) -> Result<String, AllocError>
    ensures { IfOk result (λ path. string_bytes path ≡ path_of directory.now file) }
{
    let name = file.name();
    format!(in alloc; "{directory}/{name}")
}

/// The bytes of the files of a directory.
#[derive(Drop)]
pub(crate) struct DataFiles {
    pub(crate) unicode_data: Vec<u8>,
    pub(crate) exclusions: Vec<u8>,
    pub(crate) table: Option<Vec<u8>>,
}

impl DataFiles {
    /// The bytes of the mapping table; none if there isn't one.
    fn table_or_none(&self) -> &[u8]
        ensures { result.now ≡ unwrap_or (option_map (λ v. v.items) self.now.table) [] }
    {
        match &self.table {
            Some(table) => table,
            None => &[],
        }
    }
}

/// The bytes of the files that are needed.
pub(crate) fn read_files<I: Inputs>(
    alloc: Global,
    inputs: &I,
    directory: &str,
    purpose: Purpose,
) -> Result<DataFiles, FileFault>
    ensures files { IfOk result (λ r. AreFiles (I.files inputs.now) directory.now purpose
        r.unicode_data.items r.exclusions.items (option_map (λ v. v.items) r.table)) }
    ensures fault { IfErr result (λ e. IsReadFault (I.files inputs.now) directory.now purpose e.file e.fault) }
{
    let unicode_data = read_file(alloc, inputs, directory, UcdFile::UnicodeData)?;
    let exclusions = read_file(alloc, inputs, directory, UcdFile::CompositionExclusions)?;
    let table = read_table(alloc, inputs, directory, purpose)?;
    Ok(DataFiles {
        unicode_data,
        exclusions,
        table,
    })
}

/// The bytes of the mapping table, if it is needed.
fn read_table<I: Inputs>(
    alloc: Global,
    inputs: &I,
    directory: &str,
    purpose: Purpose,
) -> Result<Option<Vec<u8>>, FileFault>
    ensures table { IfOk result (λ t. IsTable (I.files inputs.now) directory.now purpose (option_map (λ v. v.items) t)) }
    ensures fault { IfErr result (λ e. IsReadFault (I.files inputs.now) directory.now purpose e.file e.fault) }
{
    if purpose == Purpose::Forms {
        return Ok(None);
    }
    match read_file(alloc, inputs, directory, UcdFile::IdnaMappingTable) {
        Ok(table) => Ok(Some(table)),
        Err(error) => match (purpose, error.fault) {
            (Purpose::Both, Fault::Open(ErrorKind::NotFound)) => Ok(None),
            _ => Err(error),
        },
    }
}

/// The bytes of a file of a directory.
pub(crate) fn read_file<I: Inputs>(
    alloc: Global,
    inputs: &I,
    directory: &str,
    file: UcdFile,
) -> Result<Vec<u8>, FileFault>
    ensures bytes { IfOk result (λ v. IsFile (I.files inputs.now) directory.now file v.items) }
    ensures fault { IfErr result (λ e. IsUnread (I.files inputs.now) directory.now e.file e.fault) }
    ensures file { IfErr result (λ e. e.file ≡ file) }
{
    let Ok(path) = path(alloc, directory, file) else {
        return Err(FileFault {
            file,
            fault: Fault::Memory,
        });
    };
    match read(alloc, inputs, path.as_str()) {
        Ok(bytes) => Ok(bytes),
        Err(fault) => Err(FileFault { file, fault }),
    }
}

/// The bytes of a file.
fn read<I: Inputs>(alloc: Global, inputs: &I, path: &str) -> Result<Vec<u8>, Fault>
    ensures opened { OnOk result ((I.files inputs.now).can_open path.now) }
    ensures bytes { IfOk result (λ v. IfSome ((I.files inputs.now).bytes_of path.now) (λ all. v.items ≡ all)) }
    ensures fault { IfErr result (IsFileFault ((I.files inputs.now).cannot_open path.now)
        ((I.files inputs.now).read_refused path.now) ⊥ ((I.files inputs.now).unrefused path.now)) }
{
    let mut input = inputs.open(path)?;
    Ok(read_all(alloc, &mut input)?)
}

/// The data that the records of the files build.
pub(crate) fn built(alloc: Global, files: &DataFiles) -> Result<Built, FileFault>
    ensures built { IfOk result (λ b. (records : List RecordValue) × (uts46 : List Uts46RecordValue) × AreRecorded
        files.now.unicode_data.items files.now.exclusions.items (option_map (λ v. v.items) files.now.table)
        records uts46 × Builds records uts46 (data_in b)) }
    ensures fault { IfErr result (λ e. IsFaultOf files.now.unicode_data.items files.now.exclusions.items
        (option_map (λ v. v.items) files.now.table) e.file e.fault) }
{
    let (records, ranges) = records_of(alloc, files)?;
    match Records::build_of_ranges(alloc, &records, &ranges) {
        Ok(built) => Ok(built),
        Err(error) => Err(of_ranges(alloc, files, &records, &ranges, error)),
    }
}

/// Why records of the files can't be built, those of the mapper listed by ranges.
fn of_ranges(
    alloc: Global,
    files: &DataFiles,
    records: &[Record],
    ranges: &[Uts46Range],
    error: BuildError,
) -> FileFault
    requires { IsSmallest records.now (flat_map entries_of ranges.now) error }
    ensures { IsFaultOfRecords (λ r. place_of_record files.now.unicode_data.items
        (unwrap_or (option_map (λ v. v.items) files.now.table) []) r) records.now (flat_map entries_of ranges.now)
        result.file result.fault }
{
    match records_fault(alloc, files, records, ranges, error) {
        Ok(fault) => FileFault {
            file: file_of(fault.place),
            fault: Fault::Records(fault),
        },
        Err(AllocError) => OUT_OF_MEMORY,
    }
}

/// The first record at fault, and the line that states it, unless memory ran out.
fn records_fault(
    alloc: Global,
    files: &DataFiles,
    records: &[Record],
    ranges: &[Uts46Range],
    error: BuildError,
) -> Result<RecordsFault, AllocError>
    requires { IsSmallest records.now (flat_map entries_of ranges.now) error }
    ensures { IfOk result (IsRecordsFault (λ r. place_of_record files.now.unicode_data.items
        (unwrap_or (option_map (λ v. v.items) files.now.table) []) r) records.now (flat_map entries_of ranges.now)) }
{
    if matches!(error, BuildError::Memory) {
        return Err(AllocError);
    }
    let uts46 = records_of_ranges(alloc, ranges)?;
    let at_fault = Records::first_at_fault(alloc, records, &uts46, error)?;
    let place = match at_fault {
        Some(at_fault) => place_of_record(
            alloc,
            &files.unicode_data,
            files.table_or_none(),
            at_fault,
        )?,
        None => None,
    };
    Ok(RecordsFault {
        error,
        at_fault,
        place,
    })
}

/// The file that states a record at fault.
fn file_of(place: Option<Place>) -> UcdFile
    ensures { result ≡ file_of place }
{
    match place {
        Some(place) => place.file,
        None => UcdFile::UnicodeData,
    }
}

/// The records that the files yield, those of the mapper by ranges.
fn records_of(alloc: Global, files: &DataFiles) -> Result<(Vec<Record>, Vec<Uts46Range>), FileFault>
    ensures recorded { IfOk result (λ r. AreRecorded
        files.now.unicode_data.items files.now.exclusions.items (option_map (λ v. v.items) files.now.table)
        r.0.items (flat_map entries_of r.1.items)) }
    ensures fault { IfErr result (λ e. IsFaultOf files.now.unicode_data.items files.now.exclusions.items
        (option_map (λ v. v.items) files.now.table) e.file e.fault) }
{
    let records = match records_of_unicode_data(alloc, &files.unicode_data, &files.exclusions) {
        Ok(records) => records,
        Err(error) => return Err(of_file(error)),
    };
    match mapper_ranges_of(alloc, files) {
        Ok(ranges) => Ok((records, ranges)),
        Err(error) => Err(of_file(error)),
    }
}

/// The ranges of the records that the mapping table yields, if there is one.
fn mapper_ranges_of(alloc: Global, files: &DataFiles) -> Result<Vec<Uts46Range>, UcdError>
    ensures { Gives (λ v. flat_map entries_of v.items) result
        (mapper_records_of files.now.exclusions.items (option_map (λ v. v.items) files.now.table)) }
{
    match &files.table {
        None => Ok(Vec::new(alloc)),
        Some(table) => {
            uts46_ranges_beside_exclusions(alloc, &files.exclusions, table, Disallowed::All)
        }
    }
}

/// The file that a line is of.
fn of_file(error: UcdError) -> FileFault
    ensures fault { result.fault ≡ fault_of_file error }
    ensures file { (fault : LineFault) → error ≡ UcdError.Line fault → result.file ≡ fault.place.file }
{
    match error {
        UcdError::Line(fault) => FileFault {
            file: fault.place.file,
            fault: Fault::Line(fault),
        },
        UcdError::Memory => OUT_OF_MEMORY,
    }
}
