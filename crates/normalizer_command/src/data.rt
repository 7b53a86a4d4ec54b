//! What works for a command by the data of a path.
ghost use Rattle.std.specs.Prelude.{◌≡◌, IfErr, IfOk, List, MatchOption, None, Some};
ghost use Rattle.icu_normalizer.specs.Building.{Builds};
ghost use Rattle.icu_normalizer.specs.RecordValue.{RecordValue, Uts46RecordValue};
ghost use Rattle.normalizer_prepared.specs.Prepared.{prepared_in};
ghost use Rattle.normalizer_command.specs.DataFaults.{IsDataFault, IsFilesFault};
ghost use Rattle.normalizer_command.specs.FileFaults.{IsFileFault};
ghost use Rattle.normalizer_command.specs.PreparedFiles.{work_of, IsByPrepared, IsFaultOfData, IsDirectory};
ghost use Rattle.normalizer_command.specs.PreparedFiles.{IsFaultOfPrepared, IsFileAt, LacksMapper};
ghost use Rattle.normalizer_command.specs.Runs.{IsByData};
ghost use Rattle.normalizer_command.specs.UnicodeFiles.{purpose_of, IsByFiles};
ghost use Rattle.normalizer_command.specs.Works.{work_by, Does};

use crate::command::Command;
use crate::devices::Inputs;
use crate::fault::{Fault, PreparedFault};
use crate::unicode_files::{FileFault, OUT_OF_MEMORY, built, purpose_of, read_files};
use crate::worker::{Worker, worker_for};
use icu_normalizer::{FormData, MappingData};
use normalizer_io::read_all;
use normalizer_prepared::PreparedData;
use normalizer_ucd::UcdFile;
use std::alloc::Global;

/// Why the data of a path failed, and which file of its directory, if one of them did.
#[derive(Clone, Copy)]
pub(crate) struct DataFault {
    pub(crate) file: Option<UcdFile>,
    pub(crate) fault: Fault,
}

impl From<FileFault> for DataFault {
    ghost from_gives = { λ error fault. fault ≡ record { file = Some error.file; fault = error.fault } };

    fn from(error: FileFault) -> DataFault {
        DataFault {
            file: Some(error.file),
            fault: error.fault,
        }
    }
}

impl From<Fault> for DataFault {
    ghost from_gives = { λ why fault. fault ≡ record { file = None; fault = why } };

    fn from(fault: Fault) -> DataFault {
        DataFault { file: None, fault }
    }
}

/// What works for a command by the data of a path: of a file of prepared data, or else of Unicode's files in a
/// directory.
pub(crate) fn worker_at<I: Inputs>(
    alloc: Global,
    inputs: &I,
    path: &str,
    command: Command,
) -> Result<Worker, DataFault>
    ensures does { IfOk result (λ worker. IsByData (I.files inputs.now) command path.now (Does worker)) }
    ensures fault { IfErr result (λ e. IsDataFault (I.files inputs.now) command path.now e.file e.fault) }
{
    match bytes_if_file(alloc, inputs, path)? {
        Some(prepared) => Ok(by_prepared(alloc, &prepared, command)?),
        None => Ok(by_files(alloc, inputs, path, command)?),
    }
}

/// The bytes of the file of a path, if it can be opened.
pub(crate) fn bytes_if_file<I: Inputs>(
    alloc: Global,
    inputs: &I,
    path: &str,
) -> Result<Option<Vec<u8>>, Fault>
    ensures bytes { IfOk result (λ file. MatchOption file (IsDirectory (I.files inputs.now) path.now)
        (λ v. IsFileAt (I.files inputs.now) path.now v.items)) }
    ensures fault { IfErr result (λ fault. (I.files inputs.now).can_open path.now
        × IsFileFault (λ _. ⊥) ((I.files inputs.now).read_refused path.now) ⊥
        ((I.files inputs.now).unrefused path.now) fault) }
{
    match inputs.open(path) {
        Ok(mut input) => Ok(Some(read_all(alloc, &mut input)?)),
        Err(_) => Ok(None),
    }
}

/// What works for a command by the bytes of a file of prepared data.
fn by_prepared(alloc: Global, prepared: &[u8], command: Command) -> Result<Worker, Fault>
    ensures does { IfOk result (λ worker. IsByPrepared prepared.now command (Does worker)) }
    ensures fault { IfErr result (IsFaultOfPrepared prepared.now command) }
{
    let read = PreparedData::read(alloc, prepared)?;
    worker_by(&read, command)
}

/// What works for a command by data, and so by the records that build them.
fn worker_by(read: &PreparedData, command: Command) -> Result<Worker, Fault>
    ensures does { IfOk result (λ worker. Does worker (work_of (prepared_in read.now) command)) }
    ensures suits { IfOk result (λ _. ¬ LacksMapper command (prepared_in read.now)) }
    ensures recorded { (records : List RecordValue) (uts46 : List Uts46RecordValue) →
        Builds records uts46 (prepared_in read.now) →
        IfOk result (λ worker. Does worker (work_by records uts46 command)) }
    ensures fault { IfErr result (IsFaultOfData command (prepared_in read.now)) }
{
    match command {
        Command::OfForm(task, mode, form) => {
            Ok(Worker::OfForm(task, mode, read.built.normalizer(form)?))
        }
        Command::OfMapper(..) if read.has_canonical_mapper() => {
            Err(Fault::Prepared(PreparedFault::NoMapper))
        }
        Command::OfMapper(task, mode) => Ok(Worker::OfMapper(task, mode, read.built.mapper()?)),
    }
}

/// What works for a command by Unicode's files in a directory.
fn by_files<I: Inputs>(
    alloc: Global,
    inputs: &I,
    directory: &str,
    command: Command,
) -> Result<Worker, FileFault>
    ensures does { IfOk result (λ worker. IsByFiles (I.files inputs.now) command directory.now (Does worker)) }
    ensures fault { IfErr result (λ e. IsFilesFault (I.files inputs.now) directory.now (purpose_of command) e.file e.fault) }
{
    let files = read_files(alloc, inputs, directory, purpose_of(command))?;
    let data = built(alloc, &files)?;
    match worker_for(&data, command) {
        Ok(worker) => Ok(worker),
        Err(_) => Err(OUT_OF_MEMORY),
    }
}
