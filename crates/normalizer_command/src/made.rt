//! What is written of the data of a path: their version, or the data as one file.
ghost use Rattle.std.specs.Prelude.{◌≡◌, ℕ, IfErr, IfOk, List, Ok, string_bytes};
ghost use Rattle.normalizer_prepared.specs.Files.{held_in, IsFirstFault};
ghost use Rattle.normalizer_prepared.specs.declared.fault.PreparedError.{PreparedError};
ghost use Rattle.normalizer_prepared.specs.declared.reading.PreparedData.{PreparedData};
ghost use Rattle.normalizer_ucd.specs.declared.error.UcdFile.TheVariants.{CompositionExclusions};
ghost use Rattle.normalizer_command.specs.DataFaults.{IsFilesFault, IsUnread};
ghost use Rattle.normalizer_command.specs.Devices.{devices};
ghost use Rattle.normalizer_command.specs.Made.{unicode_text, version_of, version_text, IsPrepared, IsPrepareRun};
ghost use Rattle.normalizer_command.specs.Made.{IsVersionFault, IsVersionRun, IsVersionText};
ghost use Rattle.normalizer_command.specs.Outcomes.{state};
ghost use Rattle.normalizer_command.specs.PreparedFiles.{fault_of_prepared};
ghost use Rattle.normalizer_command.specs.UnicodeFiles.{IsFile};
ghost use Rattle.normalizer_command.specs.declared.unicode_files.Purpose.TheVariants.{Both};
ghost use Rattle.normalizer_command.specs.inner.Writes.{IsWriteOf};

use crate::data::{DataFault, bytes_if_file};
use crate::devices::{Inputs, Reports};
use crate::fault::Fault;
use crate::run::failed;
use crate::unicode_files::{FileFault, OUT_OF_MEMORY, Purpose, built, read_file, read_files};
use normalizer_io::{Target, write_all};
use normalizer_prepared::{PreparedData, prepared_data};
use normalizer_ucd::{UcdFile, stated_version};
use std::alloc::{AllocError, Global};

/// A version of Unicode, or 0.0.0.
type Version = (u32, u32, u32);

/// Writes the version of the program, and that of Unicode, which the data of a path state. Returns the exit status: 0, or
/// 2 if that failed, which is reported.
pub fn write_version<I: Inputs, W: Target, R: Reports>(
    alloc: Global,
    path: &str,
    inputs: &I,
    writer: &mut W,
    reports: &mut R,
) -> u8
    ensures { IsVersionRun (devices (I.files inputs.now) W.bytes_taken W.refusal) path.now
        (state writer.old (R.reports reports.old) 0) (state writer.new (R.reports reports.new) result) }
{
    match version_at(alloc, path, inputs) {
        Ok(text) => write_made(path, text.as_bytes(), writer, reports),
        Err(error) => failed(path, error, reports),
    }
}

/// Writes the file of prepared data of Unicode's files in a directory, with those of its mapping table, if there is one.
/// Returns the exit status: 0, or 2 if that failed, which is reported.
pub fn write_prepared<I: Inputs, W: Target, R: Reports>(
    alloc: Global,
    directory: &str,
    inputs: &I,
    writer: &mut W,
    reports: &mut R,
) -> u8
    ensures { IsPrepareRun (devices (I.files inputs.now) W.bytes_taken W.refusal) directory.now
        (state writer.old (R.reports reports.old) 0) (state writer.new (R.reports reports.new) result) }
{
    match prepared(alloc, directory, inputs) {
        Ok(file) => write_made(directory, &file, writer, reports),
        Err(error) => failed(directory, DataFault::from(error), reports),
    }
}

/// Writes what was made of the data of a path, and returns the exit status.
fn write_made<W: Target, R: Reports>(
    path: &str,
    bytes: &[u8],
    writer: &mut W,
    reports: &mut R,
) -> u8
    ensures { IsWriteOf (W.bytes_taken writer.old) (W.bytes_taken writer.new) (W.refusal writer.old writer.new)
        path.now bytes.now (R.reports reports.old) (R.reports reports.new) result }
{
    match write_all(writer, bytes) {
        Ok(()) => 0,
        Err(_) => failed(path, DataFault::from(Fault::Write), reports),
    }
}

/// The versions, a line each.
fn version_at<I: Inputs>(alloc: Global, path: &str, inputs: &I) -> Result<String, DataFault>
    ensures text { IfOk result (λ text. IsVersionText (I.files inputs.now) path.now (string_bytes text)) }
    ensures why { IfErr result (λ e. IsVersionFault (I.files inputs.now) path.now e.file e.fault) }
{
    match bytes_if_file(alloc, inputs, path)? {
        Some(prepared) => Ok(text_of_file(alloc, &prepared)?),
        None => Ok(text_of_directory(alloc, path, inputs)?),
    }
}

/// The versions, by a file of prepared data.
fn text_of_file(alloc: Global, prepared: &[u8]) -> Result<String, Fault>
    ensures text { IfOk result (λ text. (held : PreparedData) × (held_in prepared.now ≡ Ok held)
        × (string_bytes text ≡ version_text held.version)) }
    ensures why { IfErr result (λ fault. (e : PreparedError) × IsFirstFault prepared.now e
        × (fault ≡ fault_of_prepared e)) }
{
    let read = PreparedData::read(alloc, prepared)?;
    match version_text(alloc, read.version) {
        Ok(text) => Ok(text),
        Err(AllocError) => Err(Fault::Memory),
    }
}

/// The versions, by the exclusions of a directory.
fn text_of_directory<I: Inputs>(alloc: Global, path: &str, inputs: &I) -> Result<String, FileFault>
    ensures text { IfOk result (λ text. (exclusions : List ℕ)
        × IsFile (I.files inputs.now) path.now CompositionExclusions exclusions
        × (string_bytes text ≡ version_text (version_of exclusions))) }
    ensures why { IfErr result (λ e. IsUnread (I.files inputs.now) path.now e.file e.fault) }
{
    let file = UcdFile::CompositionExclusions;
    let exclusions = read_file(alloc, inputs, path, file)?;
    match text_of(alloc, &exclusions) {
        Ok(text) => Ok(text),
        Err(AllocError) => Err(FileFault {
            file,
            fault: Fault::Memory,
        }),
    }
}

fn text_of(alloc: Global, exclusions: &[u8]) -> Result<String, AllocError>
    ensures { IfOk result (λ text. string_bytes text ≡ version_text (version_of exclusions.now)) }
{
    version_text(alloc, version_of(alloc, exclusions)?)
}

/// The version of Unicode that the exclusions state, or 0.0.0.
fn version_of(alloc: Global, exclusions: &[u8]) -> Result<Version, AllocError>
    ensures { IfOk result (λ version. version ≡ version_of exclusions.now) }
{
    match stated_version(alloc, exclusions)? {
        Some(version) => Ok((version.major, version.minor, version.update)),
        None => Ok((0, 0, 0)),
    }
}

fn version_text(alloc: Global, version: Version) -> Result<String, AllocError>
    ensures { IfOk result (λ text. string_bytes text ≡ version_text version) }
{
    let unicode = unicode_text(alloc, version)?;
    format!(in alloc; "uninorm 1.0.0\n{unicode}\n")
}

fn unicode_text(alloc: Global, version: Version) -> Result<String, AllocError>
    ensures { IfOk result (λ text. string_bytes text ≡ unicode_text version) }
{
    let (major, minor, update) = version;
    if major == 0 {
        return String::from_str(alloc, "Unicode of a version that the data don't state");
    }
    format!(in alloc; "Unicode {major}.{minor}.{update}")
}

fn prepared<I: Inputs>(alloc: Global, directory: &str, inputs: &I) -> Result<Vec<u8>, FileFault>
    ensures file { IfOk result (λ file. IsPrepared (I.files inputs.now) directory.now file.items) }
    ensures fault { IfErr result (λ e. IsFilesFault (I.files inputs.now) directory.now Both e.file e.fault) }
{
    let files = read_files(alloc, inputs, directory, Purpose::Both)?;
    let data = built(alloc, &files)?;
    let Ok(version) = version_of(alloc, &files.exclusions) else {
        return Err(OUT_OF_MEMORY);
    };
    match prepared_data(alloc, &data, version) {
        Ok(file) => Ok(file),
        Err(_) => Err(OUT_OF_MEMORY),
    }
}
