//! The program over any devices: which command its words name, what it reads and writes, and how it ends.
ghost use Rattle.std.specs.Prelude.{◌≡◌, ◌⊎◌, IfErr, IfOk, IsErrOf, map, string_bytes};
ghost use Rattle.icu_normalizer.specs.Building.{Builds};
ghost use Rattle.icu_normalizer.specs.Built.{data_in};
ghost use Rattle.normtool_command.specs.Needs.{held, AreNeedsMet};
ghost use Rattle.normtool_command.specs.Outcome.{IsOutcome};
ghost use Rattle.normtool_command.specs.RecordSets.{AreRefused, mapper_records_of, records_of};
ghost use Rattle.normtool_command.specs.Runs.{devices, IsProgram, IsRun};
ghost use Rattle.normtool_command.specs.SetOutcome.{IsOutcomeOver};

use crate::arguments::{Command, RecordSet, USAGE, words};
use crate::ending::{ToolFault, ending};
use crate::set::{mapper_records, records};
use crate::worker::Worker;
use icu_normalizer::{Built, FormData, MappingData, Records};
use normalizer_io::{Answer, Source, Target, read_all, write_all};
use std::alloc::Global;

/// Runs the command that the words after the program's name name. Returns the exit status, and the line for standard
/// error without its line feed: empty if there is none. Words that name no command leave both devices as they are.
pub fn program<R: Source, W: Target>(
    alloc: Global,
    all: &[String],
    reader: &mut R,
    writer: &mut W,
) -> (u8, &'static str)
    ensures { IsProgram (devices R.bytes_left R.refusal W.bytes_taken W.refusal) (map string_bytes all.now)
        (reader.old, writer.old) (reader.new, writer.new) result.0 result.1.now }
{
    match words(all) {
        None => (2, USAGE),
        Some((records, command)) => ending(&run_over(alloc, records, command, reader, writer)),
    }
}

/// Builds the data of the records, and runs the command over them.
///
/// # Errors
/// - `Data` if the records build no data. Nothing was read.
/// - `Read` if a read failed, `Memory` if an allocation was. Nothing was written.
/// - `Write` if a write failed. A beginning of the output was written.
pub fn run_over<R: Source, W: Target>(
    alloc: Global,
    records: RecordSet,
    command: Command,
    reader: &mut R,
    writer: &mut W,
) -> Result<Answer, ToolFault>
    ensures { IsRun (devices R.bytes_left R.refusal W.bytes_taken W.refusal) (IsOutcomeOver records command)
        (reader.old, writer.old) (reader.new, writer.new) result }
{
    let data = built(alloc, records)?;
    run(alloc, &data, command, reader, writer)
}

/// Returns the data that the records of a set build.
///
/// # Errors
/// `Data` if the records build none, `Memory` if an allocation failed.
pub fn built(alloc: Global, set: RecordSet) -> Result<Built, ToolFault>
    ensures ok { IfOk result (λ b. Builds (records_of set) (mapper_records_of set) (data_in b)) }
    ensures data { IsErrOf result ToolFault.Data → AreRefused (records_of set) (mapper_records_of set) }
    ensures errors { IfErr result (λ fault. (fault ≡ ToolFault.Data) ⊎ (fault ≡ ToolFault.Memory)) }
{
    match set {
        RecordSet::Rows => {
            let (records, mapper) = (records(alloc)?, mapper_records(alloc)?);
            Ok(Records::build(alloc, &records, &mapper)?)
        }
        RecordSet::Nothing => Ok(Records::build(alloc, &[], &[])?),
    }
}

/// Makes what the command needs, reads the input to its end, computes, and only then writes.
///
/// # Errors
/// - `Data` if data that the command needs are missing or refused. Nothing was read.
/// - `Read` if a read failed, `Memory` if an allocation was. Nothing was written.
/// - `Write` if a write failed. A beginning of the output was written.
pub fn run<P: FormData + MappingData, R: Source, W: Target>(
    alloc: Global,
    provider: &P,
    command: Command,
    reader: &mut R,
    writer: &mut W,
) -> Result<Answer, ToolFault>
    // The reply, over what is held.
    ensures reply { IsRun (devices R.bytes_left R.refusal W.bytes_taken W.refusal)
        (IsOutcome command (held (P.held_for_forms provider.now) (P.held_for_mapper provider.now)))
        (reader.old, writer.old) (reader.new, writer.new) result }

    // Whether what is held is accepted.
    ensures data { AreNeedsMet command
        (held (P.held_for_forms provider.now) (P.held_for_mapper provider.now)) result }
{
    let worker = Worker::new(provider, command)?;
    let input = read_all(alloc, reader)?;
    let Ok((answer, output)) = worker.reply(alloc, &input) else {
        return Err(ToolFault::Memory);
    };
    write_all(writer, output.as_bytes())?;
    Ok(answer)
}
