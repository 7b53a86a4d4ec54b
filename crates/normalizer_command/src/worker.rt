//! What works for a command.
ghost use Rattle.std.specs.Prelude.{◌≡◌, ◌⊎◌, IfErr, IfOk, List};
ghost use Rattle.icu_normalizer.specs.Building.{Builds};
ghost use Rattle.icu_normalizer.specs.Built.{AreBuilt, data_in};
ghost use Rattle.icu_normalizer.specs.RecordValue.{RecordValue, Uts46RecordValue};
ghost use Rattle.normalizer_streams.specs.Streams.{IsEndless};
ghost use Rattle.normalizer_command.specs.FileFaults.{IsReadUnrefused, IsTransferFault};
ghost use Rattle.normalizer_command.specs.InPlace.{is_done, IsInForm};
ghost use Rattle.normalizer_command.specs.Works.{work_by, Does, Work};
ghost use Rattle.normalizer_command.specs.Written.{IsOutcome};

use crate::command::{Command, Listing, MapperTask, Task};
use crate::fault::Fault;
use crate::reply::{Answer, compared, write_known};
use icu_normalizer::uts46::Uts46Mapper;
use icu_normalizer::{AnyNormalizer, Built, built_mapper, normalizer_to};
use normalizer_io::{Source, Target};
use normalizer_streams::{ErrorMode, write_form};
use std::alloc::Global;

/// A command with what it needs.
#[derive(Drop)]
pub(crate) enum Worker {
    /// Something of a normal form.
    OfForm(Task, ErrorMode, AnyNormalizer),
    /// Something of the mapper.
    OfMapper(MapperTask, ErrorMode, Uts46Mapper),
}

/// Returns what works for a command, by what the records mean.
///
/// # Errors
/// `Memory` if an allocation failed.
pub(crate) fn worker_for(built: &Built, command: Command) -> Result<Worker, Fault>
    requires { AreBuilt (data_in built.now) }
    ensures does { (records : List RecordValue) (uts46 : List Uts46RecordValue) →
        Builds records uts46 (data_in built.now) → IfOk result (λ worker. Does worker (work_by records uts46 command)) }
    ensures refused { IfErr result (λ fault. fault ≡ Fault.Memory) }
{
    match command {
        Command::OfForm(task, mode, form) => {
            Ok(Worker::OfForm(task, mode, normalizer_to(built, form)?))
        }
        Command::OfMapper(task, mode) => match built_mapper(built) {
            Ok(mapper) => Ok(Worker::OfMapper(task, mode, mapper)),
            Err(_) => Err(Fault::Memory),
        },
    }
}

impl Worker {
    /// Does its work with what an open file has, and writes the reply.
    pub(crate) fn handle<S: Source, W: Target>(
        &self,
        alloc: Global,
        name: &str,
        input: &mut S,
        writer: &mut W,
    ) -> Result<Answer, Fault>
        ensures { (w : Work) → Does self.now w → IsOutcome w name.now
            (S.bytes_left input.old) (W.bytes_taken writer.old) (W.bytes_taken writer.new)
            (IsTransferFault S.bytes_left S.refusal W.refusal (input.old, writer.old) (input.new, writer.new))
            (writer.new ≡ writer.old) result }
    {
        match self {
            Worker::OfForm(Task::Write, mode, normalizer) => {
                let ending = write_form(alloc, *mode, normalizer, input, writer)?;
                Ok(Answer::Ended(ending))
            }
            Worker::OfForm(Task::Compare(listing), mode, normalizer) => {
                let reply = compared(alloc, *listing, *mode, normalizer, name, input);
                write_known(reply, writer)
            }
            Worker::OfMapper(task, mode, mapper) => {
                task.handle(alloc, *mode, mapper, name, input, writer)
            }
        }
    }

    /// Whether what an open file has is in the form already; mapped lines never are.
    pub(crate) fn is_in_form<S: Source>(
        &self,
        alloc: Global,
        name: &str,
        input: &mut S,
    ) -> Result<bool, Fault>
        ensures same { (w : Work) → Does self.now w → IfOk result (IsInForm w name.now (S.bytes_left input.old)) }
        ensures fault { IfErr result (λ fault.
            ((fault ≡ Fault.Read) × (S.refusal input.old input.new ⊎ IsEndless (S.bytes_left input.old)))
            ⊎ ((fault ≡ Fault.Memory) × IsReadUnrefused (S.bytes_left input.new) S.refusal input.old input.new)) }
    {
        match self {
            Worker::OfForm(_, mode, normalizer) => {
                let reply = compared(alloc, Listing::Nothing, *mode, normalizer, name, input)?;
                Ok(is_done(reply.answer))
            }
            Worker::OfMapper(..) => Ok(false),
        }
    }
}

fn is_done(answer: Answer) -> bool
    ensures { result ≡ is_done answer }
{
    matches!(answer, Answer::Done)
}
