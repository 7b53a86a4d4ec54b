//! Where data are wrong.
ghost use Rattle.std.specs.Prelude.{◌≡◌};
ghost use Rattle.normalizer_handles.specs.Defects.{
  character_at_fault,
  condition_of_error,
  defect_after,
  defect_at,
  defect_in,
  number_of_error,
  number_of_fault,
  number_of_file,
  number_of_problem,
};
ghost use Rattle.normalizer_handles.specs.Status.{status_of};

use crate::fault::{Fault, RecordsFault, status};
use icu_normalizer::{BuildError, RecordAtFault};
use normalizer_prepared::Fault as FileFault;
use normalizer_ucd::{Problem, UcdFile};

/// Where data are wrong, and what is wrong there.
#[repr(C)]
#[derive(Clone, Copy)]
pub struct Defect {
    /// The line of a file, from 1; or how many bytes of a file of prepared data come before what is wrong.
    pub place: usize,
    /// The number of a file, or of the records together.
    pub source: u32,
    /// The number of what is wrong.
    pub reason: u32,
    /// The character of the record that is wrong, or 0x110000.
    pub character: u32,
    /// The number of the written condition that data break, or 0.
    pub condition: u32,
}

/// The number after the last code point, in place of a character.
const NO_CHARACTER: u32 = 0x11_0000;

fn number_of_file(file: UcdFile) -> u32
    ensures { result ≡ number_of_file file }
{
    match file {
        UcdFile::UnicodeData => 0,
        UcdFile::CompositionExclusions => 1,
        UcdFile::IdnaMappingTable => 2,
    }
}

fn number_of_problem(problem: Problem) -> u32
    ensures { result ≡ number_of_problem problem }
{
    match problem {
        Problem::MissingField => 1,
        Problem::CodePoint => 2,
        Problem::Class => 3,
        Problem::Mapping => 4,
        Problem::Status => 5,
        Problem::Order => 6,
        Problem::Range => 7,
        Problem::NotACharacter => 8,
        Problem::CutOff => 19,
        Problem::Unmapped => 20,
        Problem::NoEndMark => 21,
        Problem::Gap => 22,
        Problem::TooShort => 23,
        Problem::OtherVersion => 24,
    }
}

fn number_of_error(error: BuildError) -> u32
    ensures { result ≡ number_of_error error }
{
    match error {
        BuildError::Order => 10,
        BuildError::Fixed => 11,
        BuildError::Class => 12,
        BuildError::Mapping => 13,
        BuildError::Chain => 14,
        BuildError::Length => 15,
        BuildError::Pair => 16,
        BuildError::Unfit { .. } => 17,
        BuildError::TableFull => 18,
        BuildError::Memory => 0,
    }
}

fn number_of_fault(fault: FileFault) -> u32
    ensures { result ≡ number_of_fault fault }
{
    match fault {
        FileFault::Magic => 25,
        FileFault::Version => 26,
        FileFault::Length => 27,
        FileFault::Sum => 28,
        FileFault::Short => 29,
        FileFault::Runs => 31,
        FileFault::Scalar => 32,
        FileFault::Trailing => 33,
    }
}

fn condition_of_error(error: BuildError) -> u32
    ensures { result ≡ condition_of_error error }
{
    match error {
        BuildError::Unfit { condition, .. } => u32::from(condition),
        _ => 0,
    }
}

/// The character of a record at fault.
fn character_at_fault(at_fault: Option<RecordAtFault>) -> u32
    ensures { result ≡ character_at_fault at_fault }
{
    match at_fault {
        Some(RecordAtFault::OfCharacter(c) | RecordAtFault::OfMapper(c)) => c as u32,
        None => NO_CHARACTER,
    }
}

impl Defect {
    /// A defect of data at a place, of which no character is stated.
    fn at(place: usize, source: u32, reason: u32, condition: u32) -> Defect
        ensures { result ≡ defect_in place source reason condition }
    {
        Defect {
            place,
            source,
            reason,
            character: NO_CHARACTER,
            condition,
        }
    }

    /// A defect of records.
    fn of_records(fault: RecordsFault) -> Defect
        ensures { result ≡ defect_at fault fault.place }
    {
        let (place, source) = match fault.place {
            Some(place) => (place.line, number_of_file(place.file)),
            None => (0, 4),
        };
        Defect {
            place,
            source,
            reason: number_of_error(fault.error),
            character: character_at_fault(fault.at_fault),
            condition: condition_of_error(fault.error),
        }
    }
}

/// Reports a defect of data, and returns the status.
pub fn status_reporting(outcome: Result<(), Fault>, defect: &mut Defect) -> u32
    ensures status { result ≡ status_of outcome }
    ensures defect { defect.new ≡ defect_after outcome defect.old }
{
    match outcome {
        Err(Fault::Line(fault)) => {
            let source = number_of_file(fault.place.file);
            *defect = Defect::at(
                fault.place.line,
                source,
                number_of_problem(fault.problem),
                0,
            );
        }
        Err(Fault::Records(fault)) => *defect = Defect::of_records(fault),
        Err(Fault::Prepared(fault, offset)) => {
            *defect = Defect::at(offset, 6, number_of_fault(fault), 0);
        }
        Err(Fault::Unfit(condition)) => *defect = Defect::at(0, 6, 17, u32::from(condition)),
        _ => {}
    }
    status(outcome)
}
