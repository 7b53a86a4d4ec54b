//! The result of the program, and how it ends.
ghost use Rattle.std.specs.Prelude.{◌≡◌};
ghost use Rattle.normtool_command.specs.Endings.{line_of, status_of};
ghost use Rattle.normtool_command.specs.ReportedFaults.{fault_of, fault_of_build, fault_of_transfer};
ghost use Rattle.normtool_command.specs.declared.ending.ToolFault.TheVariants.{Memory};

use icu_normalizer::{BuildError, DataError};
use normalizer_io::{Answer, TransferError};
use std::alloc::AllocError;

/// Why a command has no result.
#[derive(Clone, Copy, Debug, PartialEq, Eq)]
pub enum ToolFault {
    /// A read of the input was refused.
    Read,
    /// A write of the output was refused.
    Write,
    /// There was not enough memory.
    Memory,
    /// The records build no data, the data are missing, or a constructor refused them.
    Data,
}

impl From<TransferError> for ToolFault {
    ghost from_gives = { λ error fault. fault ≡ fault_of_transfer error };

    fn from(error: TransferError) -> ToolFault {
        match error {
            TransferError::Read => ToolFault::Read,
            TransferError::Write => ToolFault::Write,
            TransferError::Memory => ToolFault::Memory,
        }
    }
}

impl From<DataError> for ToolFault {
    ghost from_gives = { λ error fault. fault ≡ fault_of error };

    fn from(error: DataError) -> ToolFault {
        match error {
            DataError::Memory => ToolFault::Memory,
            _ => ToolFault::Data,
        }
    }
}

impl From<BuildError> for ToolFault {
    ghost from_gives = { λ error fault. fault ≡ fault_of_build error };

    fn from(error: BuildError) -> ToolFault {
        match error {
            BuildError::Memory => ToolFault::Memory,
            _ => ToolFault::Data,
        }
    }
}

impl From<AllocError> for ToolFault {
    ghost from_gives = { λ _ fault. fault ≡ Memory };

    fn from(_error: AllocError) -> ToolFault {
        ToolFault::Memory
    }
}

/// Returns the exit status, and the line for standard error without its line feed: empty if there is none.
pub fn ending(outcome: &Result<Answer, ToolFault>) -> (u8, &'static str)
    ensures status { result.0 ≡ status_of outcome.now }
    ensures line { result.1.now ≡ line_of outcome.now }
{
    match outcome {
        Ok(Answer::Done) => (0, ""),
        Ok(Answer::No) => (1, ""),
        Err(ToolFault::Read) => (2, "normtool: read"),
        Err(ToolFault::Write) => (2, "normtool: write"),
        Err(ToolFault::Memory) => (2, "normtool: memory"),
        Err(ToolFault::Data) => (2, "normtool: data"),
    }
}
