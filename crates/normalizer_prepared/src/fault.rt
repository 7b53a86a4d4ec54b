//! What may be wrong with prepared data.
ghost use Rattle.std.specs.Prelude.{◌≡◌};
ghost use Rattle.normalizer_prepared.specs.declared.fault.ReadError.TheVariants.{Memory};

use std::alloc::{AllocError, AllocFailed};
use thiserror::Error;

/// What is wrong with bytes: the first fault from left to right.
#[derive(Clone, Copy, Debug, PartialEq, Eq, Error)]
pub enum Fault {
    /// The first four bytes are others.
    #[error("it isn't a file of prepared data")]
    Magic,
    /// The format is of another version.
    #[error("the format is of another version")]
    Version,
    /// The length of the file is another.
    #[error("the file has another length")]
    Length,
    /// A sum of the bytes is another.
    #[error("a sum of the bytes is another")]
    Sum,
    /// A byte is missing.
    #[error("the file is cut off")]
    Short,
    /// The runs of a table aren't those of all code points.
    #[error("the runs of a table aren't those of all code points")]
    Runs,
    /// A number isn't that of a character.
    #[error("a number isn't that of a character")]
    Scalar,
    /// There are bytes after the data.
    #[error("there are more bytes")]
    Trailing,
}

/// Why prepared data could not be read.
#[derive(Clone, Copy, Debug, PartialEq, Eq, Error)]
pub enum PreparedError {
    /// A fault, and the offset of the field that has it.
    #[error("{fault} at byte {offset}")]
    Wrong {
        /// What is wrong.
        fault: Fault,
        /// How many bytes are before it.
        offset: usize,
    },
    /// An allocation failed.
    #[error("out of memory")]
    Memory,
}

/// Why a field could not be read.
#[derive(Debug, Drop)]
pub(crate) enum ReadError {
    /// A fault, and how many bytes are left where it is.
    Wrong(Fault, usize),
    /// An allocation failed.
    Memory,
}

impl From<AllocError> for ReadError {
    ghost from_gives = { λ _ e. e ≡ Memory };

    fn from(_error: AllocError) -> ReadError {
        ReadError::Memory
    }
}

impl<T: Drop> From<AllocFailed<T>> for ReadError {
    ghost from_gives = { λ _ e. e ≡ Memory };

    fn from(_error: AllocFailed<T>) -> ReadError {
        ReadError::Memory
    }
}
