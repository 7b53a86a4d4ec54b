//! Why a row has no result.
use icu_normalizer::{BuildError, DataError, NormalizeError, TableError};
use std::alloc::{AllocError, AllocFailed};
use std::num::ParseIntError;

/// Why a row has no result.
#[derive(Clone, Copy, Debug, PartialEq, Eq)]
pub enum Fault {
    /// The row can't be read.
    Unreadable,
    /// The data are refused, or the part that is needed is not there.
    Refused,
    /// Calls that must have the same result had two.
    Divided,
    /// There was not enough memory.
    Memory,
    /// There was not enough memory for the first item of an iterator, which had no other.
    MemoryOfItem,
    /// A call was not to be made.
    Stopped,
}

/// The result of a question.
pub type Answer = Result<String, Fault>;

impl Fault {
    /// What is written in place of a result.
    pub fn name(self) -> &'static str {
        match self {
            Fault::Unreadable => "unreadable",
            Fault::Refused => "refused",
            Fault::Divided => "different ways to ask have different answers",
            Fault::Memory | Fault::MemoryOfItem => "out of memory",
            Fault::Stopped => "stopped",
        }
    }
}

/// Whether calls that must have the same result had it.
pub fn agreed(agree: bool) -> Result<(), Fault> {
    if agree { Ok(()) } else { Err(Fault::Divided) }
}

impl From<AllocError> for Fault {
    fn from(_error: AllocError) -> Fault {
        Fault::Memory
    }
}

impl<T: Drop> From<AllocFailed<T>> for Fault {
    fn from(_error: AllocFailed<T>) -> Fault {
        Fault::Memory
    }
}

impl From<ParseIntError> for Fault {
    fn from(_error: ParseIntError) -> Fault {
        Fault::Unreadable
    }
}

impl From<NormalizeError> for Fault {
    fn from(_error: NormalizeError) -> Fault {
        Fault::Memory
    }
}

impl From<DataError> for Fault {
    fn from(error: DataError) -> Fault {
        match error {
            DataError::Memory => Fault::Memory,
            _ => Fault::Refused,
        }
    }
}

impl From<BuildError> for Fault {
    fn from(error: BuildError) -> Fault {
        match error {
            BuildError::Memory => Fault::Memory,
            _ => Fault::Refused,
        }
    }
}

impl From<TableError> for Fault {
    fn from(error: TableError) -> Fault {
        match error {
            TableError::Memory => Fault::Memory,
            TableError::Ranges => Fault::Refused,
        }
    }
}
