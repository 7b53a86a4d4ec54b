//! Why a call failed, as a number.
ghost use Rattle.std.specs.Prelude.{◌≡◌};
ghost use Rattle.normalizer_handles.specs.Status.{fault_of_data, fault_of_file, fault_of_prepared, number_of};
ghost use Rattle.normalizer_handles.specs.Status.{status_of};

use icu_normalizer::{BuildError, DataError, NormalizeError, RecordAtFault};
use normalizer_prepared::{Fault as FileFault, PreparedError};
use normalizer_ucd::{LineFault, Place, UcdError};
use std::alloc::{AllocError, AllocFailed};

/// Why a call failed.
#[derive(Clone, Copy, Debug, PartialEq, Eq)]
pub enum Fault {
    /// The buffer is too small for what is written.
    BufferTooSmall,
    /// An allocation failed.
    Memory,
    /// No form has this number.
    UnknownForm,
    /// The handle has no normalizers.
    NotOpen,
    /// A line of a data file is wrong.
    Line(LineFault),
    /// The records can't be built.
    Records(RecordsFault),
    /// The handle has no mapper.
    NoMapper,
    /// A file of prepared data has a fault at this offset.
    Prepared(FileFault, usize),
    /// Its data break the written condition of this number.
    Unfit(u8),
}

/// Why records, together, can't be built.
#[derive(Clone, Copy, Debug, PartialEq, Eq)]
pub struct RecordsFault {
    /// What is wrong.
    pub error: BuildError,
    /// The first record at fault, if a single one is.
    pub at_fault: Option<RecordAtFault>,
    /// The line that states it, if that is known.
    pub place: Option<Place>,
}

impl Fault {
    /// Returns the number of the fault in C.
    fn number(self) -> u32
        ensures { result ≡ number_of self }
    {
        match self {
            Fault::BufferTooSmall => 1,
            Fault::Memory => 2,
            Fault::UnknownForm => 3,
            Fault::NotOpen => 4,
            Fault::Line(_) => 5,
            Fault::Records(_) => 6,
            Fault::NoMapper => 7,
            Fault::Prepared(..) | Fault::Unfit(_) => 10,
        }
    }
}

/// Returns the status of a call in C: 0, or the number of its fault.
pub fn status(outcome: Result<(), Fault>) -> u32
    ensures { result ≡ status_of outcome }
{
    match outcome {
        Ok(()) => 0,
        Err(fault) => fault.number(),
    }
}

impl From<UcdError> for Fault {
    ghost from_gives = { λ error fault. fault ≡ fault_of_file error };

    fn from(error: UcdError) -> Fault {
        match error {
            UcdError::Line(fault) => Fault::Line(fault),
            UcdError::Memory => Fault::Memory,
        }
    }
}

impl From<PreparedError> for Fault {
    ghost from_gives = { λ error fault. fault ≡ fault_of_prepared error };

    fn from(error: PreparedError) -> Fault {
        match error {
            PreparedError::Wrong { fault, offset } => Fault::Prepared(fault, offset),
            PreparedError::Memory => Fault::Memory,
        }
    }
}

impl From<NormalizeError> for Fault {
    ghost use Rattle.normalizer_handles.specs.declared.fault.Fault.TheVariants.{Memory};

    ghost from_gives = { λ _ fault. fault ≡ Memory };

    /// No call here writes to a sink.
    fn from(_error: NormalizeError) -> Fault {
        Fault::Memory
    }
}

impl From<AllocError> for Fault {
    ghost use Rattle.normalizer_handles.specs.declared.fault.Fault.TheVariants.{Memory};

    ghost from_gives = { λ _ fault. fault ≡ Memory };

    fn from(_error: AllocError) -> Fault {
        Fault::Memory
    }
}

impl From<DataError> for Fault {
    ghost from_gives = { λ error fault. fault ≡ fault_of_data error };

    fn from(error: DataError) -> Fault {
        match error {
            DataError::Invalid { condition, .. } => Fault::Unfit(condition),
            DataError::FutureExtension(_) => Fault::Unfit(1),
            DataError::Provider(_) => Fault::Unfit(0),
            DataError::Memory => Fault::Memory,
        }
    }
}

impl<T: Drop> From<AllocFailed<T>> for Fault {
    ghost use Rattle.normalizer_handles.specs.declared.fault.Fault.TheVariants.{Memory};

    ghost from_gives = { λ _ fault. fault ≡ Memory };

    fn from(_error: AllocFailed<T>) -> Fault {
        Fault::Memory
    }
}
