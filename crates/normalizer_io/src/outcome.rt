//! What comes of a task over bytes.
ghost use Rattle.std.specs.Prelude.{◌≡◌};

use std::alloc::{AllocError, AllocFailed};

/// The result of a task that was done.
#[derive(Clone, Copy, Debug, PartialEq, Eq)]
pub enum Answer {
    /// The output was written, or the result is yes.
    Done,
    /// The result is no.
    No,
}

/// Why bytes were not read or written.
#[derive(Clone, Copy, Debug, PartialEq, Eq)]
pub enum TransferError {
    /// A read of the source was refused.
    Read,
    /// A write to the target was refused.
    Write,
    /// There was not enough memory.
    Memory,
}

impl From<AllocError> for TransferError {
    ghost use Rattle.normalizer_io.specs.declared.outcome.TransferError.TheVariants.{Memory};

    ghost from_gives = { λ _ error. error ≡ Memory };

    fn from(_error: AllocError) -> TransferError {
        TransferError::Memory
    }
}

impl<T: Drop> From<AllocFailed<T>> for TransferError {
    ghost use Rattle.normalizer_io.specs.declared.outcome.TransferError.TheVariants.{Memory};

    ghost from_gives = { λ _ error. error ≡ Memory };

    fn from(_error: AllocFailed<T>) -> TransferError {
        TransferError::Memory
    }
}
