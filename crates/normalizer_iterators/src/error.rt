//! Errors of normalization.
ghost use Rattle.std.specs.Prelude.{◌≡◌};

use normalizer_text::sink::SinkError;
use std::alloc::AllocError;
use thiserror::Error;

/// Why text could not be normalized. The same call may be made again.
#[derive(Debug, PartialEq, Eq, Drop, Error)]
pub enum NormalizeError {
    /// An allocation failed.
    #[error("out of memory")]
    Memory,
    /// The sink refused a call. A string or vector does so if a growth failed.
    #[error("the sink refused a write")]
    Sink,
}

impl From<AllocError> for NormalizeError {
    ghost use Rattle.normalizer_iterators.specs.declared.error.NormalizeError.TheVariants.{Memory};

    ghost from_gives = { λ _ fault. fault ≡ Memory };

    fn from(_error: AllocError) -> NormalizeError {
        NormalizeError::Memory
    }
}

impl From<SinkError> for NormalizeError {
    ghost use Rattle.normalizer_iterators.specs.declared.error.NormalizeError.TheVariants.{Sink};

    ghost from_gives = { λ _ fault. fault ≡ Sink };

    fn from(_refusal: SinkError) -> NormalizeError {
        NormalizeError::Sink
    }
}
