//! Results, as rows write them.
use crate::language::fault::{Answer, Fault};
use icu_normalizer::{BuildError, DataError};
use std::alloc::Global;

/// A truth value as `yes` or `no`.
pub fn spelled_bool(alloc: Global, answer: bool) -> Answer {
    Ok(String::from_str(alloc, if answer { "yes" } else { "no" })?)
}

/// What a constructor or a test of data returned.
pub fn acceptance(alloc: Global, refusal: Option<DataError>) -> Answer {
    Ok(match refusal {
        None => String::from_str(alloc, "accepted")?,
        Some(DataError::Provider(marker)) => format!(in alloc; "Provider {marker:?}")?,
        Some(DataError::FutureExtension(marker)) => {
            format!(in alloc; "FutureExtension {marker:?}")?
        }
        Some(DataError::Invalid { marker, condition }) => {
            format!(in alloc; "Invalid {condition} {marker:?}")?
        }
        Some(DataError::Memory) => return Err(Fault::Memory),
    })
}

/// What `Records::build` returned.
pub fn building(alloc: Global, refusal: Option<BuildError>) -> Answer {
    Ok(match refusal {
        None => String::from_str(alloc, "ok")?,
        Some(BuildError::Unfit { marker, condition }) => {
            format!(in alloc; "Unfit {marker:?} {condition}")?
        }
        Some(BuildError::Memory) => return Err(Fault::Memory),
        Some(error) => format!(in alloc; "{error:?}")?,
    })
}
