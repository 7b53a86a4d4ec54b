//! Questions about records: what is recorded, how many there are, and the text of the error if they build no data.
use crate::language::fault::{Answer, Fault};
use crate::language::record_rows::{spelled_mapper_record, spelled_record};
use crate::language::setting::Setting;
use crate::language::words::{character, only};
use icu_normalizer::{BuildError, Record, Uts46Record};
use std::alloc::Global;

/// The text of the error, or `none`.
pub fn said(setting: &Setting) -> Answer {
    match setting.refusal() {
        None => Ok(String::from_str(setting.alloc, "none")?),
        Some(BuildError::Memory) => Err(Fault::Memory),
        Some(error) => Ok(format!(in setting.alloc; "{error}")?),
    }
}

/// What is recorded of a character.
pub fn record(alloc: Global, records: &[Record], question: &[&str]) -> Answer {
    let c = character(only(question)?)?;
    match records.iter().find(|record| record.c == c) {
        Some(record) => spelled_record(alloc, record),
        None => Ok(String::from_str(alloc, "none")?),
    }
}

/// What is recorded of a character for the mapper.
pub fn mapper_record(alloc: Global, records: &[Uts46Record], question: &[&str]) -> Answer {
    let c = character(only(question)?)?;
    match records.iter().find(|record| record.c == c) {
        Some(record) => spelled_mapper_record(alloc, record),
        None => Ok(String::from_str(alloc, "none")?),
    }
}

/// How many records there are, or how many of the mapper.
pub fn count(alloc: Global, setting: &Setting, question: &[&str]) -> Answer {
    let count = match question {
        ["records"] => setting.records.len(),
        ["mapper"] => setting.mapper.len(),
        _ => return Err(Fault::Unreadable),
    };
    Ok(format!(in alloc; "{count}")?)
}
