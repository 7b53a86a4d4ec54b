//! The calls that make a form of files or records. `by-files nfc 0061 0308 | LINES | LINES = 00E4`: by `UnicodeData.txt`
//! and `CompositionExclusions.txt`. `by-records nfc 0061 0308 = 00E4`: by the records; `by-prepared`: by the file of
//! prepared data that they build, in which `| 9 FF` sets the byte 9 of the data, after a header of their own. The result
//! may be the text of a fault. `text sink = the sink refused a write`: a text that no other row can cause; `text markers`:
//! the places of the markers.
use crate::files::prepared::{data_of, file_of, prepared_file, with_byte};
use crate::files::{file, goes_past, parts, said};
use icu_normalizer::{
    BuildError, DataError, DataMarker, NormalizeError, NormalizerNfcV1, NormalizerNfdDataV1,
    NormalizerNfdSupplementV1, NormalizerNfdTablesV1, NormalizerNfkdDataV1, NormalizerNfkdTablesV1,
    NormalizerUts46DataV1, TableError,
};
use normalizer_by_files::{
    PreparedFault, UnicodeFault, form_by_prepared_data, form_by_records, form_by_unicode_data,
};
use rows_questions::language::fault::{Answer, Fault};
use rows_questions::language::input::text;
use rows_questions::language::setting::Setting;
use rows_questions::language::words::{Spelled, decimal, first_of, form_named, spelled_all};
use std::alloc::Global;

/// A form, or nothing after a call.
fn spelled(alloc: Global, stop: &str, form: &[char]) -> Answer {
    if stop == "call" {
        Ok(String::new(alloc))
    } else {
        spelled_all(alloc, form)
    }
}

/// The form by two files, or the fault.
pub fn by_files(alloc: Global, stop: &str, question: &[&str]) -> Answer {
    let parts = parts(alloc, question)?;
    let [input, unicode_data, exclusions] = parts.as_slice() else {
        return Err(Fault::Unreadable);
    };
    let (form, characters) = first_of(input)?;
    let form = form_named(form)?;
    let text = text(alloc, characters)?;
    let unicode_data = file(alloc, unicode_data)?;
    let exclusions = file(alloc, exclusions)?;
    goes_past(stop)?;
    match form_by_unicode_data(alloc, &unicode_data, &exclusions, form, text.as_bytes()) {
        Ok(form) => spelled(alloc, stop, &form),
        Err(UnicodeFault::File(error)) => said(alloc, &error),
        Err(UnicodeFault::Records(error)) => said(alloc, &error),
    }
}

/// The form by the records.
pub fn by_records(setting: &Setting, stop: &str, question: &[&str]) -> Answer {
    let alloc = setting.alloc;
    let (form, characters) = first_of(question)?;
    let form = form_named(form)?;
    let text = text(alloc, characters)?;
    goes_past(stop)?;
    let (records, mapper) = (&setting.records, &setting.mapper);
    let form = form_by_records(alloc, records, mapper, form, text.as_bytes())?;
    spelled(alloc, stop, &form)
}

/// The form by the file of prepared data of the records, perhaps with another byte.
pub fn by_prepared(setting: &Setting, stop: &str, question: &[&str]) -> Answer {
    let alloc = setting.alloc;
    let parts = parts(alloc, question)?;
    let [input, edits @ ..] = parts.as_slice() else {
        return Err(Fault::Unreadable);
    };
    let (form, characters) = first_of(input)?;
    let form = form_named(form)?;
    let text = text(alloc, characters)?;
    let mut file = prepared_file(setting)?;
    for edit in edits {
        file = edited(alloc, &file, edit)?;
    }
    goes_past(stop)?;
    match form_by_prepared_data(alloc, &file, form, text.as_bytes()) {
        Ok(form) => spelled(alloc, stop, &form),
        Err(PreparedFault::File(error)) => said(alloc, &error),
        Err(PreparedFault::Data(error)) => said(alloc, &error),
    }
}

/// The file of data with another byte.
fn edited(alloc: Global, file: &[u8], edit: &[&str]) -> Result<Vec<u8>, Fault> {
    let [place, byte] = edit else {
        return Err(Fault::Unreadable);
    };
    let place = decimal(place)? as usize;
    let data = with_byte(alloc, data_of(file), place, u8::read(byte)?)?;
    file_of(alloc, &data)
}

/// The texts of errors that no row can cause, or the places of the markers.
pub fn constants(alloc: Global, question: &[&str]) -> Answer {
    match question {
        ["memory"] => Ok(format!(in alloc;
            "{} | {} | {} | {}",
            TableError::Memory,
            NormalizeError::Memory,
            DataError::Memory,
            BuildError::Memory
        )?),
        ["sink"] => Ok(format!(in alloc; "{}", NormalizeError::Sink)?),
        ["markers"] => Ok(format!(in alloc;
            "{} {} {} {} {} {} {}",
            NormalizerNfdDataV1::INFO as usize,
            NormalizerNfkdDataV1::INFO as usize,
            NormalizerUts46DataV1::INFO as usize,
            NormalizerNfdTablesV1::INFO as usize,
            NormalizerNfkdTablesV1::INFO as usize,
            NormalizerNfcV1::INFO as usize,
            NormalizerNfdSupplementV1::INFO as usize
        )?),
        _ => Err(Fault::Unreadable),
    }
}
