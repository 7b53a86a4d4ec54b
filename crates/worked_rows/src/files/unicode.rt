//! What files of Unicode are read as, or the first fault with its line. `read 0300;;;230;;;;;;;;;;; #_EOF | #_EOF = 0300
//! class 230`: the records of `UnicodeData.txt` beside `CompositionExclusions.txt`. `table 9 0000..10FFFF;valid =`: those
//! of `IdnaMappingTable.txt`, perhaps after exclusions, of disallowed ranges with at most 9 characters, or `all`. Each
//! beginning of a first file that is read must be refused. `build-files #_EOF | #_EOF | 0000..10FFFF;valid = ok`:
//! whether data are built of the records of all three, and otherwise the first record at fault.
use crate::files::{file, goes_past, parts, said};
use icu_normalizer::{BuildError, RecordAtFault, Records, Uts46Record, records_of_ranges};
use normalizer_ucd::{
    Disallowed, UcdError, place_of_record, records_of_unicode_data, uts46_ranges_beside_exclusions,
    uts46_ranges_of_idna_table, uts46_records_beside_exclusions, uts46_records_of_idna_table,
};
use rows_questions::language::fault::{Answer, Fault, agreed};
use rows_questions::language::record_rows::{spelled_mapper_record, spelled_record};
use rows_questions::language::words::{Spelled, decimal, first_of};
use std::alloc::Global;

/// The records of two files.
pub fn read(alloc: Global, question: &[&str]) -> Answer {
    let parts = parts(alloc, question)?;
    let [unicode_data, exclusions] = parts.as_slice() else {
        return Err(Fault::Unreadable);
    };
    let unicode_data = file(alloc, unicode_data)?;
    let exclusions = file(alloc, exclusions)?;
    let records = match records_of_unicode_data(alloc, &unicode_data, &exclusions) {
        Ok(records) => records,
        Err(error) => return said(alloc, &error),
    };
    agreed((0..unicode_data.len()).all(|end| {
        records_of_unicode_data(alloc, &unicode_data[..end], &exclusions).is_err()
    }))?;
    let mut text = String::new(alloc);
    for record in &records {
        push_record(alloc, &mut text, record.c, &spelled_record(alloc, record)?)?;
    }
    Ok(text)
}

/// Adds what a character's record says, after `|` if it isn't the first.
fn push_record(alloc: Global, text: &mut String, c: char, record: &str) -> Result<(), Fault> {
    if !text.is_empty() {
        text.push_str(" | ")?;
    }
    text.push_str(&c.spelled(alloc)?)?;
    text.push(' ')?;
    text.push_str(record)?;
    Ok(())
}

/// The records of a table, or the first fault.
pub fn table(alloc: Global, stop: &str, question: &[&str]) -> Answer {
    let (most, files) = first_of(question)?;
    let disallowed = match most {
        "all" => Disallowed::All,
        most => Disallowed::RangesUpTo(decimal(most)?),
    };
    let parts = parts(alloc, files)?;
    let (exclusions, table) = match parts.as_slice() {
        [table] => (None, file(alloc, table)?),
        [exclusions, table] => (Some(file(alloc, exclusions)?), file(alloc, table)?),
        _ => return Err(Fault::Unreadable),
    };
    by_each_call(alloc, exclusions.as_deref(), &table, disallowed, stop)
}

/// The records of a table by the call of ranges, and then by that of records.
fn by_each_call(
    alloc: Global,
    exclusions: Option<&[u8]>,
    table: &[u8],
    disallowed: Disallowed,
    stop: &str,
) -> Answer {
    goes_past(stop)?;
    let ranges = match exclusions {
        Some(other) => uts46_ranges_beside_exclusions(alloc, other, table, disallowed),
        None => uts46_ranges_of_idna_table(alloc, table, disallowed),
    };
    if stop == "call" && ranges.is_ok() {
        return Ok(String::new(alloc));
    }
    agreed(ranges.is_err() || are_table_cuts_refused(alloc, table))?;
    let records = match exclusions {
        Some(other) => uts46_records_beside_exclusions(alloc, other, table, disallowed),
        None => uts46_records_of_idna_table(alloc, table, disallowed),
    };
    let by_ranges = ranges.and_then(|ranges| Ok(records_of_ranges(alloc, &ranges)?));
    let spelled = spelled_table(alloc, records)?;
    agreed(spelled == spelled_table(alloc, by_ranges)?)?;
    Ok(spelled)
}

fn are_table_cuts_refused(alloc: Global, table: &[u8]) -> bool {
    (0..table.len()).all(|end| uts46_ranges_of_idna_table(
        alloc,
        &table[..end],
        Disallowed::All,
    ).is_err())
}

fn spelled_table(alloc: Global, read: Result<Vec<Uts46Record>, UcdError>) -> Answer {
    let records = match read {
        Ok(records) => records,
        Err(error) => return said(alloc, &error),
    };
    let mut text = String::new(alloc);
    for record in &records {
        push_record(
            alloc,
            &mut text,
            record.c,
            &spelled_mapper_record(alloc, record)?,
        )?;
    }
    Ok(text)
}

/// Whether data are built of the records of three files; else the first record at fault, with its line.
pub fn built(alloc: Global, question: &[&str]) -> Answer {
    let parts = parts(alloc, question)?;
    let [unicode_data, exclusions, table] = parts.as_slice() else {
        return Err(Fault::Unreadable);
    };
    let unicode_data = file(alloc, unicode_data)?;
    let exclusions = file(alloc, exclusions)?;
    let table = file(alloc, table)?;
    let records = records_of_unicode_data(alloc, &unicode_data, &exclusions);
    let uts46 = uts46_records_of_idna_table(alloc, &table, Disallowed::All);
    let (Ok(records), Ok(uts46)) = (records, uts46) else {
        return Err(Fault::Refused);
    };
    match Records::build(alloc, &records, &uts46) {
        Ok(_) => Ok(String::from_str(alloc, "ok")?),
        Err(error) => {
            let fault = Records::first_at_fault(alloc, &records, &uts46, error)?;
            at_fault(alloc, &unicode_data, &table, fault, error)
        }
    }
}

/// The line of the record at fault, its character, and the error.
fn at_fault(
    alloc: Global,
    unicode_data: &[u8],
    table: &[u8],
    fault: Option<RecordAtFault>,
    error: BuildError,
) -> Answer {
    let fault = fault.ok_or(Fault::Divided)?;
    let code = fault.character().spelled(alloc)?;
    let place = place_of_record(alloc, unicode_data, table, fault)?.ok_or(Fault::Divided)?;
    Ok(format!(in alloc; "{place}: U+{code}: {error}")?)
}
