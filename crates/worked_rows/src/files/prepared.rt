//! The file of prepared data of what the records build. `prepared = none`: the first place at which the file, cut off or
//! with a bit flipped there, isn't refused as it must be.
use icu_normalizer::{DataError, NormalForm, Records};
use normalizer_by_files::{PreparedFault, form_by_prepared_data};
use normalizer_prepared::Fault::{Length, Magic, Short, Sum, Version};
use normalizer_prepared::PreparedError::Wrong;
use normalizer_prepared::{Fault as FileFault, prepared_data};
use rows_questions::language::fault::{Answer, Fault, agreed};
use rows_questions::language::setting::Setting;
use std::alloc::Global;

/// How many bytes are before the data.
const HEADER: usize = 20;

/// The file of what the records build.
pub fn prepared_file(setting: &Setting) -> Result<Vec<u8>, Fault> {
    let built = Records::build(setting.alloc, &setting.records, &setting.mapper)?;
    Ok(prepared_data(setting.alloc, &built, (18, 0, 0))?)
}

/// The data of a file.
pub fn data_of(file: &[u8]) -> &[u8] {
    file.get(HEADER..).unwrap_or(&[])
}

/// A file of these data, with the length and the sums that `docs/FORMAT.md` says.
pub fn file_of(alloc: Global, data: &[u8]) -> Result<Vec<u8>, Fault> {
    let mut sum = 0u32;
    let mut sum_of_sums = 0u32;
    for byte in data {
        sum = sum.wrapping_add(u32::from(*byte));
        sum_of_sums = sum_of_sums.wrapping_add(sum);
    }
    let length = u32::try_from(data.len()).unwrap_or(0).wrapping_add(20);
    let mut file = Vec::new(alloc);
    for number in [0x4D52_4F4E, 2, length, sum, sum_of_sums] {
        file.extend_from_slice(&number.to_le_bytes())?;
    }
    file.extend_from_slice(data)?;
    Ok(file)
}

/// The bytes with another at a place, or after them.
pub fn with_byte(alloc: Global, bytes: &[u8], place: usize, byte: u8) -> Result<Vec<u8>, Fault> {
    let mut others = bytes.to_vec(alloc)?;
    match others.get_mut(place) {
        Some(found) => *found = byte,
        None => others.push(byte)?,
    }
    Ok(others)
}

/// The first place at which the file isn't refused as it must be, or `none`.
pub fn first_unrefused(setting: &Setting) -> Answer {
    let alloc = setting.alloc;
    let file = prepared_file(setting)?;
    agreed(file_of(alloc, data_of(&file))? == file)?;
    for (place, byte) in file.iter().enumerate() {
        let are_refused = is_cut_refused(alloc, &file[..place])?
            && are_flips_refused(alloc, &file, place, *byte)?;
        if !are_refused {
            return Ok(format!(in alloc; "{place}")?);
        }
    }
    Ok(String::from_str(alloc, "none")?)
}

/// Whether the first fault of a file is this one, at this offset.
fn has_fault(alloc: Global, file: &[u8], fault: FileFault, offset: usize) -> bool {
    form_by_prepared_data(alloc, file, NormalForm::Nfc, b"a").err()
        == Some(PreparedFault::File(Wrong { fault, offset }))
}

/// Whether a beginning is refused at its end, or for its length; with a header of its own at its end.
fn is_cut_refused(alloc: Global, cut: &[u8]) -> Result<bool, Fault> {
    let end = cut.len();
    let (fault, offset) = if end < 12 { (Short, end) } else { (Length, 8) };
    let own = file_of(alloc, data_of(cut))?;
    Ok(has_fault(alloc, cut, fault, offset) && has_fault(alloc, &own, Short, end.max(HEADER)))
}

/// Whether each bit that is flipped is refused in the field that shows it; and data with the lowest one, after a header
/// of their own, inside the file, unless they are checked.
fn are_flips_refused(alloc: Global, file: &[u8], place: usize, byte: u8) -> Result<bool, Fault> {
    let (fault, offset) = match place {
        0..4 => (Magic, 0),
        4..8 => (Version, 4),
        8..12 => (Length, 8),
        16..20 => (Sum, 16),
        _ => (Sum, 12),
    };
    let own = file_of(alloc, data_of(&with_byte(alloc, file, place, byte ^ 1)?))?;
    let mut are_refused = is_checked(alloc, &own);
    for bit in [1, 2, 4, 8, 16, 32, 64, 128] {
        let other = with_byte(alloc, file, place, byte ^ bit)?;
        are_refused = are_refused && has_fault(alloc, &other, fault, offset);
    }
    Ok(are_refused)
}

/// Whether a file is refused inside, or its data are checked.
fn is_checked(alloc: Global, file: &[u8]) -> bool {
    match form_by_prepared_data(alloc, file, NormalForm::Nfc, b"a") {
        Err(PreparedFault::File(Wrong { offset, .. })) => HEADER <= offset && offset <= file.len(),
        Err(PreparedFault::Data(error)) => error != DataError::Memory,
        returned => returned.is_ok(),
    }
}
