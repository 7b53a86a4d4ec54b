//! Files of prepared data, as they are written.
ghost use Rattle.std.specs.Prelude.{◌≡◌, ◌≤◌, IfOk, IsOkUnless, IsTrue, Ok};
ghost use Rattle.normalizer_prepared.specs.Files.{held_in, holding};
ghost use Rattle.normalizer_prepared.specs.inner.Same.{HaveEqualLists, HaveEqualWords};

use crate::items::Item;
use crate::reading::PreparedData;
use crate::sums::sums;
use crate::tables::run_size;
use crate::{HEADER_LENGTH, MAGIC, VERSION};
use normalizer_builder::Built;
use normalizer_packing::Packed;
use normalizer_tables::characters::CODE_POINTS;
use normalizer_tables::{
    CanonicalCompositions, CodePointTable, DataError, DecompositionData, DecompositionTables,
    pair_at, pair_count,
};
use std::alloc::{AllocError, Global};

/// Returns the file of built data and of the version of Unicode that they are of, or 0.0.0 if none is known.
///
/// # Errors
/// `Memory` if an allocation failed.
pub fn prepared_data(
    alloc: Global,
    built: &Built,
    version: (u32, u32, u32),
) -> Result<Vec<u8>, DataError>
    // What is written reads back.
    ensures held { IfOk result (λ v. held_in v.items ≡ Ok (holding built.now.packed version)) }
    ensures refused { IsOkUnless result DataError.Memory }
{
    match file_of(alloc, &built.packed, version) {
        // It is read back before it is returned.
        Ok(file) if holds(alloc, &file, &built.packed, version) => Ok(file),
        _ => Err(DataError::Memory),
    }
}

/// Whether a file is read as these data and this version.
fn holds(alloc: Global, file: &[u8], packed: &Packed, version: (u32, u32, u32)) -> bool
    ensures { IsTrue result → held_in file.now ≡ Ok (holding packed.now version) }
{
    match PreparedData::read(alloc, file) {
        Ok(read) => is_same(&read, packed, version),
        Err(_) => false,
    }
}

#[tactic(auto, using(crate::proofs::SameData::same_data))]
fn is_same(read: &PreparedData, packed: &Packed, version: (u32, u32, u32)) -> bool
    ensures { IsTrue result → read.now ≡ holding packed.now version }
{
    read.version == version
        && have_equal_words(&read.built.packed, packed)
        && have_equal_lists(&read.built.packed, packed)
}

fn have_equal_words(packed: &Packed, other: &Packed) -> bool
    ensures { IsTrue result → HaveEqualWords packed.now other.now }
{
    packed.canonical == other.canonical
        && packed.compatibility == other.compatibility
        && packed.mapper == other.mapper
        && packed.supplement == other.supplement
}

fn have_equal_lists(packed: &Packed, other: &Packed) -> bool
    ensures { IsTrue result → HaveEqualLists packed.now other.now }
{
    packed.tables == other.tables
        && packed.supplementary_tables == other.supplementary_tables
        && have_equal_pairs(&packed.compositions, &other.compositions)
}

fn have_equal_pairs(compositions: &CanonicalCompositions, other: &CanonicalCompositions) -> bool
    ensures { IsTrue result → compositions.now ≡ other.now }
{
    compositions == other
}

/// A header, a version and data.
fn file_of(
    alloc: Global,
    packed: &Packed,
    version: (u32, u32, u32),
) -> Result<Vec<u8>, AllocError> {
    let mut bytes = Vec::new(alloc);
    bytes.extend_from_slice(&version.0.to_le_bytes())?;
    bytes.extend_from_slice(&version.1.to_le_bytes())?;
    bytes.extend_from_slice(&version.2.to_le_bytes())?;
    append_data(&mut bytes, packed)?;
    let (sum, sum_of_sums) = sums(&bytes);
    let length = HEADER_LENGTH.wrapping_add(bytes.len());
    let mut file = Vec::new(alloc);
    file.extend_from_slice(&MAGIC.to_le_bytes())?;
    file.extend_from_slice(&VERSION.to_le_bytes())?;
    file.extend_from_slice(&length.to_le_bytes()[..4])?;
    file.extend_from_slice(&sum.to_le_bytes())?;
    file.extend_from_slice(&sum_of_sums.to_le_bytes())?;
    file.extend_from_slice(&bytes)?;
    Ok(file)
}

/// Appends the data of all markers.
fn append_data(out: &mut Vec<u8>, packed: &Packed) -> Result<(), AllocError> {
    append_decompositions(out, &packed.canonical)?;
    append_decompositions(out, &packed.compatibility)?;
    if packed.mapper == packed.canonical {
        out.push(0)?;
    } else {
        out.push(1)?;
        append_decompositions(out, &packed.mapper)?;
    }
    append_lists(out, &packed.tables)?;
    append_lists(out, &packed.supplementary_tables)?;
    let pairs = pairs_of(*out.allocator(), &packed.compositions)?;
    append_list(out, &pairs)?;
    append_table(out, &packed.supplement.table)?;
    append_list(out, packed.supplement.scalars24.as_slice())
}

/// Appends the words of decomposition data, and their cap.
fn append_decompositions(out: &mut Vec<u8>, data: &DecompositionData) -> Result<(), AllocError> {
    append_table(out, &data.table)?;
    out.extend_from_slice(&data.passthrough_cap.to_le_bytes())
}

/// Appends both lists of tables.
fn append_lists(out: &mut Vec<u8>, tables: &DecompositionTables) -> Result<(), AllocError> {
    append_list(out, tables.scalars16.as_slice())?;
    append_list(out, tables.scalars24.as_slice())
}

/// The pairs, as a list.
fn pairs_of(
    alloc: Global,
    compositions: &CanonicalCompositions,
) -> Result<Vec<(char, char, char)>, AllocError> {
    let mut pairs = Vec::new(alloc);
    for place in 0..pair_count(compositions) {
        pairs.push(pair_at(compositions, place))?;
    }
    Ok(pairs)
}

/// Appends the runs of a table, and the word of all numbers above.
fn append_table(out: &mut Vec<u8>, table: &CodePointTable) -> Result<(), AllocError> {
    let mut runs = Vec::new(*out.allocator());
    let mut next = 0;
    for number in 0..CODE_POINTS {
        if next <= number {
            let run = run_from(table, number);
            runs.push(run)?;
            next = number.saturating_add(run_size(run.0));
        }
    }
    append_list(out, &runs)?;
    out.extend_from_slice(&table.get32(CODE_POINTS).to_le_bytes())
}

/// The longest run of a table from a code point on.
fn run_from(table: &CodePointTable, from: u32) -> (u8, u32) {
    let count = equal_from(table, from);
    let size = if count < 128 {
        count.saturating_sub(1)
    } else if count < 512 {
        127
    } else {
        127 + count / 512
    };
    (size as u8, table.get32(from))
}

/// How many code points from this one on have its word, up to those of the largest run.
fn equal_from(table: &CodePointTable, from: u32) -> u32
    ensures { result ≤ 65536 }
{
    for count in 1..65536u32 {
        let number = from.saturating_add(count);
        if CODE_POINTS <= number || table.get32(number) != table.get32(from) {
            return count;
        }
    }
    65536
}

/// Appends how many items there are, and the items.
fn append_list<T: Item>(out: &mut Vec<u8>, items: &[T]) -> Result<(), AllocError> {
    out.extend_from_slice(&items.len().to_le_bytes()[..4])?;
    for item in items {
        item.append(out)?;
    }
    Ok(())
}
