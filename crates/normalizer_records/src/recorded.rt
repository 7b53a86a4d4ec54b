//! The characters that have records.
ghost use Rattle.std.specs.Prelude.{◌≡◌, IfOk};
ghost use Rattle.normalizer_records.specs.Recorded.{ListsCharacters, recorded_characters};

use crate::records::{Record, Uts46Record};
use normalizer_tables::places::characters_of;
use std::alloc::{AllocError, Global};

/// The characters of the records, and of those of the mapper.
fn recorded_characters(
    alloc: Global,
    records: &[Record],
    uts46: &[Uts46Record],
) -> Result<Vec<char>, AllocError>
    ensures { IfOk result (λ v. v.items ≡ recorded_characters records.now uts46.now) }
{
    let mut characters = characters_of(alloc, records, uts46.len())?;
    for mapped in uts46 {
        characters.push(mapped.c)?;
    }
    Ok(characters)
}

/// Each character that has a record of either kind once, in order.
pub(crate) fn sorted_characters(
    alloc: Global,
    records: &[Record],
    uts46: &[Uts46Record],
) -> Result<Vec<char>, AllocError>
    ensures { IfOk result (λ v. ListsCharacters records.now uts46.now v.items) }
{
    let mut characters = recorded_characters(alloc, records, uts46)?;
    characters.sort_unstable();
    characters.dedup();
    Ok(characters)
}
