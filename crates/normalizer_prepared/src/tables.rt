//! Tables and lists, as they are read.
ghost use Rattle.std.specs.Prelude.{◌≡◌, ◌≢◌, ◌<◌, ◌≤◌, length, IfOk, MatchOption};
ghost use Rattle.normalizer_tables.specs.Table.{code_points};
ghost use Rattle.normalizer_prepared.specs.Reading.{
  decompositions_at,
  list_at,
  lists_at,
  pair_at,
  supplement_at,
  table_at,
  Gives,
};
ghost use Rattle.normalizer_prepared.specs.Runs.{ranges_from, run_size, words_of};

use crate::fault::{Fault, ReadError};
use crate::items::list_at;
use crate::numbers::{u16_at, u32_at};
use normalizer_tables::characters::CODE_POINTS;
use normalizer_tables::{
    CanonicalCompositions, CodePointTable, DecompositionData, DecompositionTables,
    NonRecursiveDecompositionSupplement, Scalars16, Scalars24, TableError,
};
use std::alloc::{AllocError, Global};

/// A table of words.
#[tactic(auto, using(crate::proofs::RunRanges::table_rules), unfolding(crate::specs::Reading::table_at))]
fn table_at(alloc: Global, bytes: &[u8]) -> Result<(CodePointTable, &[u8]), ReadError>
    ensures { Gives (λ x. (x.0, x.1.now)) result (table_at bytes.now) }
{
    let (runs, rest) = list_at::<(u8, u32)>(alloc, bytes)?;
    let (past, rest) = u32_at(rest)?;
    let Some(ranges) = ranges_of(alloc, &runs)? else {
        return Err(ReadError::Wrong(Fault::Runs, bytes.len()));
    };
    match CodePointTable::from_ranges(ranges, past) {
        Ok(table) => Ok((table, rest)),
        Err(TableError::Memory) => Err(ReadError::Memory),
        Err(TableError::Ranges) => unreachable!(),
    }
}

/// The ranges of runs, if they are the runs of all code points.
fn ranges_of(alloc: Global, runs: &[(u8, u32)]) -> Result<Option<Vec<(u32, u32, u32)>>, AllocError>
    ensures { IfOk result (λ o. MatchOption o (length (words_of runs.now) ≢ code_points)
        (λ v. (length (words_of runs.now) ≡ code_points) × (v.items ≡ ranges_from 0 runs.now))) }
{
    let mut ranges = Vec::new(alloc);
    let mut next = 0;
    for run in runs {
        let size = run_size(run.0);
        if CODE_POINTS - next < size {
            return Ok(None);
        }
        ranges.push((next, next + size - 1, run.1))?;
        next += size;
    }
    if next != CODE_POINTS {
        return Ok(None);
    }
    Ok(Some(ranges))
}

/// How many code points a run has.
#[inline(always)]
pub(crate) fn run_size(size: u8) -> u32
    ensures size { result ≡ run_size size }
    ensures some { 0 < result }
{
    if size < 128 {
        size as u32 + 1
    } else {
        512 * (size as u32 - 127)
    }
}

/// The words of decomposition data, and their cap.
#[tactic(auto, unfolding(crate::specs::Reading::decompositions_at))]
pub(crate) fn decompositions_at(
    alloc: Global,
    bytes: &[u8],
) -> Result<(DecompositionData, &[u8]), ReadError>
    ensures { Gives (λ x. (x.0, x.1.now)) result (decompositions_at bytes.now) }
{
    let (table, rest) = table_at(alloc, bytes)?;
    let (passthrough_cap, rest) = u16_at(rest)?;
    let data = DecompositionData {
        table,
        passthrough_cap,
    };
    Ok((data, rest))
}

/// Both lists of tables.
#[tactic(auto, unfolding(crate::specs::Reading::lists_at))]
pub(crate) fn lists_at(
    alloc: Global,
    bytes: &[u8],
) -> Result<(DecompositionTables, &[u8]), ReadError>
    ensures { Gives (λ x. (x.0, x.1.now)) result (lists_at bytes.now) }
{
    let (narrow, rest) = list_at::<u16>(alloc, bytes)?;
    let (wide, rest) = list_at::<char>(alloc, rest)?;
    let tables = DecompositionTables {
        scalars16: Scalars16::from(narrow),
        scalars24: Scalars24::from(wide),
    };
    Ok((tables, rest))
}

/// The composing pairs.
pub(crate) fn compositions_at(
    alloc: Global,
    bytes: &[u8],
) -> Result<(CanonicalCompositions, &[u8]), ReadError>
    ensures { Gives (λ x. (x.0, x.1.now)) result (list_at pair_at bytes.now) }
{
    let (pairs, rest) = list_at::<(char, char, char)>(alloc, bytes)?;
    match CanonicalCompositions::from_pairs(pairs) {
        Ok(compositions) => Ok((compositions, rest)),
        Err(_) => Err(ReadError::Memory),
    }
}

/// The words of the supplement, and its list.
#[tactic(auto, unfolding(crate::specs::Reading::supplement_at))]
pub(crate) fn supplement_at(
    alloc: Global,
    bytes: &[u8],
) -> Result<(NonRecursiveDecompositionSupplement, &[u8]), ReadError>
    ensures { Gives (λ x. (x.0, x.1.now)) result (supplement_at bytes.now) }
{
    let (table, rest) = table_at(alloc, bytes)?;
    let (scalars, rest) = list_at::<char>(alloc, rest)?;
    let supplement = NonRecursiveDecompositionSupplement {
        table,
        scalars24: Scalars24::from(scalars),
    };
    Ok((supplement, rest))
}
