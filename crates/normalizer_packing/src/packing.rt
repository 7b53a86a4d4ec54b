//! Packs entries and pairs into normalization data.
ghost use Rattle.std.specs.Prelude.{◌≡◌, ◌<◌, IfOk, IsErrOf};
ghost use Rattle.normalizer_tables.specs.conditions.Conditions.{item_limit};
ghost use Rattle.normalizer_packing.specs.Disallowed.{PacksBeside};
ghost use Rattle.normalizer_packing.specs.inner.Beside.{HasEnds, PacksKindBeside, PacksReplaced};
ghost use Rattle.normalizer_packing.specs.inner.Kinds.{PackKinds};
ghost use Rattle.normalizer_packing.specs.inner.PackedWords.{ArePacked, CanPoint};
ghost use Rattle.normalizer_packing.specs.Packing.{ArePackable};
ghost use Rattle.normalizer_packing.specs.Stored.{needed_items};
ghost use Rattle.normalizer_packing.specs.inner.Breakpoints.{AreBreakpoints};

use crate::Packed;
use crate::breakpoints::breakpoints_of;
use crate::cap::cap_of;
use crate::packed_words::PackedWords;
use crate::spelled::SpelledEntries;
use crate::step_words::supplement_of;
use crate::stores::{PackError, Stores, stores_of};
use crate::table_words::table_of;
use normalizer_tables::entry::{Entry, Kind};
use normalizer_tables::{CanonicalCompositions, DecompositionData, TableError};
use std::alloc::{AllocError, Global};

/// Packs the entries of characters, and pairs of characters that compose (second, first and result), into data. Beside
/// entries are ranges, from a first to a last character: of these it is only recorded that the mapper disallows them. The
/// same entries and pairs make the same data: lists are in the tables in the order in which characters first need
/// them, equal ones once.
///
/// # Errors
/// `TableFull` if the lists have more items than the limit, 8,191; `Memory` if an allocation failed.
#[tactic(auto, using(crate::proofs::beside::BesidePacking::packs_beside))]
pub fn pack(
    alloc: Global,
    entries: &[Entry],
    disallowed: &[(char, char)],
    pairs: Vec<(char, char, char)>,
) -> Result<Packed, PackError>
    requires { ArePackable entries.now }
    ensures packed { IfOk result (PacksBeside disallowed.now entries.now pairs.items) }
    ensures full { IsErrOf result PackError.TableFull → item_limit < needed_items entries.now }
{
    match SpelledEntries::new(alloc, entries) {
        Ok(entries) => pack_entries(alloc, entries, disallowed, pairs),
        Err(_) => Err(PackError::Memory),
    }
}

fn pack_entries(
    alloc: Global,
    entries: SpelledEntries<'_>,
    disallowed: &[(char, char)],
    pairs: Vec<(char, char, char)>,
) -> Result<Packed, PackError>
    requires { ArePackable entries }
    ensures packed { IfOk result (PacksReplaced disallowed.now entries.entry pairs.items) }
    ensures full { IsErrOf result PackError.TableFull → item_limit < needed_items entries.entry }
{
    let stores = stores_of(alloc, &entries)?;
    packed_with(alloc, entries, disallowed, pairs, stores).map_err(|_| PackError::Memory)
}

/// The data whose lists are in these stores.
fn packed_with<'e>(
    alloc: Global,
    entries: SpelledEntries<'e>,
    disallowed: &[(char, char)],
    pairs: Vec<(char, char, char)>,
    stores: Stores<'e>,
) -> Result<Packed, AllocError>
    requires { CanPoint entries stores }
    ensures packed { IfOk result (PacksReplaced disallowed.now entries.entry pairs.items) }
{
    let breakpoints = breakpoints_of(alloc, entries.by_character().as_slice(), &pairs, disallowed)?;
    let (kinds, compositions) = parts_of(
        alloc,
        &entries,
        disallowed,
        pairs,
        &stores,
        &breakpoints,
    )?;
    // (the places of the lists are freed before the supplement is made)
    let tables = stores.canonical.into_tables();
    let supplementary_tables = stores.supplementary.into_tables();
    let supplement = supplement_of(alloc, &entries, &breakpoints)?;
    Ok(Packed {
        canonical: kinds.canonical,
        compatibility: kinds.compatibility,
        mapper: kinds.mapper,
        tables,
        supplementary_tables,
        compositions,
        supplement,
    })
}

/// The data of each kind, and the pairs.
fn parts_of<'e>(
    alloc: Global,
    entries: &SpelledEntries<'e>,
    disallowed: &[(char, char)],
    pairs: Vec<(char, char, char)>,
    stores: &Stores<'e>,
    breakpoints: &[char],
) -> Result<(Kinds, CanonicalCompositions), AllocError>
    requires stored { CanPoint entries.now stores.now }
    requires breakpoints { AreBreakpoints entries.now pairs.items breakpoints.now }
    requires ends { HasEnds disallowed.now breakpoints.now }
    ensures kinds { IfOk result (λ parts. PackKinds disallowed.now entries.now pairs.items parts.0) }
    ensures pairs { IfOk result (λ parts. parts.1 ≡ pairs.items) }
{
    let compositions = compositions_of(pairs)?;
    let kinds = kinds_of(
        alloc,
        entries,
        disallowed,
        &compositions,
        stores,
        breakpoints,
    )?;
    Ok((kinds, compositions))
}

/// The data of each kind.
#[derive(Drop)]
struct Kinds {
    canonical: DecompositionData,
    compatibility: DecompositionData,
    mapper: DecompositionData,
}

fn kinds_of<'a, 'e>(
    alloc: Global,
    entries: &'a SpelledEntries<'e>,
    disallowed: &'a [(char, char)],
    compositions: &'a CanonicalCompositions,
    stores: &'a Stores<'e>,
    breakpoints: &[char],
) -> Result<Kinds, AllocError>
    requires stored { CanPoint entries.now stores.now }
    requires breakpoints { AreBreakpoints entries.now compositions.now breakpoints.now }
    requires ends { HasEnds disallowed.now breakpoints.now }
    ensures { IfOk result (PackKinds disallowed.now entries.now compositions.now) }
{
    let canonical_words = PackedWords::new(entries, compositions, stores);
    let canonical = data_of(alloc, &canonical_words, breakpoints)?;
    let compatibility_words = canonical_words.with(Kind::Compatibility, &[], &canonical.table);
    let compatibility = data_of(alloc, &compatibility_words, breakpoints)?;
    let mapper_words = canonical_words.with(Kind::Mapper, disallowed, &canonical.table);
    let mapper = data_of(alloc, &mapper_words, breakpoints)?;
    Ok(Kinds {
        canonical,
        compatibility,
        mapper,
    })
}

/// The pairs as they are: the only error is a failed allocation.
fn compositions_of(pairs: Vec<(char, char, char)>) -> Result<CanonicalCompositions, AllocError>
    ensures { IfOk result (λ c. c ≡ pairs.items) }
{
    match CanonicalCompositions::from_pairs(pairs) {
        Ok(compositions) => Ok(compositions),
        Err(TableError::Memory) => Err(AllocError),
        Err(TableError::Ranges) => unreachable!(),
    }
}

/// One kind of data.
#[tactic(auto, using(crate::proofs::beside::BesideWords::words_alike))]
fn data_of(
    alloc: Global,
    words: &PackedWords<'_, '_>,
    breakpoints: &[char],
) -> Result<DecompositionData, AllocError>
    requires stored { CanPoint words.now.entries.now words.now.stores.now }
    requires other { ArePacked words.now.entries.now words.now.compositions.now words.now.other }
    requires breakpoints { AreBreakpoints words.now.entries.now words.now.compositions.now breakpoints.now }
    requires ends { HasEnds words.now.replaced.now breakpoints.now }
    ensures { IfOk result (PacksKindBeside words.now.replaced.now words.now.kind
        words.now.entries.now words.now.compositions.now) }
{
    Ok(DecompositionData {
        table: table_of(alloc, words, breakpoints)?,
        passthrough_cap: cap_of(words),
    })
}
