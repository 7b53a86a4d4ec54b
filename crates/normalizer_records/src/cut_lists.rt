//! The entries of characters, as records mean them. Lists that are too long are cut.
ghost use Rattle.std.specs.Prelude.{◌≡◌, ℕ, List, IfOk, IfSome};
ghost use Rattle.normal_forms.specs.Reading.{IsText};
ghost use Rattle.normalizer_tables.specs.MapperLists.{mapped_in};
ghost use Rattle.normalizer_records.specs.inner.CutLists.{IsCutEntry, MayStandFor, StandsFor};
ghost use Rattle.normalizer_records.specs.Meaning.{canonical_list, full_list, list_of_status, mapper_list};
ghost use Rattle.normalizer_records.specs.Statuses.{status_of as status_value};

use crate::expansion::cut_text;
use crate::lookup::{SortedMapperRecords, SortedRecords, class_of, step_of, uts46_record_of};
use crate::records::{Mappings, Uts46Status};
use normalizer_tables::entry::{Entry, MapperList};
use normalizer_tables::step::Step;
use std::alloc::{AllocError, Global};

/// What records say of a character.
pub(crate) fn cut_entry(
    alloc: Global,
    records: &SortedRecords<'_>,
    uts46: &SortedMapperRecords<'_>,
    c: char,
) -> Result<Entry, AllocError>
    ensures character { IfOk result (λ e. e.character ≡ c) }
    ensures entry { IfOk result (IsCutEntry records.now uts46.now) }
{
    let canonical = cut_list(alloc, records, Mappings::Canonical, c)?;
    let compatibility = cut_list(alloc, records, Mappings::All, c)?;
    let mapper = cut_mapper_list(alloc, records, uts46, c)?;
    let class = class_of(records, c);
    let mapping = step_of(records, c).unwrap_or(Step::Default);
    Entry::new(c, class, mapping, canonical, &compatibility, mapper)
}

/// The full decomposition of a character, or a cut of it if it is too long.
fn cut_list(
    alloc: Global,
    records: &SortedRecords<'_>,
    mappings: Mappings,
    c: char,
) -> Result<Vec<char>, AllocError>
    ensures list { IfOk result (λ v. StandsFor records.now (full_list records.now mappings c) v.items) }
    ensures text { IfOk result (λ v. IsText v.items) }
{
    cut_text(alloc, records, mappings, &[c])
}

/// What the mapper maps a character to, its list or a cut of it: the canonical one if nothing is recorded.
fn cut_mapper_list(
    alloc: Global,
    records: &SortedRecords<'_>,
    uts46: &SortedMapperRecords<'_>,
    c: char,
) -> Result<MapperList, AllocError>
    ensures list { IfOk result (λ m. (canonical : List ℕ) →
        StandsFor records.now (canonical_list records.now c) canonical →
        MayStandFor records.now (mapper_list records.now uts46.now c) (mapped_in canonical m)) }
    ensures text { IfOk result (λ m. (canonical : List ℕ) → IsText canonical → IfSome (mapped_in canonical m) IsText) }
{
    match uts46_record_of(uts46, c) {
        None => Ok(MapperList::Canonical),
        Some(record) => cut_mapped_list(alloc, records, &record.status),
    }
}

fn cut_mapped_list(
    alloc: Global,
    records: &SortedRecords<'_>,
    status: &Uts46Status,
) -> Result<MapperList, AllocError>
    ensures list { IfOk result (λ m. (canonical : List ℕ) →
        MayStandFor records.now (list_of_status records.now (status_value status.now)) (mapped_in canonical m)) }
    ensures text { IfOk result (λ m. (canonical : List ℕ) → IfSome (mapped_in canonical m) IsText) }
{
    match status {
        Uts46Status::Ignored => Ok(MapperList::Ignored),
        Uts46Status::Disallowed => Ok(MapperList::Own(vec![in alloc; '\u{FFFD}']?)),
        Uts46Status::Mapped(mapping) => {
            let list = cut_text(alloc, records, Mappings::Canonical, mapping)?;
            Ok(MapperList::Own(list))
        }
    }
}
