//! Records that are sorted, looked up by character.
#![tactic(auto, unfolding(crate::specs::Meaning::entry_of, crate::specs::Meaning::class_of, crate::specs::Meaning::mapping_of, crate::specs::Meaning::status_of, crate::specs::Meaning::canonical_mapping_of, crate::specs::Recorded::recorded_step))]

ghost use Rattle.std.specs.Prelude.{◌≡◌};
ghost use Rattle.std.specs.Option.{option_map};
ghost use Rattle.normalizer_tables.specs.Steps.{step_to};
ghost use Rattle.normalizer_records.specs.declared.records.Mappings.TheVariants.{Canonical};
ghost use Rattle.normalizer_records.specs.Meaning.{class_of, mapping_among, mapping_of, status_of};
ghost use Rattle.normalizer_records.specs.Recorded.{recorded_step};

use crate::records::{Mappings, Record, Uts46Record};
use normalizer_tables::members::Members;
use normalizer_tables::places::ByCharacter;
use normalizer_tables::step::{Step, step_to};

/// Records that are sorted by character.
pub(crate) type SortedRecords<'a> = ByCharacter<'a, Record>;

/// Records of the mapper that are sorted by character.
pub(crate) type SortedMapperRecords<'a> = ByCharacter<'a, Uts46Record>;

/// The recorded class of a character, 0 without a record.
pub(crate) fn class_of(records: &SortedRecords<'_>, c: char) -> u8
    ensures { result ≡ class_of records.now c }
{
    records.get(c).map_or(0, |record| record.class)
}

/// The recorded mapping of a character, empty without one.
pub(crate) fn mapping_of<'a>(records: &SortedRecords<'a>, c: char) -> &'a [char]
    ensures { result.now ≡ mapping_of records.now c }
{
    match records.get(c) {
        Some(record) => record.mapping.as_slice(),
        None => &[],
    }
}

/// The recorded canonical mapping of a character, if it has one of one or two characters.
#[tactic(auto, unfolding(crate::specs::Meaning::entry_of, crate::specs::Meaning::canonical_mapping_of, crate::specs::Recorded::recorded_step, normalizer_tables::specs::Steps::step_to))]
pub(crate) fn step_of(records: &SortedRecords<'_>, c: char) -> Option<Step>
    ensures { result ≡ recorded_step records.now c }
{
    records.get(c).and_then(|record| recorded_step(record))
}

/// The mapping of a record, if it is one of these.
pub(crate) fn mapping_among(mappings: Mappings, record: &Record) -> &[char]
    ensures { result.now ≡ mapping_among mappings record.now }
{
    match mappings {
        Mappings::Canonical if record.compatibility => &[],
        _ => record.mapping.as_slice(),
    }
}

/// Returns the canonical mapping of a record, if it has one of one or two characters.
pub fn recorded_step(record: &Record) -> Option<Step>
    ensures { result ≡ step_to (mapping_among Canonical record.now) }
{
    step_to(&Members::of_scalars(mapping_among(Mappings::Canonical, record)))
}

/// What the mapper does with a character, if that is recorded.
pub(crate) fn uts46_record_of<'a>(
    uts46: &SortedMapperRecords<'a>,
    c: char,
) -> Option<&'a Uts46Record>
    ensures { option_map (λ r. r.now.status) result ≡ status_of uts46.now c }
{
    uts46.get(c)
}
