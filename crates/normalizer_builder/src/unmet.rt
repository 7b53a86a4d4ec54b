//! The first requirement that data that pack records don't meet.
#![tactic(auto, using(crate::proofs::FirstUnmet::mappings_unkept, crate::proofs::FirstUnmet::asked_unmet, crate::proofs::FirstUnmet::all_met, crate::proofs::FirstUnmet::of_all_kinds))]

ghost use Rattle.std.specs.Prelude.{◌≡◌, ◌↔◌, All, IsTrue, List, option_map};
ghost use Rattle.normalizer_tables.specs.conditions.Conditions.{IsFirstFailing, IsMet};
ghost use Rattle.normalizer_records.specs.RecordValue.{RecordValue};
ghost use Rattle.normalizer_records.specs.Faults.{AreRising};
ghost use Rattle.normalizer_builder.specs.Demands.{
  characters_of,
  conditions_of,
  constructor_demands,
  IsFirstUnmet,
  loaded_of,
  Meets,
};
ghost use Rattle.normalizer_builder.specs.declared.demand.Demand.TheVariants.{Asks};
ghost use Rattle.normalizer_builder.specs.inner.Earlier.{asked_of};
ghost use Rattle.normalizer_builder.specs.inner.Parts.{KeepsRecord};

use crate::demand::{Demand, earlier};
use normalizer_check::check::first_failing;
use normalizer_check::loaded::LoadedData;
use normalizer_packing::Packed;
use normalizer_records::{Record, recorded_step};
use normalizer_tables::characters::{CharacterData, Purpose};
use normalizer_tables::condition::{
    Bounds, Condition, EVERY, composing_conditions, mapping_conditions,
};
use normalizer_tables::entry::Kind;
use normalizer_tables::step::step_of;

/// The first requirement that data that pack records don't meet, if there is one. It takes no memory.
pub(crate) fn first_unmet(records: &[Record], packed: &Packed) -> Option<Demand>
    requires { AreRising records.now }
    ensures { IsFirstUnmet records.now packed.now result }
{
    match first_asked(packed) {
        Some(demand) => Some(demand),
        None if keeps_mappings(records, packed) => None,
        None => Some(Demand::KeepsMappings),
    }
}

/// The first requirement of constructors that packed data don't meet.
fn first_asked(packed: &Packed) -> Option<Demand>
    ensures { (records : List RecordValue) → IsFirstFailing (Meets records packed.now) constructor_demands result }
{
    let mapper = first_of_kind(packed, Kind::Mapper);
    let others = earlier(first_of_kind(packed, Kind::Compatibility), mapper);
    earlier(first_of_kind(packed, Kind::Canonical), others)
}

/// The first requirement of constructors that the data of one kind don't meet.
fn first_of_kind(packed: &Packed, kind: Kind) -> Option<Demand>
    ensures { (records : List RecordValue) → IsFirstFailing (Meets records packed.now) (asked_of kind) result }
{
    asked_of(kind, first_failing_of_kind(packed, kind))
}

/// That the data of one kind meet a condition.
fn asked_of(kind: Kind, condition: Option<Condition>) -> Option<Demand>
    ensures { result ≡ option_map (λ c. Asks c kind) condition }
{
    condition.map(|condition| Demand::Asks(condition, kind))
}

fn first_failing_of_kind(packed: &Packed, kind: Kind) -> Option<Condition>
    ensures { IsFirstFailing (IsMet (loaded_of packed.now kind)) (conditions_of kind) result }
{
    first_failing(&loaded_of(packed, kind), conditions_of(kind))
}

/// The conditions that constructors require of the data of one kind.
fn conditions_of(kind: Kind) -> &'static [Condition]
    ensures { result.now ≡ conditions_of kind }
{
    match kind {
        Kind::Canonical => &EVERY,
        Kind::Compatibility => composing_conditions(),
        Kind::Mapper => mapping_conditions(),
    }
}

/// All that constructors load with the data of one kind.
pub(crate) fn loaded_of(packed: &Packed, kind: Kind) -> LoadedData<'_>
    ensures { result ≡ loaded_of packed.now kind }
{
    let characters = characters_of(packed, kind);
    let bounds = Bounds::of_cap(characters.cap());
    let supplement = match kind {
        Kind::Canonical => Some(&packed.supplement),
        Kind::Compatibility | Kind::Mapper => None,
    };
    LoadedData::new(characters, bounds, Some(&packed.compositions), supplement)
}

/// What the data of one kind say of characters.
pub(crate) fn characters_of(packed: &Packed, kind: Kind) -> CharacterData<'_>
    ensures { result ≡ characters_of packed.now kind }
{
    let tables = &packed.tables;
    let supplementary = Some(&packed.supplementary_tables);
    match kind {
        Kind::Canonical => CharacterData::new(&packed.canonical, tables, None, Purpose::Forms),
        Kind::Compatibility => {
            CharacterData::new(&packed.compatibility, tables, supplementary, Purpose::Forms)
        }
        Kind::Mapper => {
            CharacterData::new(&packed.mapper, tables, supplementary, Purpose::Mapping)
        }
    }
}

/// Whether the data keep the mappings of all records.
fn keeps_mappings(records: &[Record], packed: &Packed) -> bool
    ensures { IsTrue result ↔ All (KeepsRecord packed.now) records.now }
{
    records.iter().all(|record| keeps_mapping(packed, record))
}

/// Whether one step of a record's character is its canonical mapping.
pub(crate) fn keeps_mapping(packed: &Packed, record: &Record) -> bool
    ensures { IsTrue result ↔ KeepsRecord packed.now «record».now }
{
    match recorded_step(record) {
        Some(step) => {
            let characters = characters_of(packed, Kind::Canonical);
            step_of(&characters, &packed.supplement, record.c) == Some(step)
        }
        None => true,
    }
}
