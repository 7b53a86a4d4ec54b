//! The first record at fault, if no data are built.
ghost use Rattle.std.specs.Prelude.{◌≡◌, ℕ, IfOk, option_map};
ghost use Rattle.normalizer_tables.specs.declared.provider.DataMarkerInfo.{DataMarkerInfo};
ghost use Rattle.normalizer_records.specs.declared.records.BuildError.TheVariants.{Unfit};
ghost use Rattle.normalizer_records.specs.AtFault.{IsCharacterOfFirst};
ghost use Rattle.normalizer_records.specs.Faults.{AreRising};
ghost use Rattle.normalizer_records.specs.Recorded.{AreExpanded};
ghost use Rattle.normalizer_builder.specs.AtFault.{
  IsFirstAgainst,
  IsFirstAtFault,
  IsFirstOfKind,
  IsFirstUnfit,
  record_of_kind,
};
ghost use Rattle.normalizer_builder.specs.Building.{IsSmallest};
ghost use Rattle.normalizer_builder.specs.Demands.{KeepsMapping};

use crate::build::{Records, packed_of};
use crate::demand::Demand;
use crate::unmet::{characters_of, first_unmet, keeps_mapping, loaded_of};
use normalizer_check::check::breaking::{first_breaking, first_uncomposable};
use normalizer_packing::Packed;
use normalizer_records::{
    BuildError, ExpandedRecords, Record, RecordAtFault, Uts46Record, expanded, first_with,
};
use normalizer_tables::condition::Condition;
use normalizer_tables::entry::Kind;
use std::alloc::{AllocError, Global};

impl Records {
    /// Returns the first record at fault, if [`Records::build`] returned this error for these records; those of the
    /// mapper come after the others. There is none if the error is of all records together, or is `Memory`.
    ///
    /// # Errors
    /// [`AllocError`] if an allocation failed.
    pub fn first_at_fault(
        alloc: Global,
        records: &[Record],
        uts46: &[Uts46Record],
        error: BuildError,
    ) -> Result<Option<RecordAtFault>, AllocError>
        ensures { IsSmallest records.now uts46.now error →
            IfOk result (IsFirstAtFault records.now uts46.now error) }
    {
        if let BuildError::TableFull | BuildError::Memory = error {
            return Ok(None);
        }
        match expanded(alloc, records, uts46) {
            Ok(expanded) => first_unfit(alloc, records, uts46, expanded),
            Err(refusal) => refusal.record(),
        }
    }
}

/// The first record that keeps data from meeting the first requirement that they don't meet.
fn first_unfit(
    alloc: Global,
    records: &[Record],
    uts46: &[Uts46Record],
    expanded: ExpandedRecords,
) -> Result<Option<RecordAtFault>, AllocError>
    requires { AreExpanded records.now uts46.now expanded.entries.items expanded.pairs.items }
    ensures { (marker : DataMarkerInfo) (condition : ℕ) → IsSmallest records.now uts46.now (Unfit marker condition) →
        IfOk result (IsFirstUnfit records.now uts46.now) }
{
    // (The lists fit: an error is one of memory.)
    let Ok(packed) = packed_of(alloc, records, uts46, expanded) else {
        return Err(AllocError);
    };
    match first_unmet(records, &packed) {
        Some(demand) => Ok(first_against(records, &packed, demand)),
        None => Ok(None),
    }
}

/// The first record that keeps packed data from meeting a requirement.
#[tactic(auto, unfolding(crate::specs::AtFault::IsFirstAgainst))]
fn first_against(records: &[Record], packed: &Packed, demand: Demand) -> Option<RecordAtFault>
    requires { AreRising records.now }
    ensures { IsFirstAgainst records.now packed.now demand result }
{
    match demand {
        Demand::Asks(condition, kind) => {
            record_of_kind(kind, first_of_kind(packed, kind, condition))
        }
        Demand::KeepsMappings => record_of_kind(Kind::Canonical, first_unkept(records, packed)),
    }
}

/// The record that says what data of a kind say of a character.
fn record_of_kind(kind: Kind, character: Option<char>) -> Option<RecordAtFault>
    ensures { result ≡ option_map (record_of_kind kind) character }
{
    let c = character?;
    Some(match kind {
        Kind::Canonical | Kind::Compatibility => RecordAtFault::OfCharacter(c),
        Kind::Mapper => RecordAtFault::OfMapper(c),
    })
}

/// The first character that breaks the condition, by the data of a kind.
fn first_of_kind(packed: &Packed, kind: Kind, condition: Condition) -> Option<char>
    ensures { IsFirstOfKind packed.now kind condition result }
{
    match condition {
        Condition::Pairs => first_uncomposable(&characters_of(packed, kind), &packed.compositions),
        _ => first_breaking(&loaded_of(packed, kind), condition),
    }
}

/// The first character whose recorded mapping isn't kept.
fn first_unkept(records: &[Record], packed: &Packed) -> Option<char>
    requires { AreRising records.now }
    ensures { IsCharacterOfFirst (λ r. r.c) (λ r. ¬ KeepsMapping records.now packed.now r.c) records.now result }
{
    first_with(records, |record| !keeps_mapping(packed, record))
}
