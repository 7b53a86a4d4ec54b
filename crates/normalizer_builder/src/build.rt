//! Builds data from records.
#![tactic(auto, unfolding(crate::specs::Building::IsSmallest))]

ghost use Rattle.std.specs.Prelude.{◌≡◌, MatchResult};
ghost use Rattle.normalizer_records.specs.Recorded.{AreExpanded};
ghost use Rattle.normalizer_builder.specs.Building.{Builds, IsSmallest};
ghost use Rattle.normalizer_builder.specs.Built.{data_in};
ghost use Rattle.normalizer_builder.specs.inner.Parts.{PacksCharacters};

use crate::built::Built;
use crate::unmet::first_unmet;
use normalizer_packing::{PackError, Packed, pack};
use normalizer_records::{BuildError, ExpandedRecords, Record, Uts46Record, expanded};
use std::alloc::Global;

/// Builds data from plain records of characters.
pub struct Records;

impl Records {
    /// Builds data from `records`, and from `uts46` for the mapper: classes, lists, pairs and single decomposition
    /// steps. Each must rise by character. Without a mapper, pass `&[]`.
    ///
    /// What is built means what the records mean for every character, and every constructor accepts it.
    ///
    /// # Errors
    /// The first thing that is wrong, in the order of [`BuildError`], or `Memory`.
    ///
    /// # Examples
    /// ```rust
    /// let data = Records::build(alloc, &records, &[])?;
    /// let normalizer = ComposingNormalizer::try_new_nfc_unstable(&data)?;
    /// assert!(rt; *normalizer.as_borrowed().normalize("a\u{308}")? == *"\u{E4}");
    /// ```
    pub fn build(
        alloc: Global,
        records: &[Record],
        uts46: &[Uts46Record],
    ) -> Result<Built, BuildError>
        ensures { MatchResult result (λ b. Builds records.now uts46.now (data_in b))
            (IsSmallest records.now uts46.now) }
    {
        let expanded = expanded(alloc, records, uts46)?;
        let packed = packed_of(alloc, records, uts46, expanded)?;
        match first_unmet(records, &packed) {
            None => Ok(Built { packed }),
            Some(demand) => Err(demand.error()),
        }
    }
}

/// Data that pack records, of what is packed of them.
pub(crate) fn packed_of(
    alloc: Global,
    records: &[Record],
    uts46: &[Uts46Record],
    expanded: ExpandedRecords,
) -> Result<Packed, BuildError>
    requires { AreExpanded records.now uts46.now expanded.entries.items expanded.pairs.items }
    ensures { MatchResult result (PacksCharacters records.now uts46.now) (IsSmallest records.now uts46.now) }
{
    let ExpandedRecords { entries, pairs } = expanded;
    match pack(alloc, entries.as_slice(), &[], pairs) {
        Ok(packed) => Ok(packed),
        Err(PackError::TableFull) => Err(BuildError::TableFull),
        Err(PackError::Memory) => Err(BuildError::Memory),
    }
}
