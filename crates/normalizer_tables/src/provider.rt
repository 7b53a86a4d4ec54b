//! The data that normalisation works on, and the trait of their providers.
ghost use Rattle.std.specs.Prelude.{◌≡◌, ◌↔◌, ◌⊎◌, Option, None, IfOk, IfErr, IsErrOf, IsNone};
ghost use Rattle.normalizer_tables.specs.Data.{Decompositions, Lists, Supplement, lists_or_none};
ghost use Rattle.normalizer_tables.specs.declared.provider.DataMarkerInfo.{DataMarkerInfo};
ghost use Rattle.normalizer_tables.specs.declared.provider.DataMarkerInfo.TheVariants as marker;

use crate::pairs::CanonicalCompositions;
use crate::scalars::{Scalars16, Scalars24};
use crate::table::CodePointTable;
use std::alloc::Global;
use std::marker::Model;
use thiserror::Error;

/// The markers of data, in their order.
#[derive(Clone, Copy, Debug, PartialEq, Eq)]
pub enum DataMarkerInfo {
    /// Canonical decompositions.
    NormalizerNfdDataV1,
    /// Compatibility decompositions.
    NormalizerNfkdDataV1,
    /// The mapper's decompositions.
    NormalizerUts46DataV1,
    /// The lists of canonical decompositions.
    NormalizerNfdTablesV1,
    /// The further lists of compatibility decompositions and of the mapper's.
    NormalizerNfkdTablesV1,
    /// The composing pairs.
    NormalizerNfcV1,
    /// The supplement for single canonical decomposition steps.
    NormalizerNfdSupplementV1,
}

/// Why data could not be loaded, or were refused.
#[derive(Clone, Copy, Debug, PartialEq, Eq, Error)]
pub enum DataError {
    /// The provider holds nothing for this marker.
    #[error("no data are held for {0:?}")]
    Provider(DataMarkerInfo),
    /// The tables have more items than the limit, 8,191 together.
    #[error("the data of {0:?} are too large for this version")]
    FutureExtension(DataMarkerInfo),
    /// The data break the written condition of this number (`docs/CONDITIONS.md`), the lowest that fails.
    #[error("the data of {marker:?} break condition {condition}")]
    Invalid {
        /// The kind of data.
        marker: DataMarkerInfo,
        /// The number of the condition.
        condition: u8,
    },
    /// An allocation failed.
    #[error("out of memory")]
    Memory,
}

/// A marker: a kind of data, with its type and its place among the markers.
pub trait DataMarker {
    /// The type of the data.
    type Data;

    ghost INFO: { DataMarkerInfo };

    /// Its place among the markers.
    const INFO: DataMarkerInfo;
}

/// A provider of the data of a marker. Constructors check what `load` returns, so a provider need not be trusted.
pub trait DataProvider<M: DataMarker> {
    ghost payload: { Self → Option M.Data };

    /// Returns what is held for the marker.
    ///
    /// # Errors
    /// `Provider` if and only if nothing is held; otherwise `Memory` alone.
    fn load(&self) -> Result<M::Data, DataError>
        ensures ok { IfOk result (λ d. payload self.now ≡ Some d) }
        ensures missing { IsErrOf result (DataError.Provider M.INFO) ↔ IsNone (payload self.now) }
        ensures refused { IfErr result (λ e. (e ≡ DataError.Provider M.INFO) ⊎ (e ≡ DataError.Memory)) };
}

/// Decomposition data: the words of all characters, and `passthrough_cap`, the number below which no character changes
/// by composing.
#[derive(Clone, PartialEq, Eq)]
pub struct DecompositionData {
    /// The words.
    pub table: CodePointTable,
    /// The number below which no character changes by composing.
    pub passthrough_cap: u16,
}

// Written out, so that each place that drops one makes one call.
impl Drop for DecompositionData {
    fn drop(self) {
        let DecompositionData {
            table: _table,
            passthrough_cap: _passthrough_cap,
        } = self;
    }
}

impl Model for DecompositionData {
    ghost Value = { Decompositions };

    ghost view = { λ d. record { table = d.table; cap = d.passthrough_cap } };

    ghost inverse = { λ d. record { table = d.table; passthrough_cap = d.cap } };
}

/// The lists of characters that words point into.
#[derive(Clone, PartialEq, Eq)]
pub struct DecompositionTables {
    /// The lists of characters up to U+FFFF, one after another.
    pub scalars16: Scalars16,
    /// The other lists, one after another.
    pub scalars24: Scalars24,
}

// Written out, so that each place that drops one makes one call.
impl Drop for DecompositionTables {
    fn drop(self) {
        let DecompositionTables {
            scalars16: _scalars16,
            scalars24: _scalars24,
        } = self;
    }
}

impl Model for DecompositionTables {
    ghost Value = { Lists };

    ghost view = { λ t. record { scalars16 = t.scalars16; scalars24 = t.scalars24 } };

    ghost inverse = { λ t. record { scalars16 = t.scalars16; scalars24 = t.scalars24 } };
}

impl DecompositionTables {
    /// Returns tables without lists. It takes no memory.
    pub fn empty(alloc: Global) -> Self
        ensures { result ≡ lists_or_none None }
    {
        DecompositionTables {
            scalars16: Scalars16::from(Vec::new(alloc)),
            scalars24: Scalars24::from(Vec::new(alloc)),
        }
    }
}

/// What single decomposition steps need besides the words.
#[derive(Clone, PartialEq, Eq)]
pub struct NonRecursiveDecompositionSupplement {
    /// The words of the characters that need them.
    pub table: CodePointTable,
    /// The pairs of characters that they point to.
    pub scalars24: Scalars24,
}

// Written out, so that each place that drops one makes one call.
impl Drop for NonRecursiveDecompositionSupplement {
    fn drop(self) {
        let NonRecursiveDecompositionSupplement {
            table: _table,
            scalars24: _scalars24,
        } = self;
    }
}

impl Model for NonRecursiveDecompositionSupplement {
    ghost Value = { Supplement };

    ghost view = { λ s. record { table = s.table; scalars24 = s.scalars24 } };

    ghost inverse = { λ s. record { table = s.table; scalars24 = s.scalars24 } };
}

/// The marker of canonical decompositions.
pub struct NormalizerNfdDataV1;

/// The marker of compatibility decompositions.
pub struct NormalizerNfkdDataV1;

/// The marker of the mapper's decompositions (UTS #46, section 4).
pub struct NormalizerUts46DataV1;

/// The marker of the lists of canonical decompositions.
pub struct NormalizerNfdTablesV1;

/// The marker of the further lists, which compatibility decompositions and the mapper's need.
pub struct NormalizerNfkdTablesV1;

/// The marker of the composing pairs.
pub struct NormalizerNfcV1;

/// The marker of the supplement for single canonical decomposition steps.
pub struct NormalizerNfdSupplementV1;

impl DataMarker for NormalizerNfdDataV1 {
    type Data = DecompositionData;

    ghost INFO = { marker.NormalizerNfdDataV1 };

    const INFO: DataMarkerInfo = DataMarkerInfo::NormalizerNfdDataV1;
}

impl DataMarker for NormalizerNfkdDataV1 {
    type Data = DecompositionData;

    ghost INFO = { marker.NormalizerNfkdDataV1 };

    const INFO: DataMarkerInfo = DataMarkerInfo::NormalizerNfkdDataV1;
}

impl DataMarker for NormalizerUts46DataV1 {
    type Data = DecompositionData;

    ghost INFO = { marker.NormalizerUts46DataV1 };

    const INFO: DataMarkerInfo = DataMarkerInfo::NormalizerUts46DataV1;
}

impl DataMarker for NormalizerNfdTablesV1 {
    type Data = DecompositionTables;

    ghost INFO = { marker.NormalizerNfdTablesV1 };

    const INFO: DataMarkerInfo = DataMarkerInfo::NormalizerNfdTablesV1;
}

impl DataMarker for NormalizerNfkdTablesV1 {
    type Data = DecompositionTables;

    ghost INFO = { marker.NormalizerNfkdTablesV1 };

    const INFO: DataMarkerInfo = DataMarkerInfo::NormalizerNfkdTablesV1;
}

impl DataMarker for NormalizerNfcV1 {
    type Data = CanonicalCompositions;

    ghost INFO = { marker.NormalizerNfcV1 };

    const INFO: DataMarkerInfo = DataMarkerInfo::NormalizerNfcV1;
}

impl DataMarker for NormalizerNfdSupplementV1 {
    type Data = NonRecursiveDecompositionSupplement;

    ghost INFO = { marker.NormalizerNfdSupplementV1 };

    const INFO: DataMarkerInfo = DataMarkerInfo::NormalizerNfdSupplementV1;
}
