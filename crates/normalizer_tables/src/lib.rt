//! Normalization data: code point tables, the words in them, the pairs, the provider, and the conditions on them all.
#![tactic(auto)]

mod blocks;
pub mod characters;
pub mod condition;
pub mod entry;
pub mod hangul;
pub mod laws;
pub mod members;
pub mod ordering;
pub mod owned;
mod pairs;
pub mod places;
mod provider;
pub mod read;
mod scalars;
pub mod short_list;
pub mod special;
pub mod step;
mod table;
pub mod word;

pub use pairs::{
    CanonicalCompositions, compose, has_no_jamo_second, is_never_second, is_rising, may_be_second,
    pair_at, pair_count,
};
pub use provider::{
    DataError, DataMarker, DataMarkerInfo, DataProvider, DecompositionData, DecompositionTables,
    NonRecursiveDecompositionSupplement, NormalizerNfcV1, NormalizerNfdDataV1,
    NormalizerNfdSupplementV1, NormalizerNfdTablesV1, NormalizerNfkdDataV1, NormalizerNfkdTablesV1,
    NormalizerUts46DataV1,
};
pub use scalars::{Scalars16, Scalars24};
pub use table::{CodePointTable, TableError, block_count};
