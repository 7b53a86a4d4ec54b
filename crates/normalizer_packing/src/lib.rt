//! Packs lists of characters into the words and tables of normalization data.
#![tactic(auto)]

mod breakpoints;
mod cap;
mod disallowed;
mod entries;
mod flags;
pub mod laws;
mod packed_words;
mod packing;
mod pointing;
mod spelled;
mod spelling;
mod step_words;
mod store;
mod stores;
mod table_words;

use normalizer_tables::{
    CanonicalCompositions, DecompositionData, DecompositionTables,
    NonRecursiveDecompositionSupplement,
};
pub use packing::pack;
pub use stores::PackError;

/// The data of all markers.
#[derive(Drop)]
pub struct Packed {
    /// Canonical data.
    pub canonical: DecompositionData,
    /// Compatibility data.
    pub compatibility: DecompositionData,
    /// The mapper's data.
    pub mapper: DecompositionData,
    /// The lists of canonical data.
    pub tables: DecompositionTables,
    /// The further lists of the other two.
    pub supplementary_tables: DecompositionTables,
    /// The composing pairs.
    pub compositions: CanonicalCompositions,
    /// The supplement for single canonical decomposition steps.
    pub supplement: NonRecursiveDecompositionSupplement,
}
