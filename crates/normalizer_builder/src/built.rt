//! Data that were built: a provider of all markers.
ghost use Rattle.std.specs.Prelude.{◌≡◌, Ok, Some, IfErr, IfOk};
ghost use Rattle.normalizer_tables.specs.declared.provider.DataError.TheVariants.{Memory};

use normalizer_packing::Packed;
use normalizer_tables::{
    CanonicalCompositions, DataError, DataProvider, DecompositionData, DecompositionTables,
    NonRecursiveDecompositionSupplement, NormalizerNfcV1, NormalizerNfdDataV1,
    NormalizerNfdSupplementV1, NormalizerNfdTablesV1, NormalizerNfkdDataV1, NormalizerNfkdTablesV1,
    NormalizerUts46DataV1,
};
use std::alloc::AllocError;

/// Data built from records: a provider for all seven markers. [`Records::build`](crate::Records::build) makes it.
/// `load` copies what is held.
pub struct Built {
    /// The data of all markers.
    pub packed: Packed,
}

// Written out, so that each place that drops one makes one call.
impl Drop for Built {
    fn drop(self) {
        let Built { packed: _packed } = self;
    }
}

impl DataProvider<NormalizerNfdDataV1> for Built {
    ghost payload = { λ b. Some b.packed.canonical };

    fn load(&self) -> Result<DecompositionData, DataError> {
        loaded(self.packed.canonical.clone())
    }
}

impl DataProvider<NormalizerNfkdDataV1> for Built {
    ghost payload = { λ b. Some b.packed.compatibility };

    fn load(&self) -> Result<DecompositionData, DataError> {
        loaded(self.packed.compatibility.clone())
    }
}

impl DataProvider<NormalizerUts46DataV1> for Built {
    ghost payload = { λ b. Some b.packed.mapper };

    fn load(&self) -> Result<DecompositionData, DataError> {
        loaded(self.packed.mapper.clone())
    }
}

impl DataProvider<NormalizerNfdTablesV1> for Built {
    ghost payload = { λ b. Some b.packed.tables };

    fn load(&self) -> Result<DecompositionTables, DataError> {
        loaded(self.packed.tables.clone())
    }
}

impl DataProvider<NormalizerNfkdTablesV1> for Built {
    ghost payload = { λ b. Some b.packed.supplementary_tables };

    fn load(&self) -> Result<DecompositionTables, DataError> {
        loaded(self.packed.supplementary_tables.clone())
    }
}

impl DataProvider<NormalizerNfcV1> for Built {
    ghost payload = { λ b. Some b.packed.compositions };

    fn load(&self) -> Result<CanonicalCompositions, DataError> {
        loaded(self.packed.compositions.clone())
    }
}

impl DataProvider<NormalizerNfdSupplementV1> for Built {
    ghost payload = { λ b. Some b.packed.supplement };

    fn load(&self) -> Result<NonRecursiveDecompositionSupplement, DataError> {
        loaded(self.packed.supplement.clone())
    }
}

/// A copy of what is held, unless memory ran out.
fn loaded<T>(copy: Result<T, AllocError>) -> Result<T, DataError>
    ensures ok { IfOk result (λ d. copy ≡ Ok d) }
    ensures refused { IfErr result (λ e. e ≡ Memory) }
{
    copy.map_err(|_| DataError::Memory)
}
