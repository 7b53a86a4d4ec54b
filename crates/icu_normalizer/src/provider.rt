//! The data of normalizers, their markers, and the trait of their providers.
pub use normalizer_tables::{
    CanonicalCompositions, CodePointTable, DataError, DataMarker, DataMarkerInfo, DataProvider,
    DecompositionData, DecompositionTables, NonRecursiveDecompositionSupplement, NormalizerNfcV1,
    NormalizerNfdDataV1, NormalizerNfdSupplementV1, NormalizerNfdTablesV1, NormalizerNfkdDataV1,
    NormalizerNfkdTablesV1, NormalizerUts46DataV1, Scalars16, Scalars24, TableError,
};
