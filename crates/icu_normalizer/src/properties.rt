//! Properties of characters: canonical combining classes, the pairs that compose, and one step of canonical
//! decomposition.
pub use crate::combining_class::{
    CanonicalCombiningClass, CanonicalCombiningClassMap, CanonicalCombiningClassMapBorrowed,
};
pub use crate::composition::{CanonicalComposition, CanonicalCompositionBorrowed};
pub use crate::decomposition::{
    CanonicalDecomposition, CanonicalDecompositionBorrowed, check_steps,
};
pub use normalizer_tables::step::Step as Decomposed;
