//! Iterators over the characters of a normal form (The Unicode Standard, D118 to D121).
#![tactic(auto)]

mod collecting;
pub mod composition;
pub mod decomposition;
mod error;
pub mod laws;
mod pairs;
mod pending;
mod reading;
pub mod segment;
mod waiting;

pub use collecting::collected;
pub use composition::Composition;
pub use decomposition::Decomposition;
pub use error::NormalizeError;
pub use segment::SegmentBuffer;
