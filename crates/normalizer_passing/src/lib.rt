//! How characters pass: a byte for each code point, found by two loads.
#![tactic(auto)]

mod low_bound;
mod making;
mod pass_bytes;

pub use low_bound::LowBound;
pub use pass_bytes::PassBytes;
