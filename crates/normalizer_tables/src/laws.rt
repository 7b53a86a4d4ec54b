//! What holds of words and tables. Each function does nothing: its contract is the law, and its proof is in `proofs/`.
pub mod plain;
pub mod tables;
