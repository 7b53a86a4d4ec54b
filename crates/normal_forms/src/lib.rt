//! The Unicode normal forms, defined for any reading of characters, and their laws (Unicode Standard Annex #15; The
//! Unicode Standard, section 3.11).
#![tactic(auto)]

/// The two kinds of normal form (UAX #15, section 1.2): over canonical data NFD and NFC, over compatibility data NFKD
/// and NFKC.
#[derive(Clone, Copy, PartialEq, Eq, Debug)]
pub enum Form {
    /// NFD, or NFKD.
    Decomposing,
    /// NFC, or NFKC.
    Composing,
}

pub mod example;
pub mod laws;
