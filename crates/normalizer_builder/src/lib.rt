//! Builds normalization data from plain records.
#![tactic(auto)]

mod at_fault;
mod build;
mod built;
mod demand;
pub mod laws;
mod ranges;
mod unmet;

pub use build::Records;
pub use built::Built;
pub use demand::Demand;
