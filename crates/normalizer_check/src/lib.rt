//! The check of normalization data by the written conditions, and what holds of data that meet them.
#![tactic(auto)]

pub mod check;
pub mod laws;
pub mod loaded;
mod nfd_check;
pub mod pair_check;
pub mod refusal;
mod step_check;

pub use nfd_check::check_nfd_data;
