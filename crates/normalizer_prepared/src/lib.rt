//! Prepared data: the data of all markers in one small file, which is read without being trusted.
#![tactic(auto)]

mod fault;
mod items;
mod numbers;
mod reading;
mod sums;
mod tables;
mod writing;

pub use fault::{Fault, PreparedError};
pub use reading::PreparedData;
pub use writing::prepared_data;

/// The letters NORM, as the number that begins a file.
const MAGIC: u32 = 0x4D52_4F4E;

/// The version of the format.
const VERSION: u32 = 2;

/// How many bytes are before what the sums are of.
const HEADER_LENGTH: usize = 20;
