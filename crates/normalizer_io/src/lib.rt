//! Sources and targets of bytes for programs: reading to the end, and writing all; and files that are replaced.
#![tactic(auto)]

mod device;
mod outcome;
mod replacer;
mod standard;
mod transfer;

pub use device::{DeviceError, Source, Target};
pub use outcome::{Answer, TransferError};
pub use replacer::{Replacer, replace};
pub use standard::{Input, Output};
pub use transfer::{read_all, write_all};
