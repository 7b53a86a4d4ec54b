//! What C keeps of normalizers, and how it is opened: from Unicode's files, or from a file of prepared data.
#![tactic(auto)]

mod box_parts;
mod defect;
mod fault;
mod form;
mod handle;
mod mapper_ranges;
mod normalizers;
mod opening;
mod owner;
mod properties;
mod slot;
#[cfg(test)]
mod tests;

pub use defect::{Defect, status_reporting};
pub use fault::{Fault, RecordsFault, status};
pub use handle::{Handle, handle_crosses};
pub use normalizers::{Normalizers, Version};
pub use opening::{open_files, open_prepared};
pub use owner::Owner;
pub use properties::Properties;
