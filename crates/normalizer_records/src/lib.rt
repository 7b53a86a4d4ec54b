//! Plain records of characters: what they mean, and what may be wrong with them.
#![tactic(auto)]

mod at_fault;
mod chains;
mod cut_lists;
mod expansion;
mod faults;
pub mod laws;
mod list_faults;
mod lookup;
mod pair_list;
mod ranges;
mod recorded;
mod records;
mod refusals;

pub use at_fault::{RecordAtFault, Refusal, first_with};
pub use faults::is_disallowed;
pub use lookup::recorded_step;
pub use pair_list::pairs;
pub use ranges::{Uts46Range, push_records, records_of_ranges};
pub use records::{BuildError, Mappings, Record, Uts46Record, Uts46Status};
pub use refusals::{ExpandedRecords, expanded};
