//! Reads records from the files of the Unicode Character Database.
#![tactic(auto)]

mod error;
mod exclusions;
mod idna_table;
pub mod laws;
mod lines;
mod record_places;
mod stated;
mod unicode_data;
mod wholes;

pub use error::{LineFault, Place, Problem, UcdError, UcdFile};
pub use idna_table::{
    Disallowed, uts46_ranges_beside_exclusions, uts46_ranges_of_idna_table,
    uts46_records_beside_exclusions, uts46_records_of_idna_table,
};
pub use record_places::place_of_record;
pub use stated::{Version, stated_version};
pub use unicode_data::records_of_unicode_data;
