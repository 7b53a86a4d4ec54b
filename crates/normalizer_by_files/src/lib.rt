//! Normal forms by the bytes of files: Unicode's own, or a file of prepared data; or by plain records. Each call reads,
//! checks and builds the data anew. A program that normalizes many texts does that once, by the calls that these call.
#![tactic(auto)]

mod by_prepared;
mod by_records;
mod by_unicode_data;

pub use by_prepared::{PreparedFault, form_by_prepared_data};
pub use by_records::form_by_records;
pub use by_unicode_data::{UnicodeFault, form_by_unicode_data};
pub use icu_normalizer::NormalForm;
