//! The calls on text of normalizers over borrowed data: one loop, written once for all forms and encodings.
//!
//! `icu_normalizer` makes the normalizers, of data that it checks, and passes the calls on to callers.
#![tactic(auto)]

mod borrowed;
mod boundaries;
mod checks;
mod composing;
mod composing_form;
mod decomposing;
mod decomposing_form;
mod forming;
mod offence;
mod owned;
mod runs;
mod segment;
mod serving;
mod splits;
mod to_sinks;
mod unchecked;
mod utf32;
mod writing;

pub use borrowed::NormalizerBorrowed;
pub use composing_form::{ComposingForm, ComposingNormalizerBorrowed};
pub use decomposing_form::{DecomposingForm, DecomposingNormalizerBorrowed};
pub use forming::Forming;
pub use utf32::Utf32Chars;
