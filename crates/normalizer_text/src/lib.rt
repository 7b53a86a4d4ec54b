//! Text in three encodings: decoding bytes that may not be UTF-8 and 16-bit units that may not be UTF-16, from the
//! front and from the end (The Unicode Standard, section 3.9), and sinks that text is written to.
#![tactic(auto)]

mod chars;
pub mod check_sink;
mod decoding_step;
mod groups;
pub mod laws;
mod offence;
pub mod output;
mod passing;
mod scan;
pub mod sink;
mod units;
mod utf16;
mod utf8;

pub use chars::{Chars, Utf8Chars, Utf16Chars};
pub use decoding_step::Step;
pub use offence::Offence;
pub use passing::{end_of_passing, last_starter, least_after};
pub use units::Units;
pub use utf8::text_of;
