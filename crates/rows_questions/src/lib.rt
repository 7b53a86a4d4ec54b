//! The questions of rows of worked examples, a module for each subject, and the language of rows. Their words are in
//! `data/README.md` of `worked_rows`.
#![tactic(auto)]

pub mod calls;
pub mod data;
pub mod decoding;
pub mod encoded;
pub mod language;
pub mod properties;
pub mod record_questions;
pub mod single;
