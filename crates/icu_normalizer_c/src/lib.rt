//! The calls of `icu_normalizer` for C: `include/icu_normalizer.h` declares them.
#![tactic(auto)]

mod buffer;
mod checking;
mod history;
mod mapping;
mod mismatch;
mod opening;
mod overwrite;
mod piece;
mod property;
mod question;
mod sink;
mod text;
mod version;
mod writing;
