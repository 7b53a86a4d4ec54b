//! The program `uninorm` but for its files and standard streams.
#![tactic(auto)]

pub mod arguments;
pub mod command;
mod data;
pub mod devices;
pub mod directory;
pub mod fault;
mod files;
mod first_byte;
mod in_place;
pub mod made;
mod mapping;
pub mod memory;
pub mod message;
pub mod reply;
pub mod run;
mod unicode_files;
mod worker;
