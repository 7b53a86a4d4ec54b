//! The program `normtool` without its standard streams: its words, its commands over a source and a target of bytes,
//! how it ends, and the record set `rows`, of which the worked examples build data too.
#![tactic(auto)]

pub mod arguments;
pub mod ending;
pub mod row;
pub mod run;
mod set;
mod set_table;
mod worker;

pub use set::{mapper_records, records};
pub use set_table::{MAPPER_ROWS, ROWS};
