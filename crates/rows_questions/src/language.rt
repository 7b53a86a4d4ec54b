//! The language of rows of worked examples: words, numbers, characters and inputs; the rows that set data, as records
//! or made by hand; and what questions are about, the data with the normalizers over them.
pub mod by_hand;
pub mod fault;
pub mod held;
pub mod input;
pub mod items;
pub mod printing;
pub mod record_rows;
pub mod setting;
pub mod words;
