//! The normal forms of bytes in UTF-8, their comparison with them, and what is replied to their lines. A source is read
//! block by block, what no later byte can change is written or compared, and only the rest is kept.
#![tactic(auto)]

mod carried;
mod ill_formed;
mod lines;
mod mismatch;
mod position;
mod settled;
mod stream;
mod watch;

pub use ill_formed::{Ending, ErrorMode};
pub use lines::{LineTask, Replied, write_replies};
pub use mismatch::{Comparison, Mismatch, first_mismatch};
pub use position::Position;
pub use stream::write_form;
