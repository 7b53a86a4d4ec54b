//! What is reported of a file.
ghost use Rattle.normalizer_command.specs.Messages.{text_of};

use crate::fault::Fault;
use std::fmt;

/// The report of a file: its name, and why it failed, or what was done to it. A failed write is reported of standard
/// output.
#[derive(Clone, Copy)]
pub struct Message<'a> {
    /// The directory of the file, if that is not in its name.
    pub directory: Option<&'a str>,
    /// The name of the file.
    pub name: &'a str,
    /// Why it failed.
    pub fault: Fault,
}

impl fmt::Display for Message<'_> {
    ghost output = { text_of };

    fn fmt<W: fmt::Write>(&self, f: &mut fmt::Formatter<W>) -> fmt::Result {
        match (self.fault, self.directory) {
            (Fault::Write, _) => write!(f, "standard output: {}", self.fault),
            (Fault::IllFormed(at), None) => {
                write!(f, "{}:{}:{}: {}", self.name, at.line, at.byte, self.fault)
            }
            (_, Some(directory)) => write!(f, "{directory}/{}: {}", self.name, self.fault),
            (_, None) => write!(f, "{}: {}", self.name, self.fault),
        }
    }
}
