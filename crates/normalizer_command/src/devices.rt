//! What the program reads from, and what it reports failures to.
ghost use Rattle.std.specs.Prelude.{◌≡◌, List, Option, IfOk, IfErr, OnOk};
ghost use Rattle.normalizer_command.specs.Devices.{Files};
ghost use Rattle.normalizer_command.specs.FileFaults.{IsReadUnrefused};
ghost use Rattle.normalizer_command.specs.FileReports.{Report, Tells};
ghost use Rattle.normalizer_command.specs.Messages.{report_of};

use crate::message::Message;
use normalizer_io::Source;
use std::io::ErrorKind;

/// Files by their names, and standard input.
pub trait Inputs {
    /// An open file.
    type Input: Source + Drop;

    /// What is known of the files.
    ghost files: { Self → Files };

    /// Opens the file of this name; `-` is standard input.
    ///
    /// # Errors
    /// Why it can't be opened: `Deadlock` if it is the output too, `InvalidData` if its name is not UTF-8,
    /// `Unsupported` if it isn't a regular file and has to be one.
    fn open(&self, name: &str) -> Result<Self::Input, ErrorKind>
        ensures bytes { IfOk result (λ input. Self.Input.bytes_left input ≡ (files self.now).bytes_of name.now) }
        ensures opened { OnOk result ((files self.now).can_open name.now) }
        ensures reads { IfOk result (λ input. (later : Self.Input) → Self.Input.refusal input later →
            (files self.now).read_refused name.now) }
        ensures succeeds { IfOk result (λ input. (later : Self.Input) → IsReadUnrefused (Self.Input.bytes_left later)
            Self.Input.refusal input later → (files self.now).unrefused name.now) }
        ensures fault { IfErr result ((files self.now).cannot_open name.now) };
}

/// Takes reports of files that failed.
pub trait Reports {
    /// The reports so far, if they are known.
    ghost reports: { Self → Option (List Report) };

    /// Reports a file that failed.
    fn report(&mut self, message: Message<'_>)
        ensures { Tells (reports self.old) (reports self.new) (report_of message.entry) };
}
