//! What is done with files, and what is listed of them.
use icu_normalizer::NormalForm;
use normalizer_streams::ErrorMode;

/// What is done with each file.
#[derive(Clone, Copy, Debug, PartialEq, Eq)]
pub enum Command {
    /// Something of a normal form.
    OfForm(Task, ErrorMode, NormalForm),
    /// Something of the mapper.
    OfMapper(MapperTask, ErrorMode),
}

/// What is done with a file by a normal form.
#[derive(Clone, Copy, Debug, PartialEq, Eq)]
pub enum Task {
    /// Its form is written.
    Write,
    /// It is compared with its form.
    Compare(Listing),
}

/// What is done with a file by the mapper.
#[derive(Clone, Copy, Debug, PartialEq, Eq)]
pub enum MapperTask {
    /// Its lines are written, each mapped by itself.
    Map,
    /// Its lines are validated.
    Validate(Listing),
}

/// What is listed of a file that isn't as it is to be.
#[derive(Clone, Copy, Debug, PartialEq, Eq)]
pub enum Listing {
    /// The place of its first mismatch, or the number of each line that isn't valid.
    Places,
    /// Its name, once.
    Names(LineEnd),
    /// Nothing.
    Nothing,
}

/// What ends a name that is listed.
#[derive(Clone, Copy, Debug, PartialEq, Eq)]
pub enum LineEnd {
    /// A line feed.
    LineFeed,
    /// NUL, which no name of a file has.
    Nul,
}
