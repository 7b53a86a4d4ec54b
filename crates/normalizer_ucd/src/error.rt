//! Why a file was refused.
ghost use Rattle.std.specs.Prelude.{◌≡◌};
ghost use Rattle.normalizer_ucd.specs.FallibleReads.{fault};
ghost use Rattle.normalizer_ucd.specs.Messages.{name_of_file, text_of_problem};

use std::alloc::{AllocError, AllocFailed};
use std::error::Error;
use std::fmt;

/// The files that are read.
#[derive(Clone, Copy, PartialEq, Eq, Debug)]
pub enum UcdFile {
    /// `UnicodeData.txt`.
    UnicodeData,
    /// `CompositionExclusions.txt`.
    CompositionExclusions,
    /// `IdnaMappingTable.txt`.
    IdnaMappingTable,
}

impl UcdFile {
    /// Returns the name of the file.
    pub fn name(self) -> &'static str
        ensures { result.now ≡ name_of_file self }
    {
        match self {
            UcdFile::UnicodeData => "UnicodeData.txt",
            UcdFile::CompositionExclusions => "CompositionExclusions.txt",
            UcdFile::IdnaMappingTable => "IdnaMappingTable.txt",
        }
    }

    pub(crate) fn at(self, line: usize) -> Place
        ensures { result ≡ record { file = self; line = line } }
    {
        Place { file: self, line }
    }
}

impl fmt::Display for UcdFile {
    ghost use Rattle.std.specs.Prelude.{Some};
    ghost use Rattle.normalizer_ucd.specs.Messages.{name_of_file};

    ghost output = { λ file. Some (name_of_file file) };

    fn fmt<W: fmt::Write>(&self, f: &mut fmt::Formatter<W>) -> fmt::Result {
        f.write_str(self.name())
    }
}

/// A line of a file.
#[derive(Clone, Copy, PartialEq, Eq, Debug)]
pub struct Place {
    /// The file.
    pub file: UcdFile,
    /// The number of the line. The first is 1.
    pub line: usize,
}

impl Place {
    pub(crate) fn fault(self, problem: Problem) -> LineFault
        ensures { result ≡ fault self problem }
    {
        LineFault {
            place: self,
            problem,
        }
    }
}

impl fmt::Display for Place {
    ghost use Rattle.std.specs.Prelude.{Some};
    ghost use Rattle.normalizer_ucd.specs.Messages.{text_of_place};

    ghost output = { λ place. Some (text_of_place place) };

    fn fmt<W: fmt::Write>(&self, f: &mut fmt::Formatter<W>) -> fmt::Result {
        write!(f, "{}:{}", self.file, self.line)
    }
}

/// What is wrong with a line.
#[derive(Clone, Copy, PartialEq, Eq, Debug)]
pub enum Problem {
    /// The line has too few fields: in `UnicodeData.txt` there are fifteen.
    MissingField,
    /// A code point is not a hexadecimal number up to 10FFFF.
    CodePoint,
    /// A canonical combining class is not a number from 0 to 254.
    Class,
    /// A mapping is not a list of characters.
    Mapping,
    /// A status is not one of Unicode Technical Standard #46.
    Status,
    /// The code points of lines aren't sorted, without duplicates.
    Order,
    /// The first line of a range has no last line of its name right after it, or the last no first right before it.
    Range,
    /// A surrogate or a range of code points with a class or a mapping.
    NotACharacter,
    /// The last line has no line feed at its end: the file is cut off.
    CutOff,
    /// The last line is none by which the file ends: the file is cut off.
    NoEndMark,
    /// Code points between the range before and the range of the line have no line.
    Gap,
    /// The last range ends before U+10FFFF.
    TooShort,
    /// The line states another version of Unicode than `CompositionExclusions.txt`.
    OtherVersion,
    /// A character that is excluded from composition has no canonical mapping: the files are of different versions.
    Unmapped,
}

impl Problem {
    /// Returns what is wrong, in English.
    pub fn text(self) -> &'static str
        ensures { result.now ≡ text_of_problem self }
    {
        match self {
            Problem::MissingField => "the line has too few fields",
            Problem::CodePoint => "the code point is not a hexadecimal number up to 10FFFF",
            Problem::Class => "the canonical combining class is not a number from 0 to 254",
            Problem::Mapping => "the mapping is not a list of characters",
            Problem::Status => "the status is not one of Unicode Technical Standard #46",
            Problem::Order => "the code points don't strictly rise",
            Problem::Range => "a range of code points is not closed",
            Problem::NotACharacter => "a class or a mapping of what is not one character",
            Problem::CutOff => "the last line has no line feed: the file is cut off",
            Problem::NoEndMark => "the file has no end mark: it is cut off",
            Problem::Gap => "code points before this line are missing",
            Problem::TooShort => "the file ends before U+10FFFF",
            Problem::OtherVersion => "the files state different versions of Unicode",
            Problem::Unmapped => "UnicodeData.txt has no canonical mapping of the character",
        }
    }
}

impl fmt::Display for Problem {
    ghost use Rattle.std.specs.Prelude.{Some};
    ghost use Rattle.normalizer_ucd.specs.Messages.{text_of_problem};

    ghost output = { λ problem. Some (text_of_problem problem) };

    fn fmt<W: fmt::Write>(&self, f: &mut fmt::Formatter<W>) -> fmt::Result {
        f.write_str(self.text())
    }
}

impl Error for Problem {}

/// What is wrong, and on which line.
#[derive(Clone, Copy, PartialEq, Eq, Debug)]
pub struct LineFault {
    /// The line.
    pub place: Place,
    /// What is wrong with it.
    pub problem: Problem,
}

impl fmt::Display for LineFault {
    ghost use Rattle.std.specs.Prelude.{Some};
    ghost use Rattle.normalizer_ucd.specs.Messages.{text_of_fault};

    ghost output = { λ fault. Some (text_of_fault fault) };

    fn fmt<W: fmt::Write>(&self, f: &mut fmt::Formatter<W>) -> fmt::Result {
        write!(f, "{}: {}", self.place, self.problem)
    }
}

/// Why a file was refused.
#[derive(Clone, Copy, PartialEq, Eq, Debug)]
pub enum UcdError {
    /// The first line that is wrong.
    Line(LineFault),
    /// An allocation failed.
    Memory,
}

impl fmt::Display for UcdError {
    ghost use Rattle.std.specs.Prelude.{Some};
    ghost use Rattle.normalizer_ucd.specs.Messages.{text_of_error};

    ghost output = { λ error. Some (text_of_error error) };

    fn fmt<W: fmt::Write>(&self, f: &mut fmt::Formatter<W>) -> fmt::Result {
        match self {
            UcdError::Line(fault) => write!(f, "{fault}"),
            UcdError::Memory => f.write_str("out of memory"),
        }
    }
}

impl Error for UcdError {}

impl From<LineFault> for UcdError {
    ghost use Rattle.normalizer_ucd.specs.declared.error.UcdError.TheVariants.{Line};

    ghost from_gives = { λ fault error. error ≡ Line fault };

    fn from(fault: LineFault) -> UcdError {
        UcdError::Line(fault)
    }
}

impl From<AllocError> for UcdError {
    ghost use Rattle.normalizer_ucd.specs.declared.error.UcdError.TheVariants.{Memory};

    ghost from_gives = { λ _ error. error ≡ Memory };

    fn from(_error: AllocError) -> UcdError {
        UcdError::Memory
    }
}

impl<T: Drop> From<AllocFailed<T>> for UcdError {
    ghost use Rattle.normalizer_ucd.specs.declared.error.UcdError.TheVariants.{Memory};

    ghost from_gives = { λ _ error. error ≡ Memory };

    fn from(_error: AllocFailed<T>) -> UcdError {
        UcdError::Memory
    }
}
