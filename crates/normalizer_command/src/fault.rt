//! Why a file failed.
ghost use Rattle.std.specs.Prelude.{◌≡◌, Some};
ghost use Rattle.normalizer_command.specs.Messages.{character_of, name_of_marker, text_of_error, text_of_fault};
ghost use Rattle.normalizer_command.specs.Messages.{text_of_prepared, text_of_records, text_of_unfit, words_of};
ghost use Rattle.normalizer_command.specs.FileFaults.{fault_of_transfer};
ghost use Rattle.normalizer_command.specs.PreparedFiles.{fault_of_data, fault_of_prepared};

use icu_normalizer::{BuildError, DataError, DataMarkerInfo, NormalizeError, RecordAtFault};
use normalizer_io::TransferError;
use normalizer_prepared::{Fault as FileFault, PreparedError};
use normalizer_streams::Position;
use normalizer_ucd::{LineFault, Place};
use std::alloc::{AllocError, AllocFailed};
use std::fmt;
use std::io::ErrorKind;

/// Why a file failed, or what was done to it.
#[derive(Clone, Copy, PartialEq, Eq)]
pub enum Fault {
    /// It can't be opened.
    Open(ErrorKind),
    /// A read failed.
    Read,
    /// A write of the output was refused.
    Write,
    /// No new file can take its place.
    InPlace(ErrorKind),
    /// There was not enough memory.
    Memory,
    /// A line of a data file is wrong.
    Line(LineFault),
    /// The records of the data files can't be built.
    Records(RecordsFault),
    /// A file of prepared data can't be used.
    Prepared(PreparedFault),
    /// An ill-formed sequence begins at this position, and was fatal.
    IllFormed(Position),
    /// So many ill-formed sequences were written as U+FFFD.
    Replaced(usize),
}

/// Why the records of the data files, together, can't be built.
#[derive(Clone, Copy, PartialEq, Eq)]
pub struct RecordsFault {
    /// What is wrong.
    pub error: BuildError,
    /// The first record at fault, if a single one is.
    pub at_fault: Option<RecordAtFault>,
    /// The line that states it.
    pub place: Option<Place>,
}

impl fmt::Display for RecordsFault {
    ghost output = { λ fault. Some (text_of_records fault) };

    fn fmt<W: fmt::Write>(&self, f: &mut fmt::Formatter<W>) -> fmt::Result {
        let error = Reason(self.error);
        match (self.place, self.at_fault) {
            (Some(place), Some(at_fault)) => {
                let point = CodePoint(code_of(at_fault));
                write!(f, "line {}: U+{point}: {error}", place.line)
            }
            (None, Some(at_fault)) => {
                let point = CodePoint(code_of(at_fault));
                write!(f, "U+{point}: {error}")
            }
            (_, None) => write!(f, "{error}"),
        }
    }
}

/// Why a file of prepared data can't be used.
#[derive(Clone, Copy, PartialEq, Eq)]
pub enum PreparedFault {
    /// It has this fault, at the byte of this offset.
    Wrong(FileFault, usize),
    /// Its data of this kind break the written condition of this number.
    Unfit(DataMarkerInfo, u8),
    /// Its data for the mapper are those of the canonical mappings: it was prepared without a mapping table.
    NoMapper,
}

impl fmt::Display for PreparedFault {
    ghost output = { λ fault. Some (text_of_prepared fault) };

    fn fmt<W: fmt::Write>(&self, f: &mut fmt::Formatter<W>) -> fmt::Result {
        match *self {
            PreparedFault::Wrong(fault, offset) => {
                let words = words_of(fault);
                write!(f, "{words} at byte {offset}")
            }
            PreparedFault::Unfit(marker, condition) => write!(f, "{}", Unfit(marker, condition)),
            PreparedFault::NoMapper => f.write_str("it has no data for the mapper"),
        }
    }
}

/// What is wrong with a file of prepared data.
fn words_of(fault: FileFault) -> &'static str
    ensures { result.now ≡ words_of fault }
{
    match fault {
        FileFault::Magic => "it isn't a file of prepared data",
        FileFault::Version => "the format is of another version",
        FileFault::Length => "the file has another length",
        FileFault::Sum => "a sum of the bytes is another",
        FileFault::Short => "the file is cut off",
        FileFault::Runs => "the runs of a table aren't those of all code points",
        FileFault::Scalar => "a number isn't that of a character",
        FileFault::Trailing => "there are more bytes",
    }
}

/// The digits of a code point.
#[derive(Clone, Copy)]
pub(crate) struct CodePoint(pub(crate) u32);

impl fmt::Display for CodePoint {
    ghost use Rattle.normalizer_command.specs.Mismatches.{code_point_digits};

    ghost output = { λ point. Some (code_point_digits point.0) };

    fn fmt<W: fmt::Write>(&self, f: &mut fmt::Formatter<W>) -> fmt::Result {
        write!(f, "{:04X}", self.0)
    }
}

/// The number of the character of a record.
fn code_of(at_fault: RecordAtFault) -> u32
    ensures { result ≡ character_of at_fault }
{
    match at_fault {
        RecordAtFault::OfCharacter(c) | RecordAtFault::OfMapper(c) => c as u32,
    }
}

/// The text of why records can't be built.
#[derive(Clone, Copy)]
struct Reason(BuildError);

impl fmt::Display for Reason {
    ghost output = { λ reason. Some (text_of_error reason.0) };

    fn fmt<W: fmt::Write>(&self, f: &mut fmt::Formatter<W>) -> fmt::Result {
        match self.0 {
            BuildError::Order => f.write_str("the records don't strictly rise by character"),
            BuildError::Fixed => {
                f.write_str("a record of U+FFFD, a conjoining jamo or a Hangul syllable")
            }
            BuildError::Class => {
                f.write_str("a class of 255, or a list that begins with a mark")
            }
            BuildError::Mapping => f.write_str(
                "a mapping of a wrong length or with a character that it may not have",
            ),
            BuildError::Chain => f.write_str("more than 16 records lead from one to the next"),
            BuildError::Length => f.write_str("a list is too long"),
            BuildError::Pair => f.write_str("two records give the same pair"),
            BuildError::Unfit { marker, condition } => write!(f, "{}", Unfit(marker, condition)),
            BuildError::TableFull => {
                f.write_str("the lists have more items than the tables hold")
            }
            BuildError::Memory => f.write_str("out of memory"),
        }
    }
}

/// The text of data of a kind that break a condition.
#[derive(Clone, Copy)]
struct Unfit(DataMarkerInfo, u8);

impl fmt::Display for Unfit {
    ghost output = { λ unfit. Some (text_of_unfit unfit.0 unfit.1) };

    fn fmt<W: fmt::Write>(&self, f: &mut fmt::Formatter<W>) -> fmt::Result {
        let (name, condition) = (name_of(self.0), self.1);
        write!(f, "the data of {name} break condition {condition}")
    }
}

/// The name of a kind of data.
fn name_of(marker: DataMarkerInfo) -> &'static str
    ensures { result.now ≡ name_of_marker marker }
{
    match marker {
        DataMarkerInfo::NormalizerNfdDataV1 => "NormalizerNfdDataV1",
        DataMarkerInfo::NormalizerNfkdDataV1 => "NormalizerNfkdDataV1",
        DataMarkerInfo::NormalizerUts46DataV1 => "NormalizerUts46DataV1",
        DataMarkerInfo::NormalizerNfdTablesV1 => "NormalizerNfdTablesV1",
        DataMarkerInfo::NormalizerNfkdTablesV1 => "NormalizerNfkdTablesV1",
        DataMarkerInfo::NormalizerNfcV1 => "NormalizerNfcV1",
        DataMarkerInfo::NormalizerNfdSupplementV1 => "NormalizerNfdSupplementV1",
    }
}

impl fmt::Display for Fault {
    ghost output = { text_of_fault };

    fn fmt<W: fmt::Write>(&self, f: &mut fmt::Formatter<W>) -> fmt::Result {
        match self {
            Fault::Open(ErrorKind::NotFound) => f.write_str("no such file or directory"),
            Fault::Open(ErrorKind::Deadlock) => f.write_str("it is the output too"),
            Fault::Open(ErrorKind::InvalidData) => f.write_str("its name is not UTF-8"),
            Fault::Open(ErrorKind::Unsupported) => f.write_str("it isn't a regular file"),
            Fault::Open(kind) => write!(f, "{kind}"),
            Fault::Read => f.write_str("it can't be read"),
            Fault::Write => f.write_str("it can't be written"),
            Fault::InPlace(kind) => write!(f, "it can't be replaced: {kind}"),
            Fault::Memory => f.write_str("out of memory"),
            Fault::Line(fault) => write!(f, "line {}: {}", fault.place.line, fault.problem),
            Fault::Records(fault) => write!(f, "{fault}"),
            Fault::Prepared(fault) => write!(f, "{fault}"),
            Fault::IllFormed(_) => f.write_str("ill-formed UTF-8"),
            Fault::Replaced(count) => write!(f, "ill-formed sequences replaced by U+FFFD: {count}"),
        }
    }
}

impl From<ErrorKind> for Fault {
    ghost use Rattle.normalizer_command.specs.declared.fault.Fault.TheVariants.{Open};

    ghost from_gives = { λ kind fault. fault ≡ Open kind };

    fn from(kind: ErrorKind) -> Fault {
        Fault::Open(kind)
    }
}

impl From<AllocError> for Fault {
    ghost use Rattle.normalizer_command.specs.declared.fault.Fault.TheVariants.{Memory};

    ghost from_gives = { λ _ fault. fault ≡ Memory };

    fn from(_error: AllocError) -> Fault {
        Fault::Memory
    }
}

impl<T: Drop> From<AllocFailed<T>> for Fault {
    ghost use Rattle.normalizer_command.specs.declared.fault.Fault.TheVariants.{Memory};

    ghost from_gives = { λ _ fault. fault ≡ Memory };

    fn from(_error: AllocFailed<T>) -> Fault {
        Fault::Memory
    }
}

impl From<TransferError> for Fault {
    ghost from_gives = { λ error fault. fault ≡ fault_of_transfer error };

    fn from(error: TransferError) -> Fault {
        match error {
            TransferError::Read => Fault::Read,
            TransferError::Write => Fault::Write,
            TransferError::Memory => Fault::Memory,
        }
    }
}

// A call whose result is in memory fails only if an allocation fails.
impl From<NormalizeError> for Fault {
    ghost use Rattle.normalizer_command.specs.declared.fault.Fault.TheVariants.{Memory};

    ghost from_gives = { λ _ fault. fault ≡ Memory };

    fn from(_error: NormalizeError) -> Fault {
        Fault::Memory
    }
}

impl From<PreparedError> for Fault {
    ghost from_gives = { λ error fault. fault ≡ fault_of_prepared error };

    fn from(error: PreparedError) -> Fault {
        match error {
            PreparedError::Wrong { fault, offset } => {
                Fault::Prepared(PreparedFault::Wrong(fault, offset))
            }
            PreparedError::Memory => Fault::Memory,
        }
    }
}

impl From<DataError> for Fault {
    ghost from_gives = { λ error fault. fault ≡ fault_of_data error };

    fn from(error: DataError) -> Fault {
        match error {
            DataError::Invalid { marker, condition } => {
                Fault::Prepared(PreparedFault::Unfit(marker, condition))
            }
            // The first condition limits the sizes.
            DataError::FutureExtension(marker) => Fault::Prepared(PreparedFault::Unfit(marker, 1)),
            DataError::Provider(marker) => Fault::Prepared(PreparedFault::Unfit(marker, 0)),
            DataError::Memory => Fault::Memory,
        }
    }
}
