//! Where the program finds its data.

use normalizer_command::directory::{own_paths, path_of};
use std::alloc::AllocError;
use std::env::{self, VarError};
use std::io::ErrorKind;
use std::{fmt, fs};

/// The variable that names the data.
const VARIABLE: &str = "UNINORM_DATA";

/// Why there are no data.
#[derive(Drop)]
pub(crate) enum NoData {
    /// There was not enough memory.
    Memory,
    /// The value of the variable is not UTF-8.
    Variable,
    /// The folder of the program is not known, or none of its own paths is there.
    Own(Option<String>),
}

impl From<AllocError> for NoData {
    fn from(_error: AllocError) -> NoData {
        NoData::Memory
    }
}

impl fmt::Display for NoData {
    fn fmt<W: fmt::Write>(&self, f: &mut fmt::Formatter<W>) -> fmt::Result {
        match self {
            NoData::Memory => f.write_str("out of memory"),
            NoData::Variable => write!(f, "the value of {VARIABLE} is not UTF-8"),
            NoData::Own(None) => write!(f, "its own folder is not known: {HINT}"),
            NoData::Own(Some(folder)) => write!(
                f,
                "no data in {folder}/data/unicode or {folder}/../share/uninorm: {HINT}"
            ),
        }
    }
}

/// What a user may do about it.
const HINT: &str = "name their path by --data or UNINORM_DATA";

/// What data may be.
#[derive(Clone, Copy, PartialEq, Eq)]
pub(crate) enum Kind {
    /// A file or a directory.
    Any,
    /// A directory.
    Directory,
}

/// Returns the path of the data, by what `--data` names, the environment and the program's own file, if its own data are
/// of this kind.
///
/// # Errors
/// Why there is none.
pub(crate) fn path(rt: &HostRuntime, named: Option<&str>, kind: Kind) -> Result<String, NoData> {
    let variable = match named {
        Some(_) => None,
        None => variable(rt)?,
    };
    let folder = folder(rt)?;
    let own = match folder.as_deref() {
        Some(folder) => own_paths(rt.alloc(), folder)?,
        None => Vec::new(rt.alloc()),
    };
    match chosen(rt, named, variable.as_deref(), &own, kind)? {
        Some(path) => Ok(path),
        None => Err(NoData::Own(folder)),
    }
}

/// The path of the data, if one is named or one of the program's own is there.
fn chosen(
    rt: &HostRuntime,
    named: Option<&str>,
    variable: Option<&str>,
    own: &[String],
    kind: Kind,
) -> Result<Option<String>, AllocError> {
    let there = there(rt, own, kind)?;
    match path_of(named, variable, &there) {
        Some(path) => Ok(Some(String::from_str(rt.alloc(), path)?)),
        None => Ok(None),
    }
}

/// The value of the variable, if it is set.
fn variable(rt: &HostRuntime) -> Result<Option<String>, NoData> {
    match env::var(rt, VARIABLE) {
        Ok(value) => Ok(Some(value)),
        Err(VarError::NotPresent) => Ok(None),
        Err(VarError::NotUnicode) => Err(NoData::Variable),
        Err(VarError::OutOfMemory) => Err(NoData::Memory),
    }
}

/// The folder of the program's own file, with links resolved, if it is known.
fn folder(rt: &HostRuntime) -> Result<Option<String>, NoData> {
    match env::current_exe(rt) {
        Ok(program) => match program.parent() {
            Some(folder) => Ok(Some(String::from_str(rt.alloc(), folder.as_str())?)),
            None => Ok(None),
        },
        Err(error) if error.kind() == ErrorKind::OutOfMemory => Err(NoData::Memory),
        Err(_) => Ok(None),
    }
}

/// Those of the paths where there are data of this kind.
fn there<'a>(rt: &HostRuntime, own: &'a [String], kind: Kind) -> Result<Vec<&'a str>, AllocError> {
    let mut there = Vec::new(rt.alloc());
    for path in own {
        match fs::metadata(rt, path.as_str()) {
            Ok(data) if data.is_dir() || kind == Kind::Any => there.push(path.as_str())?,
            _ => {}
        }
    }
    Ok(there)
}
