//! The version of Unicode that a file states.
ghost use Rattle.std.specs.Prelude.{◌≡◌, map, IfOk};
ghost use Rattle.normalizer_ucd.specs.Fields.{has_data};
ghost use Rattle.normalizer_ucd.specs.Versions.{
  find_map,
  is_digit_or_stop,
  is_same,
  number_at,
  other_version,
  stated_in,
  stated_version,
  version_in,
  version_of,
  words,
};
ghost use Rattle.normalizer_ucd.specs.FallibleReads.{Gives, unless};

use crate::error::{Problem, UcdError, UcdFile};
use crate::lines::{data_of, lines, number, part};
use std::alloc::{AllocError, Global};
use std::fmt;

/// A version of Unicode. Versions are ordered.
#[derive(Clone, Copy, PartialEq, Eq, PartialOrd, Ord, Debug)]
pub struct Version {
    /// The major version.
    pub major: u32,
    /// The minor version.
    pub minor: u32,
    /// The update.
    pub update: u32,
}

impl fmt::Display for Version {
    fn fmt<W: fmt::Write>(&self, f: &mut fmt::Formatter<W>) -> fmt::Result {
        write!(f, "{}.{}.{}", self.major, self.minor, self.update)
    }
}

/// A version, and the number of the line that states it.
#[derive(Clone, Copy)]
pub(crate) struct Statement {
    version: Version,
    line: usize,
}

/// Returns the version of Unicode that a file states: the first three decimal numbers that full stops join, as in
/// `15.0.0`, in the lines before its first line with data. A file may state none, as `UnicodeData.txt` of Unicode.
///
/// # Errors
/// If an allocation fails.
pub fn stated_version(alloc: Global, file: &[u8]) -> Result<Option<Version>, AllocError>
    ensures { IfOk result (λ version. version ≡ stated_version file.now) }
{
    let parts = lines(alloc, file)?;
    Ok(stated_in(alloc, &parts)?.map(|stated| stated.version))
}

/// An error if a file states another version than the one stated before.
pub(crate) fn agree(
    alloc: Global,
    first: &[&[u8]],
    name: UcdFile,
    second: &[&[u8]],
) -> Result<(), UcdError>
    ensures { Gives (λ _. tt) result (unless (other_version (stated_in (map (λ line. line.now) first.now)) name
        (stated_in (map (λ line. line.now) second.now))) (tt {0})) }
{
    let Some(wanted) = stated_in(alloc, first)? else {
        return Ok(());
    };
    let Some(found) = stated_in(alloc, second)? else {
        return Ok(());
    };
    if is_same(wanted.version, found.version) {
        return Ok(());
    }
    Err(UcdError::Line(name.at(found.line).fault(Problem::OtherVersion)))
}

fn is_same(version: Version, other: Version) -> bool
    ensures { result ≡ is_same version other }
{
    version.major == other.major && version.minor == other.minor && version.update == other.update
}

/// The first version in the head of a file.
fn stated_in(alloc: Global, lines: &[&[u8]]) -> Result<Option<Statement>, AllocError>
    ensures { IfOk result (λ s. s ≡ stated_in (map (λ line. line.now) lines.now)) }
{
    for (index, line) in lines.iter().enumerate() {
        if has_data(line) {
            return Ok(None);
        }
        if let Some(version) = version_in(alloc, line)? {
            return Ok(Some(Statement {
                version,
                line: index + 1,
            }));
        }
    }
    Ok(None)
}

fn has_data(line: &[u8]) -> bool
    ensures { result ≡ has_data line.now }
{
    !data_of(line).is_empty()
}

/// The first version in a line.
#[tactic(auto, unfolding(crate::specs::Versions::version_in))]
fn version_in(alloc: Global, line: &[u8]) -> Result<Option<Version>, AllocError>
    ensures { IfOk result (λ version. version ≡ version_in line.now) }
{
    let words = words(alloc, line)?;
    Ok(first_version(&words))
}

fn first_version(words: &[&[u8]]) -> Option<Version>
    ensures { result ≡ find_map version_of (map (λ word. word.now) words.now) }
{
    for word in words {
        if let Some(version) = version_of(word) {
            return Some(version);
        }
    }
    None
}

fn is_digit_or_stop(byte: u8) -> bool
    ensures { result ≡ is_digit_or_stop byte }
{
    byte.is_ascii_digit() || byte == b'.'
}

/// The longest runs of digits and full stops.
fn words(alloc: Global, line: &[u8]) -> Result<Vec<&[u8]>, AllocError>
    ensures { IfOk result (λ v. map (λ word. word.now) v.items ≡ words line.now) }
{
    line.split(|b| !is_digit_or_stop(*b)).collect(alloc)
}

fn number_at(word: &[u8], at: usize) -> Option<u32>
    ensures { result ≡ number_at word.now at }
{
    number(10, part(word, b'.', at)?)
}

fn version_of(word: &[u8]) -> Option<Version>
    ensures { result ≡ version_of word.now }
{
    Some(Version {
        major: number_at(word, 0)?,
        minor: number_at(word, 1)?,
        update: number_at(word, 2)?,
    })
}
