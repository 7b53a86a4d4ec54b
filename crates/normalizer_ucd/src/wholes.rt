//! Which files are whole.
ghost use Rattle.std.specs.Prelude.{◌≡◌, ◌==◌, ◌≤◌, not, length, map, IfOk};
ghost use Rattle.std.specs.List.{suffix_len};
ghost use Rattle.normalizer_ucd.specs.Fields.{lines, trim_end};
ghost use Rattle.normalizer_ucd.specs.Wholes.{
  closes_last_range,
  cut_off,
  ends_in_line_feed,
  is_end_mark,
  last_line,
  last_number,
  may_end,
};
ghost use Rattle.normalizer_ucd.specs.FallibleReads.{Gives, unless};

use crate::error::{Problem, UcdError, UcdFile};
use crate::lines::{code, field, lines};
use std::alloc::{AllocError, Global};

/// The lines of a file that isn't cut off.
#[tactic(auto, unfolding(crate::specs::Wholes::cut_off))]
pub(crate) fn whole_lines(alloc: Global, name: UcdFile, file: &[u8]) -> Result<Vec<&[u8]>, UcdError>
    ensures { Gives (λ v. map (λ part. part.now) v.items) result (unless (cut_off name file.now) (lines file.now)) }
{
    let parts = lines(alloc, file)?;
    if !ends_in_line_feed(file) {
        return Err(UcdError::Line(name.at(parts.len()).fault(Problem::CutOff)));
    }
    if may_end(name, last_line(file)) {
        return Ok(parts);
    }
    let number = last_number(alloc, file)?;
    Err(UcdError::Line(name.at(number).fault(Problem::NoEndMark)))
}

fn ends_in_line_feed(file: &[u8]) -> bool
    ensures { result ≡ ends_in_line_feed file.now }
{
    file.is_empty() || file.ends_with(b"\n")
}

fn trim_end(file: &[u8]) -> &[u8]
    ensures { result.now ≡ trim_end file.now }
{
    file.trim_ascii_end()
}

/// How many bytes come after the last line feed.
fn len_after_line_feed(text: &[u8]) -> usize
    ensures value { result ≡ suffix_len (λ b. not (b == 0x0A)) text.now }
    ensures within { result ≤ length text.now }
{
    text.iter().rev().take_while(|b| **b != b'\n').count()
}

/// The last line with any text.
fn last_line(file: &[u8]) -> &[u8]
    ensures { result.now ≡ last_line file.now }
{
    let text = trim_end(file);
    &text[text.len() - len_after_line_feed(text)..]
}

/// The number of the last line with any text.
fn last_number(alloc: Global, file: &[u8]) -> Result<usize, AllocError>
    ensures { IfOk result (λ number. number ≡ last_number file.now) }
{
    let parts = lines(alloc, trim_end(file))?;
    Ok(parts.len())
}

fn is_end_mark(line: &[u8]) -> bool
    ensures { result ≡ is_end_mark line.now }
{
    line == b"# EOF".as_slice()
}

/// Whether the line closes the range that ends at U+10FFFD.
fn closes_last_range(line: &[u8]) -> bool
    ensures { result ≡ closes_last_range line.now }
{
    code(line).is_some_and(|code| code == 0x10FFFD)
        && field(line, 1).is_some_and(|name| name.ends_with(b"Last>"))
}

/// Whether a file may end with the line.
fn may_end(name: UcdFile, line: &[u8]) -> bool
    ensures { result ≡ may_end name line.now }
{
    match name {
        UcdFile::UnicodeData => is_end_mark(line) || closes_last_range(line),
        UcdFile::CompositionExclusions => is_end_mark(line),
        UcdFile::IdnaMappingTable => true,
    }
}
