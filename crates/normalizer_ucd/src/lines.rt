//! Lines, their fields, and the numbers and characters in them.
ghost use Rattle.std.specs.Prelude.{◌≡◌, ◌==◌, ◌≤◌, map, ◌++◌, IfOk, IfSome, OnOk, count_by, find, position};
ghost use Rattle.std.specs.Str.{bytes_eq};
ghost use Rattle.std.specs.Option.{option_copied, option_map, option_to_list};
ghost use Rattle.std.specs.List.{after_first, before_first, filter_map, slice_split};
ghost use Rattle.normalizer_ucd.specs.Fields.{
  character,
  characters,
  code,
  code_point,
  data_of,
  field,
  lines,
  number,
  part,
  trim,
  with_digit,
};
ghost use Rattle.normalizer_ucd.specs.FallibleReads.{Gives, unless};
ghost use Rattle.normalizer_ucd.specs.inner.Lines.{first_found};

use crate::error::{Place, Problem, UcdError};
use std::alloc::{AllocError, Global};

/// The bytes without white space at either end.
pub(crate) fn trim(text: &[u8]) -> &[u8]
    ensures { result.now ≡ trim text.now }
{
    text.trim_ascii()
}

/// Whether both are the same bytes.
pub(crate) fn is_same(text: &[u8], other: &[u8]) -> bool
    ensures { result ≡ bytes_eq text.now other.now }
{
    text == other
}

fn position(text: &[u8], at: u8) -> Option<usize>
    ensures { result ≡ position (λ b. b == at) text.now }
{
    text.iter().position(|b| *b == at)
}

/// What is before the first of a byte.
pub(crate) fn before_first(text: &[u8], at: u8) -> &[u8]
    ensures { result.now ≡ before_first (λ b. b == at) text.now }
{
    match position(text, at) {
        Some(place) => &text[..place],
        None => text,
    }
}

/// What is after the first of a byte.
pub(crate) fn after_first(text: &[u8], at: u8) -> &[u8]
    ensures { result.now ≡ after_first (λ b. b == at) text.now }
{
    match position(text, at) {
        Some(place) => &text[place + 1..],
        None => &[],
    }
}

/// What lies between line feeds.
pub(crate) fn lines(alloc: Global, file: &[u8]) -> Result<Vec<&[u8]>, AllocError>
    ensures { IfOk result (λ v. map (λ part. part.now) v.items ≡ lines file.now) }
{
    file.split(|b| *b == b'\n').collect(alloc)
}

/// A line without its comment.
pub(crate) fn data_of(line: &[u8]) -> &[u8]
    ensures { result.now ≡ data_of line.now }
{
    trim(before_first(line, b'#'))
}

/// What lies between the occurrences of a byte, by its number.
pub(crate) fn part(text: &[u8], at: u8, number: usize) -> Option<&[u8]>
    ensures { option_copied result ≡ part text.now at number }
{
    text.split(|b| *b == at).nth(number)
}

/// A field of a line.
pub(crate) fn field(line: &[u8], number: usize) -> Option<&[u8]>
    ensures { option_copied result ≡ field line.now number }
{
    Some(trim(part(line, b';', number)?))
}

fn with_digit(radix: u32, value: u32, digit: u8) -> Option<u32>
    requires least { 2 ≤ radix }
    requires greatest { radix ≤ 36 }
    ensures { result ≡ with_digit radix value digit }
{
    let digit = char::from(digit).to_digit(radix)?;
    value.checked_mul(radix)?.checked_add(digit)
}

/// The number that digits write.
#[tactic(auto, unfolding(crate::specs::Fields::number))]
pub(crate) fn number(radix: u32, digits: &[u8]) -> Option<u32>
    requires least { 2 ≤ radix }
    requires greatest { radix ≤ 36 }
    ensures { result ≡ number radix digits.now }
{
    if digits.is_empty() {
        return None;
    }
    let mut value = 0;
    for digit in digits {
        let Some(next) = with_digit(radix, value, *digit) else {
            return None;
        };
        value = next;
    }
    Some(value)
}

/// The code point that a field writes.
pub(crate) fn code_point(text: &[u8]) -> Option<u32>
    ensures { result ≡ code_point text.now }
{
    let code = number(16, text)?;
    if code <= 0x10FFFF { Some(code) } else { None }
}

/// The code point of a line.
pub(crate) fn code(text: &[u8]) -> Option<u32>
    ensures value { result ≡ code text.now }
    ensures bounded { IfSome result (λ code. code ≤ 0x10FFFF) }
{
    code_point(field(text, 0)?)
}

fn character(text: &[u8]) -> Option<char>
    ensures { result ≡ character text.now }
{
    char::from_u32(number(16, text)?)
}

/// How often a byte occurs.
pub(crate) fn count(text: &[u8], at: u8) -> usize
    ensures { result ≡ count_by (λ b. b == at) text.now }
{
    text.iter().filter(|b| **b == at).count()
}

/// The characters among the parts between spaces.
fn characters_among(alloc: Global, text: &[u8]) -> Result<Vec<char>, AllocError>
    ensures { IfOk result (λ v. v.items ≡ filter_map character (slice_split (λ b. b == 0x20) text.now)) }
{
    text.split(|b| *b == b' ')
        .filter_map(|part| character(part))
        .collect(alloc)
}

/// The characters that a field lists, if each part is one: then there are more than spaces.
#[tactic(auto, using(crate::proofs::CharacterLists::all, crate::proofs::CharacterLists::not_all))]
pub(crate) fn characters(alloc: Global, text: &[u8]) -> Result<Option<Vec<char>>, AllocError>
    ensures { IfOk result (λ found. option_map (λ v. v.items) found ≡ characters text.now) }
{
    let found = characters_among(alloc, text)?;
    if count(text, b' ') < found.len() {
        Ok(Some(found))
    } else {
        Ok(None)
    }
}

/// An error if one of the findings is so: the first that is.
pub(crate) fn refuse(place: Place, findings: &[(Problem, bool)]) -> Result<(), UcdError>
    ensures { Gives (λ _. tt) result (unless (first_found place findings.now) (tt {0})) }
{
    match first_so(findings) {
        Some(problem) => Err(UcdError::Line(place.fault(problem))),
        None => Ok(()),
    }
}

fn first_so(findings: &[(Problem, bool)]) -> Option<Problem>
    ensures { result ≡ option_map (λ found. found.0) (find (λ found. found.1) findings.now) }
{
    let found = findings.iter().find(|found| found.1)?;
    Some(found.0)
}

/// Adds what was found, if anything was.
pub(crate) fn push_found<T: Drop>(found: &mut Vec<T>, item: Option<T>) -> Result<(), AllocError>
    ensures { OnOk result (found.new.items ≡ found.old.items ++ option_to_list item) }
{
    if let Some(item) = item {
        found.push(item)?;
    }
    Ok(())
}
