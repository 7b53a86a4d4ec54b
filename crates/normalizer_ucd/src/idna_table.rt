//! IdnaMappingTable.txt.
ghost use Rattle.std.specs.Prelude.{◌≡◌, ◌==◌, ◌≤◌, ◌+◌, List, ℕ, Option, None, map, OnOk, IfOk, IfSome};
ghost use Rattle.std.specs.Option.{option_and_then, option_copied, option_map, option_or, unwrap_or};
ghost use Rattle.std.specs.List.{filter_map, flat_map, last_or, list_any};
ghost use Rattle.normalizer_records.specs.Statuses.{status_of as status_of_record};
ghost use Rattle.normalizer_records.specs.Ranges.{entries_of};
ghost use Rattle.normalizer_ucd.specs.declared.error.UcdFile.TheVariants.{IdnaMappingTable};
ghost use Rattle.normalizer_ucd.specs.Fields.{characters, first, last, last_text, lines, status_named};
ghost use Rattle.normalizer_ucd.specs.FileFaults.{fault_of_table, first_wrong, next_after, table_findings};
ghost use Rattle.normalizer_ucd.specs.FileFaults.{too_short, wrong_at};
ghost use Rattle.normalizer_ucd.specs.FileLines.{DataLine, data_lines, data_lines_from, done, is_kept, maps, range_by};
ghost use Rattle.normalizer_ucd.specs.IdnaTable.{ListsAll, uts46_records_beside, uts46_records_of};
ghost use Rattle.normalizer_ucd.specs.FallibleReads.{Gives, unless};
ghost use Rattle.normalizer_ucd.specs.inner.Lines.{read_of};
ghost use Rattle.normalizer_ucd.specs.inner.TableLines.{AreFieldsOf, covered_by};

use crate::error::{Problem, UcdError, UcdFile};
use crate::lines::{
    after_first, before_first, characters, code_point, data_of, field, is_same, lines, push_found,
    refuse,
};
use crate::stated::agree;
use crate::wholes::whole_lines;
use normalizer_records::{Uts46Range, Uts46Record, Uts46Status, records_of_ranges};
use std::alloc::{AllocError, Global};

/// Which disallowed characters get a record. Most disallowed characters are unassigned or for private use.
#[derive(Clone, Copy, PartialEq, Eq, Debug)]
pub enum Disallowed {
    /// All of them.
    All,
    /// Those of the ranges of the table that have at most so many code points. The others get no record, so a mapper
    /// leaves them as they are. Most unassigned and private-use code points are in long ranges.
    RangesUpTo(u32),
}

/// What the table does with a range.
#[derive(Clone, Copy)]
enum StatusName {
    Valid,
    Ignored,
    Mapped,
    Disallowed,
}

/// What the fields of a line say: each if it can be read, and which are missing.
#[derive(Drop)]
struct TableFields {
    first: Option<u32>,
    last: Option<u32>,
    lacks_status: bool,
    status: Option<StatusName>,
    lacks_mapping: bool,
    mapping: Option<Vec<char>>,
}

/// What the lines before cover: the code points before the end, up to the line of that number.
#[derive(Clone, Copy)]
struct Covered {
    end: u32,
    line: usize,
}

/// Returns a mapper's records, as `IdnaMappingTable.txt` says (Unicode Technical Standard #46, section 5). They rise by
/// character.
///
/// Valid characters and deviations have none. `@missing` lines are comments. `disallowed_STD3_valid` is read as
/// `valid`, `disallowed_STD3_mapped` as `mapped`. Fields after the mapping aren't read.
///
/// # Errors
/// The first line that is wrong, or `Memory`. The lines list all code points from U+0000 to U+10FFFF: a gap is a fault
/// of the line after it, and an end before U+10FFFF one of the last line with data. If the last line has no line feed,
/// the file is refused before its lines are read.
pub fn uts46_records_of_idna_table(
    alloc: Global,
    table: &[u8],
    disallowed: Disallowed,
) -> Result<Vec<Uts46Record>, UcdError>
    ensures records { Gives (λ v. v.items) result (uts46_records_of disallowed table.now) }
    ensures whole { OnOk result (ListsAll (lines table.now)) }
{
    uts46_records_beside_exclusions(alloc, &[], table, disallowed)
}

/// Returns the ranges of the table, of which [`records_of_ranges`] lists those records. Each is of one line.
///
/// # Errors
/// Those of [`uts46_records_of_idna_table`].
pub fn uts46_ranges_of_idna_table(
    alloc: Global,
    table: &[u8],
    disallowed: Disallowed,
) -> Result<Vec<Uts46Range>, UcdError>
    ensures records { Gives (λ v. flat_map entries_of v.items) result (uts46_records_of disallowed table.now) }
    ensures whole { OnOk result (ListsAll (lines table.now)) }
{
    uts46_ranges_beside_exclusions(alloc, &[], table, disallowed)
}

/// Returns the same records, if the table states the version of Unicode that `CompositionExclusions.txt` states, or one
/// of them states none.
///
/// # Errors
/// Those of [`uts46_records_of_idna_table`], and before lines are read the line that states another version.
pub fn uts46_records_beside_exclusions(
    alloc: Global,
    composition_exclusions: &[u8],
    table: &[u8],
    disallowed: Disallowed,
) -> Result<Vec<Uts46Record>, UcdError>
    ensures records { Gives (λ v. v.items) result
        (uts46_records_beside composition_exclusions.now disallowed table.now) }
    ensures whole { OnOk result (ListsAll (lines table.now)) }
{
    let ranges = uts46_ranges_beside_exclusions(alloc, composition_exclusions, table, disallowed)?;
    Ok(records_of_ranges(alloc, &ranges)?)
}

/// Returns the ranges of the same records, if the table states the version of Unicode that
/// `CompositionExclusions.txt` states, or one of them states none.
///
/// # Errors
/// Those of [`uts46_records_beside_exclusions`].
pub fn uts46_ranges_beside_exclusions(
    alloc: Global,
    composition_exclusions: &[u8],
    table: &[u8],
    disallowed: Disallowed,
) -> Result<Vec<Uts46Range>, UcdError>
    ensures records { Gives (λ v. flat_map entries_of v.items) result
        (uts46_records_beside composition_exclusions.now disallowed table.now) }
    ensures whole { OnOk result (ListsAll (lines table.now)) }
{
    read_table(alloc, composition_exclusions, table, disallowed)
}

/// The ranges of the table, if it states no other version than the exclusions.
fn read_table(
    alloc: Global,
    composition_exclusions: &[u8],
    table: &[u8],
    disallowed: Disallowed,
) -> Result<Vec<Uts46Range>, UcdError>
    ensures { Gives (λ v. v.items) result (unless (fault_of_table composition_exclusions.now table.now)
        (filter_map (λ l. range_by disallowed l.text) (data_lines table.now))) }
{
    let parts = whole_lines(alloc, UcdFile::IdnaMappingTable, table)?;
    let listed = lines(alloc, composition_exclusions)?;
    agree(alloc, &listed, UcdFile::IdnaMappingTable, &parts)?;
    ranges_in(alloc, disallowed, &parts)
}

fn ranges_in(
    alloc: Global,
    disallowed: Disallowed,
    lines: &[&[u8]],
) -> Result<Vec<Uts46Range>, UcdError>
    ensures { let ls = data_lines_from 1 None (map (λ line. line.now) lines.now) in
        Gives (λ v. v.items) result (unless (option_or (first_wrong IdnaMappingTable table_findings ls) (too_short ls))
        (filter_map (λ l. range_by disallowed l.text) ls)) }
{
    let mut ranges = Vec::new(alloc);
    let mut covered = Covered { end: 0, line: 1 };
    for (index, line) in lines.iter().enumerate() {
        let (next, range) = read_line(alloc, disallowed, index + 1, covered, line)?;
        covered = next;
        push_found(&mut ranges, range)?;
    }
    full(covered)?;
    Ok(ranges)
}

/// An error if code points are missing at the end.
fn full(covered: Covered) -> Result<(), UcdError>
    ensures { (ls : List DataLine) → covered ≡ covered_by (last_or None ls) →
        Gives (λ _. tt) result (unless (too_short ls) (tt {0})) }
{
    if covered.end == 0x110000 {
        return Ok(());
    }
    let place = UcdFile::IdnaMappingTable.at(covered.line);
    Err(UcdError::Line(place.fault(Problem::TooShort)))
}

fn read_line(
    alloc: Global,
    disallowed: Disallowed,
    number: usize,
    covered: Covered,
    line: &[u8],
) -> Result<(Covered, Option<Uts46Range>), UcdError>
    ensures { (before : Option DataLine) → covered ≡ covered_by before → Gives (λ x. x) result
        (read_of IdnaMappingTable table_findings covered_by (λ l. range_by disallowed l.text) number before line.now) }
{
    let text = data_of(line);
    if text.is_empty() {
        return Ok((covered, None));
    }
    let fields = fields_of(alloc, text)?;
    check(number, covered.end, &fields)?;
    let end = fields.last.unwrap_or(0) + 1;
    let range = range_of(disallowed, end, fields);
    Ok((Covered { end, line: number }, range))
}

fn fields_of(alloc: Global, text: &[u8]) -> Result<TableFields, AllocError>
    ensures value { IfOk result (AreFieldsOf text.now) }
    ensures bounded { IfOk result (λ fields. unwrap_or fields.last 0 ≤ 0x10FFFF) }
{
    let status = field(text, 1);
    let mapping = field(text, 2);
    Ok(TableFields {
        first: first(text),
        last: last(text),
        lacks_status: status.is_none(),
        status: status.and_then(|status| status_named(status)),
        lacks_mapping: mapping.is_none(),
        mapping: mapping_in(alloc, mapping)?,
    })
}

/// An error if something is wrong with a line. The code points are to begin with `next`.
fn check(number: usize, next: u32, fields: &TableFields) -> Result<(), UcdError>
    ensures { (l : DataLine) → AreFieldsOf l.text fields.now → number ≡ l.number → next ≡ next_after l.before →
        Gives (λ _. tt) result (unless (wrong_at IdnaMappingTable table_findings l) (tt {0})) }
{
    let start = fields.first.unwrap_or(0);
    let last = fields.last.unwrap_or(0);
    let maps = maps(fields.status);
    let findings = [
        (
            Problem::CodePoint,
            fields.first.is_none() | fields.last.is_none(),
        ),
        (Problem::Order, (start < next) | (last < start)),
        (Problem::Gap, next < start),
        (
            Problem::MissingField,
            fields.lacks_status | maps & fields.lacks_mapping,
        ),
        (Problem::Status, fields.status.is_none()),
        (Problem::Mapping, maps & fields.mapping.is_none()),
    ];
    refuse(UcdFile::IdnaMappingTable.at(number), &findings)
}

/// What is recorded of the characters of a line, if anything is.
fn range_of(disallowed: Disallowed, end: u32, fields: TableFields) -> Option<Uts46Range>
    ensures { (text : List ℕ) → AreFieldsOf text fields → end ≡ unwrap_or (last text) 0 + 1 →
        result ≡ range_by disallowed text }
{
    let first = fields.first.unwrap_or(0);
    let status = status_of(disallowed, fields)?;
    Some(Uts46Range { first, end, status })
}

/// What is done with the characters of a line, if anything is.
fn status_of(disallowed: Disallowed, fields: TableFields) -> Option<Uts46Status>
    ensures { (text : List ℕ) → AreFieldsOf text fields →
        option_map status_of_record result ≡ done disallowed text fields.status }
{
    match fields.status? {
        StatusName::Valid => None,
        StatusName::Ignored => Some(Uts46Status::Ignored),
        StatusName::Mapped => Some(Uts46Status::Mapped(fields.mapping?)),
        StatusName::Disallowed => {
            let first = fields.first.unwrap_or(0);
            let last = fields.last.unwrap_or(0);
            if is_kept(disallowed, first, last) {
                Some(Uts46Status::Disallowed)
            } else {
                None
            }
        }
    }
}

/// Whether the disallowed characters of a range get records.
fn is_kept(disallowed: Disallowed, first: u32, last: u32) -> bool
    ensures { result ≡ is_kept disallowed first last }
{
    match disallowed {
        Disallowed::All => true,
        Disallowed::RangesUpTo(most) => last.saturating_sub(first) < most,
    }
}

fn maps(status: Option<StatusName>) -> bool
    ensures { result ≡ maps status }
{
    matches!(status, Some(StatusName::Mapped))
}

/// The first code point of a line's range.
pub(crate) fn first(text: &[u8]) -> Option<u32>
    ensures { result ≡ first text.now }
{
    code_point(before_first(field(text, 0)?, b'.'))
}

/// The last code point of a line's range.
pub(crate) fn last(text: &[u8]) -> Option<u32>
    ensures value { result ≡ last text.now }
    ensures bounded { IfSome result (λ code. code ≤ 0x10FFFF) }
{
    code_point(last_text(field(text, 0)?))
}

fn has_stop(text: &[u8]) -> bool
    ensures { result ≡ list_any (λ b. b == 0x2E) text.now }
{
    text.iter().any(|b| *b == b'.')
}

/// The text of the last code point of a range: what is after two full stops side by side. One code point is its own
/// range.
fn last_text(text: &[u8]) -> &[u8]
    ensures { result.now ≡ last_text text.now }
{
    if !has_stop(text) {
        return text;
    }
    let rest = after_first(text, b'.');
    if before_first(rest, b'.').is_empty() {
        after_first(rest, b'.')
    } else {
        &[]
    }
}

#[tactic(auto, unfolding(crate::specs::Fields::status_named))]
fn status_named(text: &[u8]) -> Option<StatusName>
    ensures { result ≡ status_named text.now }
{
    if is_same(text, b"valid") {
        Some(StatusName::Valid)
    } else if is_same(text, b"deviation") {
        Some(StatusName::Valid)
    } else if is_same(text, b"disallowed_STD3_valid") {
        Some(StatusName::Valid)
    } else if is_same(text, b"ignored") {
        Some(StatusName::Ignored)
    } else if is_same(text, b"mapped") {
        Some(StatusName::Mapped)
    } else if is_same(text, b"disallowed_STD3_mapped") {
        Some(StatusName::Mapped)
    } else if is_same(text, b"disallowed") {
        Some(StatusName::Disallowed)
    } else {
        None
    }
}

/// The characters of a mapping, if there are any.
fn mapping_in(alloc: Global, text: Option<&[u8]>) -> Result<Option<Vec<char>>, AllocError>
    ensures { IfOk result (λ found.
        option_map (λ v. v.items) found ≡ option_and_then characters (option_copied text.entry)) }
{
    match text {
        Some(text) => characters(alloc, text),
        None => Ok(None),
    }
}
