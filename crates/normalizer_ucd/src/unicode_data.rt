//! UnicodeData.txt.
ghost use Rattle.std.specs.Prelude.{◌≡◌, ◌==◌, ◌≤◌, ℕ, List, [], None, Option, Some, IfOk, map, if◌then◌else◌};
ghost use Rattle.std.specs.Option.{is_none, option_and_then, option_copied, option_map, option_or, unwrap_or};
ghost use Rattle.std.specs.List.{filter_map, last_or, list_any};
ghost use Rattle.normalizer_ucd.specs.declared.error.UcdFile.TheVariants as files;
ghost use Rattle.normalizer_ucd.specs.Fields.{class, code, combining_class, ends_range};
ghost use Rattle.normalizer_ucd.specs.Fields.{field, is_tagged, mapping_in, name};
ghost use Rattle.normalizer_ucd.specs.Fields.{range_name, untagged_mapping};
ghost use Rattle.normalizer_ucd.specs.FileFaults.{breaks_range, data_findings, first_wrong, open_at_end, wrong_at};
ghost use Rattle.normalizer_ucd.specs.FileLines.{DataLine, data_lines_from, is_of_character, record_by, states_some};
ghost use Rattle.normalizer_ucd.specs.UnicodeData.{records_of};
ghost use Rattle.normalizer_ucd.specs.FallibleReads.{Gives, unless};
ghost use Rattle.normalizer_ucd.specs.inner.Lines.{read_of, text_of};
ghost use Rattle.normalizer_ucd.specs.inner.DataFileLines.{AreFieldsOf, open_range, position_by, value_of};

use crate::error::{Problem, UcdError, UcdFile};
use crate::exclusions::{Exclusion, all_mapped, exclusions_in};
use crate::lines::{
    after_first, before_first, characters, code, count, data_of, field, is_same, number,
    push_found, refuse, trim,
};
use crate::stated::agree;
use crate::wholes::whole_lines;
use normalizer_records::Record;
use std::alloc::{AllocError, Global};

/// What the fields of a line say: each if it can be read, and whether the line begins or ends a range.
#[derive(Drop)]
struct DataFields {
    lacks_last: bool,
    code: Option<u32>,
    begins: bool,
    ends: bool,
    class: Option<u8>,
    mapping: Option<Vec<char>>,
    compatibility: bool,
}

/// The position after the lines before: the least code point that may be next, the line that begins the range that is
/// open, and the number of the last line with data.
#[derive(Clone, Copy)]
struct Position<'a> {
    next: u32,
    range: Option<&'a [u8]>,
    line: usize,
}

/// Returns the records of the characters that have a class above 0 or a mapping, as the two files say. They rise by
/// character. A character is excluded from composition if the second file lists it.
///
/// # Errors
/// The first line that is wrong, or `Memory`. A file that is cut off is refused before lines are read: the last line
/// with any text is `# EOF`, or in the first file closes the range up to U+10FFFD, as in Unicode's own. So are files
/// that state different versions of Unicode. The second file is read before the first. A line of it is wrong too if its
/// character has no canonical mapping in the first. A line of the first has at least fifteen fields, and the two lines
/// of a range have one name up to the comma; `fault_of_files` says what is wrong with a line.
///
/// # Examples
/// ```rust
/// let unicode_data = b"00E4;;Ll;0;L;0061 0308;;;;N;;;;;\n0308;;Mn;230;NSM;;;;;N;;;;;\n# EOF\n";
/// let records = records_of_unicode_data(alloc, unicode_data, b"# EOF\n")?;
/// assert_eq!(rt; records.len(), 2);
/// ```
#[tactic(auto, unfolding(crate::specs::UnicodeData::records_of))]
pub fn records_of_unicode_data(
    alloc: Global,
    unicode_data: &[u8],
    composition_exclusions: &[u8],
) -> Result<Vec<Record>, UcdError>
    ensures { Gives (λ v. v.items) result (records_of unicode_data.now composition_exclusions.now) }
{
    let listed = whole_lines(
        alloc,
        UcdFile::CompositionExclusions,
        composition_exclusions,
    )?;
    let lines = whole_lines(alloc, UcdFile::UnicodeData, unicode_data)?;
    agree(alloc, &listed, UcdFile::UnicodeData, &lines)?;
    let exclusions = exclusions_in(alloc, &listed)?;
    let records = records_in(alloc, &exclusions, &lines)?;
    all_mapped(&exclusions, &records)?;
    Ok(records)
}

fn records_in(
    alloc: Global,
    exclusions: &[Exclusion],
    lines: &[&[u8]],
) -> Result<Vec<Record>, UcdError>
    ensures { let ls = data_lines_from 1 None (map (λ line. line.now) lines.now) in
        Gives (λ v. v.items) result
        (unless (option_or (first_wrong files.UnicodeData data_findings ls) (open_at_end ls))
        (filter_map (λ l. record_by (map (λ e. e.code) exclusions.now) l.text) ls)) }
{
    let mut records = Vec::new(alloc);
    let mut position = Position {
        next: 0,
        range: None,
        line: 0,
    };
    for (index, line) in lines.iter().enumerate() {
        let (next, record) = read_line(alloc, exclusions, index + 1, position, line)?;
        position = next;
        push_found(&mut records, record)?;
    }
    closed(position)?;
    Ok(records)
}

/// An error if a range is open at the end.
fn closed(position: Position<'_>) -> Result<(), UcdError>
    ensures { (ls : List DataLine) → value_of position.entry ≡ position_by (last_or None ls) →
        Gives (λ _. tt) result (unless (open_at_end ls) (tt {0})) }
{
    if position.range.is_some() {
        let place = UcdFile::UnicodeData.at(position.line);
        return Err(UcdError::Line(place.fault(Problem::Range)));
    }
    Ok(())
}

fn read_line<'a>(
    alloc: Global,
    exclusions: &[Exclusion],
    number: usize,
    position: Position<'a>,
    line: &'a [u8],
) -> Result<(Position<'a>, Option<Record>), UcdError>
    ensures { (before : Option DataLine) → value_of position.entry ≡ position_by before →
        Gives (λ x. (value_of x.0, x.1)) result (read_of files.UnicodeData data_findings position_by
        (λ l. record_by (map (λ e. e.code) exclusions.now) l.text) number before line.now) }
{
    let text = data_of(line);
    if text.is_empty() {
        return Ok((position, None));
    }
    let fields = fields_of(alloc, text)?;
    check(number, position, text, &fields)?;
    let least = fields.code.unwrap_or(0) + 1;
    let range = opened(fields.begins, text);
    let record = record_of(alloc, exclusions, fields);
    let next = Position {
        next: least,
        range,
        line: number,
    };
    Ok((next, record))
}

/// The line, if it begins a range.
fn opened(begins: bool, text: &[u8]) -> Option<&[u8]>
    ensures { option_copied result ≡ (if begins then Some text.now else None) }
{
    if begins { Some(text) } else { None }
}

fn fields_of(alloc: Global, text: &[u8]) -> Result<DataFields, AllocError>
    ensures value { IfOk result (AreFieldsOf text.now) }
    ensures bounded { IfOk result (λ fields. unwrap_or fields.code 0 ≤ 0x10FFFF) }
{
    let name = name(text);
    let begins = name.ends_with(b"First>");
    let mapping = field(text, 5);
    Ok(DataFields {
        lacks_last: lacks_last(text),
        code: code(text),
        begins,
        ends: !begins & name.ends_with(b"Last>"),
        class: class(text),
        mapping: mapping_of(alloc, mapping)?,
        compatibility: mapping.is_some_and(|mapping| is_tagged(mapping)),
    })
}

/// An error if something is wrong with a line.
fn check(
    number: usize,
    position: Position<'_>,
    text: &[u8],
    fields: &DataFields,
) -> Result<(), UcdError>
    ensures { (before : Option DataLine) → value_of position.entry ≡ position_by before →
        AreFieldsOf text.now fields.now → Gives (λ _. tt) result (unless (wrong_at files.UnicodeData data_findings
        (record { number = number; text = text.now; before = text_of before })) (tt {0})) }
{
    let code = fields.code.unwrap_or(0);
    let findings = [
        (Problem::MissingField, fields.lacks_last),
        (Problem::CodePoint, fields.code.is_none()),
        (Problem::Class, fields.class.is_none()),
        (Problem::Mapping, fields.mapping.is_none()),
        (Problem::Order, code < position.next),
        (
            Problem::Range,
            breaks_range(position.range, fields.ends, text),
        ),
        (
            Problem::NotACharacter,
            states_some(fields) & character_of(fields).is_none(),
        ),
    ];
    refuse(UcdFile::UnicodeData.at(number), &findings)
}

/// Whether the line doesn't end the range that is open, or ends one where none is.
fn breaks_range(range: Option<&[u8]>, ends: bool, text: &[u8]) -> bool
    ensures { (before : Option (List ℕ)) → option_copied range.entry ≡ open_range before → ends ≡ ends_range text.now →
        result ≡ breaks_range before text.now }
{
    match range {
        Some(first) => !(ends && is_same(range_name(name(first)), range_name(name(text)))),
        None => ends,
    }
}

fn states_some(fields: &DataFields) -> bool
    ensures { (text : List ℕ) → AreFieldsOf text fields.now → result ≡ states_some text }
{
    let is_mapped = match &fields.mapping {
        Some(mapping) => !mapping.is_empty(),
        None => false,
    };
    fields.class.unwrap_or(0) != 0 || is_mapped
}

/// The character that a line is for, if it is for one.
fn character_of(fields: &DataFields) -> Option<char>
    ensures { (text : List ℕ) → AreFieldsOf text fields.now →
        result ≡ (if is_of_character text then Some (unwrap_or (code text) 0) else None) }
{
    if fields.begins || fields.ends {
        return None;
    }
    char::from_u32(fields.code.unwrap_or(0))
}

/// What a line states of a character, if anything.
fn record_of(alloc: Global, exclusions: &[Exclusion], fields: DataFields) -> Option<Record>
    ensures { (text : List ℕ) → AreFieldsOf text fields →
        result ≡ record_by (map (λ e. e.code) exclusions.now) text }
{
    let c = character_of(&fields)?;
    if !states_some(&fields) {
        return None;
    }
    Some(Record {
        c,
        class: fields.class.unwrap_or(0),
        mapping: or_empty(alloc, fields.mapping),
        compatibility: fields.compatibility,
        excluded: is_excluded(exclusions, c as u32),
    })
}

fn or_empty(alloc: Global, mapping: Option<Vec<char>>) -> Vec<char>
    ensures { result.items ≡ unwrap_or (option_map (λ v. v.items) mapping) [] }
{
    match mapping {
        Some(mapping) => mapping,
        None => Vec::new(alloc),
    }
}

fn is_excluded(exclusions: &[Exclusion], code: u32) -> bool
    ensures { result ≡ list_any (λ n. n == code) (map (λ e. e.code) exclusions.now) }
{
    is_listed(exclusions, code)
}

fn is_listed(exclusions: &[Exclusion], code: u32) -> bool
    ensures { result ≡ list_any (λ e. e.code == code) exclusions.now }
{
    exclusions.iter().any(|excluded| excluded.code == code)
}

/// Whether the last of fifteen fields is missing. (To find it takes longer.)
#[tactic(auto, using(crate::proofs::FieldCounts::few, crate::proofs::FieldCounts::enough))]
fn lacks_last(line: &[u8]) -> bool
    ensures { result ≡ is_none (field line.now 14) }
{
    count(line, b';') < 14
}

fn name(text: &[u8]) -> &[u8]
    ensures { result.now ≡ name text.now }
{
    match field(text, 1) {
        Some(name) => name,
        None => &[],
    }
}

/// The name of a range: the name of its first and of its last line, up to the comma.
fn range_name(name: &[u8]) -> &[u8]
    ensures { result.now ≡ range_name name.now }
{
    before_first(name, b',')
}

fn class(text: &[u8]) -> Option<u8>
    ensures { result ≡ class text.now }
{
    combining_class(field(text, 3)?)
}

fn combining_class(text: &[u8]) -> Option<u8>
    ensures { result ≡ combining_class text.now }
{
    let class = number(10, text)?;
    if class < 255 { Some(class as u8) } else { None }
}

fn mapping_of(alloc: Global, text: Option<&[u8]>) -> Result<Option<Vec<char>>, AllocError>
    ensures { IfOk result (λ found.
        option_map (λ v. v.items) found ≡ option_and_then mapping_in (option_copied text.entry)) }
{
    match text {
        Some(text) => mapping_in(alloc, text),
        None => Ok(None),
    }
}

#[tactic(auto, unfolding(crate::specs::Fields::mapping_in))]
fn mapping_in(alloc: Global, text: &[u8]) -> Result<Option<Vec<char>>, AllocError>
    ensures { IfOk result (λ found. option_map (λ v. v.items) found ≡ mapping_in text.now) }
{
    if text.is_empty() {
        return Ok(Some(Vec::new(alloc)));
    }
    characters(alloc, untagged(text))
}

fn is_tagged(text: &[u8]) -> bool
    ensures { result ≡ is_tagged text.now }
{
    text.starts_with(b"<")
}

/// A mapping without its tag.
fn untagged(text: &[u8]) -> &[u8]
    ensures { result.now ≡ untagged_mapping text.now }
{
    if is_tagged(text) {
        trim(after_first(text, b'>'))
    } else {
        text
    }
}
