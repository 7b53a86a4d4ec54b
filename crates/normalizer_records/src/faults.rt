//! The faults that each record shows by itself, and the order of the records.
#![tactic(auto, unfolding(crate::specs::Faults::is_fixed, crate::specs::Faults::is_fixed_for_mapper, crate::specs::Faults::is_bad_mapping, crate::specs::Faults::is_bad_canonical, crate::specs::Faults::is_never_second))]

ghost use Rattle.std.specs.Prelude.{◌≡◌, map};
ghost use Rattle.std.specs.Int.{is_in_range};
ghost use Rattle.normalizer_records.specs.declared.records.BuildError.TheVariants.{Fixed, Mapping};
ghost use Rattle.normalizer_records.specs.AtFault.{first_not_rising, first_out_of_order, IsFirstShowing};
ghost use Rattle.normalizer_records.specs.Faults.{
  has_zero,
  is_bad_canonical,
  is_bad_mapping,
  is_bad_status,
  is_disallowed,
  is_fixed,
  is_fixed_for_mapper,
  is_never_second,
};
ghost use Rattle.normalizer_records.specs.Statuses.{status_of};
ghost use Rattle.normalizer_tables.specs.Hangul.{is_hangul_syllable};

use crate::at_fault::{RecordAtFault, first_of, first_with};
use crate::records::{Record, Uts46Record, Uts46Status};
use normalizer_tables::hangul::is_hangul_syllable;
use normalizer_tables::places::HasCharacter;

/// The first character that isn't greater than the one before it.
fn first_not_rising<T: HasCharacter>(items: &[T]) -> Option<char>
    ensures { result ≡ first_not_rising (map T.character items.now) }
{
    for place in 1..items.len() {
        let c = items[place].character();
        if c <= items[place - 1].character() {
            return Some(c);
        }
    }
    None
}

/// The first record that doesn't rise.
pub(crate) fn first_out_of_order(records: &[Record], uts46: &[Uts46Record]) -> Option<RecordAtFault>
    ensures { result ≡ first_out_of_order records.now uts46.now }
{
    first_of(first_not_rising(records), first_not_rising(uts46))
}

/// The first record of a character whose data are fixed.
pub(crate) fn first_fixed(records: &[Record], uts46: &[Uts46Record]) -> Option<RecordAtFault>
    ensures { IsFirstShowing records.now uts46.now Fixed result }
{
    let character = first_with(records, |record| is_fixed(record.c));
    let mapped = first_with(uts46, |record| is_fixed_for_mapper(record));
    first_of(character, mapped)
}

fn is_fixed(c: char) -> bool
    ensures { result ≡ is_fixed c }
{
    c == '\u{FFFD}' || is_in_hangul_jamo(c) || is_hangul_syllable(c as u32)
}

/// Whether a character is of the block Hangul Jamo.
fn is_in_hangul_jamo(c: char) -> bool
    ensures { result ≡ is_in_range 0x1100 0x11FF c }
{
    '\u{1100}' <= c && c <= '\u{11FF}'
}

fn is_fixed_for_mapper(record: &Uts46Record) -> bool
    ensures { result ≡ is_fixed_for_mapper record.now }
{
    let is_filler = '\u{115F}' <= record.c && record.c <= '\u{1160}';
    is_fixed(record.c) && !is_filler && !(record.c == '\u{FFFD}' && is_disallowed(&record.status))
}

/// Returns whether the mapper disallows a character of this status.
pub fn is_disallowed(status: &Uts46Status) -> bool
    ensures { result ≡ is_disallowed (status_of status.now) }
{
    match status {
        Uts46Status::Disallowed => true,
        _ => false,
    }
}

/// The first record whose mapping has a wrong length, or a character that it must not have.
pub(crate) fn first_bad_mapping(records: &[Record], uts46: &[Uts46Record]) -> Option<RecordAtFault>
    ensures { IsFirstShowing records.now uts46.now Mapping result }
{
    let character = first_with(records, |record| is_bad_mapping(record));
    let mapped = first_with(uts46, |record| is_bad_status(&record.status));
    first_of(character, mapped)
}

fn is_bad_mapping(record: &Record) -> bool
    ensures { result ≡ is_bad_mapping record.now }
{
    let is_bad = if record.compatibility {
        18 < record.mapping.len()
    } else {
        is_bad_canonical(&record.mapping)
    };
    has_zero(&record.mapping) || is_bad
}

fn is_bad_canonical(mapping: &[char]) -> bool
    ensures { result ≡ is_bad_canonical mapping.now }
{
    match mapping {
        [] | [_] => false,
        [_, second] => is_never_second(*second),
        _ => true,
    }
}

fn is_never_second(c: char) -> bool
    ensures { result ≡ is_never_second c }
{
    c == '\u{FFFD}' || is_in_hangul_jamo(c)
}

fn has_zero(mapping: &[char]) -> bool
    ensures { result ≡ has_zero mapping.now }
{
    mapping.iter().any(|&member| member == '\0')
}

fn is_bad_status(status: &Uts46Status) -> bool
    ensures { result ≡ is_bad_status (status_of status.now) }
{
    match status {
        Uts46Status::Mapped(mapping) => mapping.is_empty() || has_zero(mapping),
        _ => false,
    }
}
