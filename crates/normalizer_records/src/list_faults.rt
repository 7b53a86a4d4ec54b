//! The faults that the lists of entries show.
ghost use Rattle.std.specs.Prelude.{◌≡◌, ◌<◌, ◌↔◌, ◌∷◌, [], Some, map, true, false, nat_lt};
ghost use Rattle.std.specs.Prelude.{IsSomeAnd, IsTrue, option_copied};
ghost use Rattle.std.specs.List.{list_any};
ghost use Rattle.normalizer_tables.specs.SpecialLists.{fixed_list_of};
ghost use Rattle.normalizer_records.specs.inner.EntryFaults.{
  HasLongMapperList,
  HasLongOwnList,
  HasWrongMapperList,
  HasWrongOwnClass,
};
ghost use Rattle.normalizer_records.specs.Faults.{
  begins_with_mark,
  IsFixedForm,
  IsFreeForm,
  IsTooLong,
  IsWrong,
  is_long,
};
ghost use Rattle.normalizer_records.specs.Meaning.{class_of};

use crate::lookup::{SortedRecords, class_of};
use normalizer_tables::entry::Entry;
use normalizer_tables::members::fdfa_list;
use normalizer_tables::special::fixed_list_of;

/// Whether a list begins with a mark.
fn begins_with_mark(records: &SortedRecords<'_>, list: &[char]) -> bool
    ensures { result ≡ begins_with_mark records.now list.now }
{
    match list {
        [] => false,
        [first, ..] => 0 < class_of(records, *first),
    }
}

/// Whether a list has these classes, one after another.
fn have_classes(records: &SortedRecords<'_>, list: &[char], classes: &[u8]) -> bool
    ensures { IsTrue result ↔ (classes.now ≡ map (class_of records.now) list.now) }
{
    if list.len() != classes.len() {
        return false;
    }
    for place in 0..list.len() {
        if class_of(records, list[place]) != classes[place] {
            return false;
        }
    }
    true
}

/// Whether a list is the fixed one of a character, and the classes are its.
fn is_fixed_form(records: &SortedRecords<'_>, c: char, list: &[char]) -> bool
    ensures { IsTrue result ↔ IsFixedForm records.now c list.now }
{
    match fixed_list_of(c) {
        None => false,
        Some(fixed) => {
            fixed.class() == class_of(records, c)
                && list == fixed.list()
                && have_classes(records, list, fixed.member_classes())
        }
    }
}

/// Whether a list is other than the character alone and its fixed one.
fn is_free_form(records: &SortedRecords<'_>, c: char, list: &[char]) -> bool
    ensures { IsTrue result ↔ IsFreeForm records.now c list.now }
{
    list != [c].as_slice() && !is_fixed_form(records, c, list)
}

/// Whether such a list begins with a mark, or its character is one.
fn is_wrong(records: &SortedRecords<'_>, c: char, is_mark: bool, list: &[char]) -> bool
    ensures { IsTrue result ↔ IsWrong records.now c is_mark list.now }
{
    (is_mark || begins_with_mark(records, list)) && is_free_form(records, c, list)
}

/// Whether a list is longer than words can say.
fn is_long(list: &[char]) -> bool
    ensures { result ≡ is_long list.now }
{
    17 < list.len() || (16 < list.len() && has_supplementary(list))
}

/// Whether a character is past U+FFFF.
fn has_supplementary(list: &[char]) -> bool
    ensures { result ≡ list_any (λ c. nat_lt 0xFFFF c) list.now }
{
    list.iter().any(|&c| '\u{FFFF}' < c)
}

/// Whether that is so, and it isn't the list of U+FDFA.
fn is_too_long(list: &[char]) -> bool
    ensures { IsTrue result ↔ IsTooLong list.now }
{
    is_long(list) && list != fdfa_list()
}

/// Whether a class is 255, or such a list is canonical or compatible.
pub(crate) fn has_wrong_own_class(records: &SortedRecords<'_>, entry: &Entry) -> bool
    ensures { IsTrue result ↔ HasWrongOwnClass records.now entry.now }
{
    let is_mark = 0 < entry.class;
    entry.class == 255
        || is_wrong(records, entry.character, is_mark, entry.canonical())
        || is_wrong(records, entry.character, is_mark, entry.compatibility())
}

/// Whether such a list is the mapper's.
pub(crate) fn has_wrong_mapper_list(records: &SortedRecords<'_>, entry: &Entry) -> bool
    ensures { IsTrue result ↔ HasWrongMapperList records.now entry.now }
{
    match entry.mapped() {
        Some(list) => is_wrong(records, entry.character, false, list),
        None => false,
    }
}

/// Whether the canonical or the compatibility list is too long.
pub(crate) fn has_long_own_list(entry: &Entry) -> bool
    ensures { IsTrue result ↔ HasLongOwnList entry.now }
{
    is_too_long(entry.canonical()) || is_too_long(entry.compatibility())
}

/// Whether the mapper's list is too long.
pub(crate) fn has_long_mapper_list(entry: &Entry) -> bool
    ensures { IsTrue result ↔ HasLongMapperList entry.now }
{
    match entry.mapped() {
        Some(list) => is_too_long(list),
        None => false,
    }
}
