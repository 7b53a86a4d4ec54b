//! Ranges of the mapper's records.
ghost use Rattle.std.specs.Prelude.{◌≡◌, ◌==◌, length};
ghost use Rattle.std.specs.List.{flat_map};
ghost use Rattle.icu_normalizer.specs.MapperRanges.{entries_of};

use icu_normalizer::Uts46Range;

/// Returns whether ranges list no records.
pub(crate) fn list_nothing(ranges: &[Uts46Range]) -> bool
    ensures { result ≡ (length (flat_map entries_of ranges.now) == 0) }
{
    ranges.iter().all(|range| has_no_character(range))
}

/// Returns whether no code point of a range is a character.
fn has_no_character(range: &Uts46Range) -> bool
    ensures { result ≡ (length (entries_of range.now) == 0) }
{
    (range.first..range.end).all(|code| char::from_u32(code).is_none())
}
