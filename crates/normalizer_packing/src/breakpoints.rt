//! The characters at which the word may change: all numbers between two of them have one word.
ghost use Rattle.std.specs.Prelude.{◌≡◌, ◌++◌, IfOk, OnOk, flat_map};
ghost use Rattle.normalizer_packing.specs.inner.Breakpoints.{AreBreakpoints, breakpoint_numbers};
ghost use Rattle.normalizer_packing.specs.inner.Beside.{HasEnds, ends};

use normalizer_tables::entry::Entry;
use normalizer_tables::places::characters_of;
use std::alloc::{AllocError, Global};

/// The characters at which words may change whatever the entries say: the first composing vowel and trailing consonant
/// of Hangul, and the first characters after them and after their block; the first syllable and the first character
/// after the syllables; the last character before surrogates and the first after them; U+FFFD.
const EDGES: [char; 10] = [
    '\u{1161}', '\u{1176}', '\u{11A8}', '\u{11C3}', '\u{1200}', '\u{AC00}', '\u{D7A4}', '\u{D7FF}',
    '\u{E000}', '\u{FFFD}',
];

/// Returns the characters of which entries, pairs, or the packing of numbers that no entry changes say something, and
/// the ends of ranges, in their order.
///
/// # Errors
/// [`AllocError`] if an allocation failed.
pub fn breakpoints_of(
    alloc: Global,
    entries: &[Entry],
    pairs: &[(char, char, char)],
    ranges: &[(char, char)],
) -> Result<Vec<char>, AllocError>
    ensures listed { IfOk result (λ v. AreBreakpoints entries.now pairs.now v.items) }
    ensures ends { IfOk result (λ v. HasEnds ranges.now v.items) }
{
    let mut breakpoints = unsorted_breakpoints(alloc, entries, pairs, ranges)?;
    // (entries, pairs and ranges rise each by themselves, so that a merge is faster than an unstable sort)
    breakpoints.sort()?;
    breakpoints.dedup();
    Ok(breakpoints)
}

fn unsorted_breakpoints(
    alloc: Global,
    entries: &[Entry],
    pairs: &[(char, char, char)],
    ranges: &[(char, char)],
) -> Result<Vec<char>, AllocError>
    ensures { IfOk result (λ v. v.items ≡ breakpoint_numbers entries.now pairs.now ++ flat_map ends ranges.now) }
{
    let room = pairs.len().saturating_add(EDGES.len());
    let mut breakpoints = characters_of(alloc, entries, room)?;
    for pair in pairs {
        breakpoints.push(pair.0)?;
    }
    breakpoints.extend_from_slice(&EDGES)?;
    push_ends(&mut breakpoints, ranges)?;
    Ok(breakpoints)
}

fn push_ends(breakpoints: &mut Vec<char>, ranges: &[(char, char)]) -> Result<(), AllocError>
    ensures { OnOk result (breakpoints.new.items ≡ breakpoints.old.items ++ flat_map ends ranges.now) }
{
    for range in ranges {
        breakpoints.extend_from_slice(&[range.0, range.1])?;
    }
    Ok(())
}
