//! The number below which a composing loop may pass every character without looking up its word.
ghost use Rattle.std.specs.Prelude.{◌↔◌, ◌<◌, IsTrue};
ghost use Rattle.normalizer_packing.specs.Caps.{ListHasBoundary, IsBelowCap, IsBelowCapWith};
ghost use Rattle.normalizer_packing.specs.inner.Beside.{IsCapBeside, MayPass};

use crate::disallowed::is_in;
use crate::entries::{Entries, class_of, list_of};
use crate::flags::composes_to;
use crate::packed_words::PackedWords;
use normalizer_tables::condition::CAP_LIMIT;
use normalizer_tables::entry::Kind;
use normalizer_tables::{CanonicalCompositions, is_never_second};

/// The least character that a composing loop may not pass so, but at most the limit. It may pass none in the ranges.
pub fn cap_of(words: &PackedWords<'_, '_>) -> u16
    ensures { IsCapBeside words.now.replaced.now words.now.kind words.now.entries.now words.now.compositions.now result }
{
    for number in 0..CAP_LIMIT {
        if !may_pass(words, number) {
            return number;
        }
    }
    CAP_LIMIT
}

fn may_pass(words: &PackedWords<'_, '_>, number: u16) -> bool
    requires { number < 0xD800 }
    ensures { IsTrue result ↔
        MayPass words.now.replaced.now words.now.kind words.now.entries.now words.now.compositions.now number }
{
    let entries = words.entries.by_character();
    !is_in(words.replaced, number as u32)
        && is_below_cap(entries, words.compositions, words.kind, number)
}

/// Whether a composing loop may pass a number so, by the entries.
#[tactic(auto, unfolding(crate::specs::Caps::IsBelowCap))]
fn is_below_cap(
    entries: &Entries<'_>,
    compositions: &CanonicalCompositions,
    kind: Kind,
    number: u16,
) -> bool
    requires { number < 0xD800 }
    ensures { IsTrue result ↔ IsBelowCap kind entries.now compositions.now number }
{
    let character = char::from_u32(number as u32).unwrap();
    let alone = [character];
    match list_of(entries, kind, character, &alone) {
        Some(list) => list_is_below_cap(entries, compositions, character, list),
        None => false,
    }
}

/// Whether a composing loop may pass a character with this list so.
fn list_is_below_cap(
    entries: &Entries<'_>,
    compositions: &CanonicalCompositions,
    character: char,
    list: &[char],
) -> bool
    ensures { IsTrue result ↔ IsBelowCapWith entries.now compositions.now character list.now }
{
    let is_itself = list == [character].as_slice() && class_of(entries, character) == 0;
    (is_itself || character >= '\u{C0}')
        && composes_to(entries, compositions, list, character)
        && list_has_boundary(entries, compositions, list)
}

/// Whether a list begins with a starter that is second in no pair.
fn list_has_boundary(
    entries: &Entries<'_>,
    compositions: &CanonicalCompositions,
    list: &[char],
) -> bool
    ensures { IsTrue result ↔ ListHasBoundary entries.now compositions.now list.now }
{
    match list.first() {
        Some(&first) => class_of(entries, first) == 0 && is_never_second(compositions, first),
        None => false,
    }
}
