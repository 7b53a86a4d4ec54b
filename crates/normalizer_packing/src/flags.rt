//! The two flags of a word.
ghost use Rattle.std.specs.Prelude.{◌≡◌, ◌↔◌, ◌<◌, ◌≤◌, if◌then◌else◌, ◌||◌, ◌^◌, [], ◌∷◌, IsTrue};
ghost use Rattle.normal_forms.specs.Composition.{compose, is_blocked, joined};
ghost use Rattle.normalizer_tables.specs.Words.{is_backward_combining, is_class_form, is_non_round_trip};
ghost use Rattle.normalizer_tables.specs.Entries.{reading_of_entries};
ghost use Rattle.normalizer_packing.specs.Flags.{without_flags, BeginsUnpaired, IsFlagged};

use crate::entries::{Entries, class_of};
use normalizer_tables::word::is_class_form;
use normalizer_tables::{CanonicalCompositions, compose, is_never_second};

/// The list of the character doesn't compose to it alone.
const NON_ROUND_TRIP: u32 = 0x4000_0000;

/// The list of the character begins with a mark or with the second of a pair.
const BACKWARD_COMBINING: u32 = 0x8000_0000;

/// The word of a character that spells its list, with its flags.
pub fn flagged(
    entries: &Entries<'_>,
    compositions: &CanonicalCompositions,
    character: char,
    list: &[char],
    word: u32,
) -> u32
    requires { word < 2 ^ 30 }
    ensures word { without_flags result ≡ word }
    ensures flags { IsFlagged (reading_of_entries entries.now compositions.now)
        compositions.now character list.now result }
{
    let changes = !composes_to(entries, compositions, list, character);
    let combines = is_class_form(word) || !begins_unpaired(compositions, list);
    with_flags(word, changes, combines)
}

/// A word with these flags.
#[tactic(auto, using(crate::proofs::words_of_lists::FlagLemmas::without_flags_low, crate::proofs::words_of_lists::FlagLemmas::round_trip_bit, crate::proofs::words_of_lists::FlagLemmas::backward_bit))]
fn with_flags(word: u32, changes: bool, combines: bool) -> u32
    requires { word < 2 ^ 30 }
    ensures word { without_flags result ≡ word }
    ensures round_trip { is_non_round_trip result ≡ changes }
    ensures backward { is_backward_combining result ≡ combines }
{
    let round_trip = if changes { NON_ROUND_TRIP } else { 0 };
    let backward = if combines { BACKWARD_COMBINING } else { 0 };
    word + round_trip + backward
}

/// Whether the first of a list is second in no pair.
pub fn begins_unpaired(compositions: &CanonicalCompositions, list: &[char]) -> bool
    ensures { IsTrue result ↔ BeginsUnpaired compositions.now list.now }
{
    list.first()
        .map_or(true, |first| is_never_second(compositions, *first))
}

/// Whether a list composes to this character alone: all after the first join.
#[tactic(auto, using(normalizer_tables::proofs::composites::SingleComposites::compositions, std::proofs::lemmas::Option::slice_get_read))]
pub fn composes_to(
    entries: &Entries<'_>,
    compositions: &CanonicalCompositions,
    list: &[char],
    character: char,
) -> bool
    ensures { IsTrue result ↔ (compose (reading_of_entries entries.now compositions.now) list.now ≡ character ∷ []) }
{
    let Some(&first) = list.first() else {
        return false;
    };
    let mut composite = first;
    for place in 1..list.len() {
        match joined(entries, compositions, composite, list[place]) {
            Some(next) => composite = next,
            None => return false,
        }
    }
    composite == character
}

/// What a character and the one right after it compose to.
#[tactic(auto, unfolding(normal_forms::specs::Composition::joined, normal_forms::specs::Composition::is_blocked))]
fn joined(
    entries: &Entries<'_>,
    compositions: &CanonicalCompositions,
    first: char,
    second: char,
) -> Option<char>
    ensures { result ≡ joined (reading_of_entries entries.now compositions.now) first [] second }
{
    if class_of(entries, first) == 0 {
        compose(compositions, first, second)
    } else {
        None
    }
}
