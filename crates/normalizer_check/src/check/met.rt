//! Each condition: what it says of all that was loaded, and of each character.
ghost use Rattle.std.specs.Prelude.{◌≡◌, ◌↔◌, ℕ, true, IsTrue};
ghost use Rattle.std.specs.Char.{IsScalar};
ghost use Rattle.normalizer_tables.specs.Characters.{word_of};
ghost use Rattle.normalizer_tables.specs.conditions.Conditions.{says};
ghost use Rattle.normalizer_tables.specs.Read.{IsRead};
ghost use Rattle.normalizer_tables.specs.Words.{is_plain};
ghost use Rattle.normalizer_check.specs.inner.Walk.{IsMetBefore};

use crate::check::lists::is_ordered_list;
use crate::check::numbers::{
    have_no_surrogate_classes, have_sound_hangul, have_surrogate_words, is_plain_starter,
    is_sound_class, is_sound_word, reads_in_full,
};
use crate::check::overall::{avoid_fdfa_elsewhere, is_flagged_replacement, items_fit};
use crate::loaded::LoadedData;
use crate::pair_check::round_trips::{keep_plain_boundaries, keeps_boundary, keeps_round_trip};
use crate::pair_check::{are_sound_pairs, have_composable_members, have_ordered_lists};
use crate::step_check::{avoids_fdfa, has_sound_step};
use normalizer_tables::condition::{CAP_LIMIT, Condition};
use normalizer_tables::read::ReadCharacter;
use normalizer_tables::word::is_class_form;

/// Whether a condition is met as far as it is checked before the walk over words.
pub fn is_met_before(data: &LoadedData<'_>, condition: Condition) -> bool
    ensures { IsTrue result ↔ IsMetBefore data.now condition }
{
    is_met_of_all(data, condition) && is_met_of_plain(data, condition)
}

/// Whether what a condition says of all that was loaded is so.
#[tactic(auto, unfolding(normalizer_tables::specs::conditions::Conditions::says))]
fn is_met_of_all(data: &LoadedData<'_>, condition: Condition) -> bool
    ensures { IsTrue result ↔ (says data.now condition).of_all }
{
    let characters = &data.characters;
    match condition {
        Condition::ItemLimit => items_fit(characters),
        Condition::CapLimit => characters.cap() <= CAP_LIMIT,
        Condition::ReplacementCharacter => is_flagged_replacement(characters),
        Condition::Surrogates => have_surrogate_words(characters),
        Condition::PastTheEnd => !is_class_form(characters.past()),
        Condition::Hangul => have_sound_hangul(characters),
        Condition::Pairs => match data.pairs {
            Some(pairs) => are_sound_pairs(pairs) && have_composable_members(characters, pairs),
            None => true,
        },
        Condition::Results => match data.pairs {
            Some(pairs) => have_ordered_lists(characters, pairs),
            None => true,
        },
        Condition::FdfaForms => avoid_fdfa_elsewhere(characters),
        Condition::SurrogateClasses => have_no_surrogate_classes(characters),
        Condition::PairOrder => match data.pairs {
            Some(pairs) => are_sound_pairs(pairs),
            None => true,
        },
        Condition::Words
        | Condition::Members
        | Condition::Order
        | Condition::Passthrough
        | Condition::RoundTrip
        | Condition::SafeBeginning
        | Condition::Steps
        | Condition::WordClasses => true,
    }
}

/// Whether what a condition says of each character is so of those whose word is 0, flags aside. Only the beginnings of
/// such characters need a look.
#[tactic(auto, unfolding(normalizer_tables::specs::conditions::Conditions::says, crate::specs::inner::Walk::KeepsPlainBoundary))]
fn is_met_of_plain(data: &LoadedData<'_>, condition: Condition) -> bool
    ensures { IsTrue result ↔
        ((n : ℕ) → IsScalar n → is_plain (word_of data.now.characters n) ≡ true → (says data.now condition).of_each n) }
{
    match condition {
        Condition::SafeBeginning => match data.pairs {
            Some(pairs) => keep_plain_boundaries(&data.characters, data.bounds, pairs),
            None => true,
        },
        _ => true,
    }
}

/// Whether what a condition says of each character is so of this one.
#[tactic(auto, unfolding(normalizer_tables::specs::conditions::Conditions::says))]
pub fn is_met_at(data: &LoadedData<'_>, condition: Condition, read: &ReadCharacter<'_>) -> bool
    requires { IsRead data.now.characters read.now }
    ensures { IsTrue result ↔ (says data.now condition).of_each read.now.character }
{
    let characters = &data.characters;
    match condition {
        Condition::Words => is_sound_word(characters, read),
        Condition::Members => reads_in_full(characters, read),
        Condition::Order => is_ordered_list(characters, read),
        Condition::Passthrough => {
            (read.character as u32) >= data.bounds.decomposition || is_plain_starter(read)
        }
        Condition::RoundTrip => match data.pairs {
            Some(pairs) => keeps_round_trip(characters, data.bounds, pairs, read),
            None => true,
        },
        Condition::SafeBeginning => match data.pairs {
            Some(pairs) => keeps_boundary(characters, data.bounds, pairs, read),
            None => true,
        },
        Condition::FdfaForms => avoids_fdfa(read.character as u32, read.word),
        Condition::Steps => match data.supplement {
            Some(supplement) => has_sound_step(characters, supplement, read),
            None => true,
        },
        Condition::WordClasses => is_sound_class(read.character, read.word),
        Condition::ItemLimit
        | Condition::CapLimit
        | Condition::ReplacementCharacter
        | Condition::Surrogates
        | Condition::PastTheEnd
        | Condition::Hangul
        | Condition::Pairs
        | Condition::Results
        | Condition::SurrogateClasses
        | Condition::PairOrder => true,
    }
}
