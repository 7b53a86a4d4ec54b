//! The conditions that are checked of the data as a whole.
ghost use Rattle.std.specs.Prelude.{◌↔◌, ◌+◌, ◌-◌, ◌≤◌, ℕ, IsTrue};
ghost use Rattle.std.specs.Char.{IsScalar};
ghost use Rattle.std.specs.Option.{SomeIff};
ghost use Rattle.normalizer_tables.specs.conditions.CharacterConditions.{IsFlaggedReplacement, item_count};
ghost use Rattle.normalizer_tables.specs.conditions.Conditions.{item_limit};
ghost use Rattle.normalizer_tables.specs.conditions.StepConditions.{AvoidsFdfa};

use crate::check::numbers::is_plain_starter;
use crate::step_check::avoids_fdfa;
use normalizer_tables::DecompositionTables;
use normalizer_tables::characters::{CODE_POINTS, CharacterData};
use normalizer_tables::condition::ITEM_LIMIT;
use normalizer_tables::read::read_character;
use normalizer_tables::word::{is_backward_combining, is_non_round_trip};

/// Whether the tables together have at most as many items as they may.
pub fn items_fit(data: &CharacterData<'_>) -> bool
    ensures { IsTrue result ↔ (item_count data.now.tables + item_count data.now.supplementary ≤ item_limit) }
{
    let Some(room) = room_after(ITEM_LIMIT, data.tables()) else {
        return false;
    };
    match data.supplementary() {
        Some(tables) => room_after(room, tables).is_some(),
        None => true,
    }
}

/// How many more items there is room for.
fn room_after(room: usize, tables: &DecompositionTables) -> Option<usize>
    ensures { SomeIff result (item_count tables.now ≤ room) (room - item_count tables.now) }
{
    room.checked_sub(tables.scalars16.len())?
        .checked_sub(tables.scalars24.len())
}

/// Whether U+FFFD reads to itself with class 0, and has NON_ROUND_TRIP alone.
#[tactic(auto, unfolding(normalizer_tables::specs::conditions::CharacterConditions::IsFlaggedReplacement))]
pub fn is_flagged_replacement(data: &CharacterData<'_>) -> bool
    ensures { IsTrue result ↔ IsFlaggedReplacement data.now }
{
    let read = read_character(data, char::REPLACEMENT_CHARACTER);
    is_plain_starter(&read) && is_non_round_trip(read.word) && !is_backward_combining(read.word)
}

/// Whether no number that isn't a character has a word with the form of U+FDFA: no surrogate, and none past the code
/// points.
pub fn avoid_fdfa_elsewhere(data: &CharacterData<'_>) -> bool
    ensures { IsTrue result ↔ ((n : ℕ) → (IsScalar n → ⊥) → AvoidsFdfa data.now n) }
{
    for surrogate in 0xD800..0xE000 {
        if !avoids_fdfa(surrogate, data.word_of_number(surrogate)) {
            return false;
        }
    }
    avoids_fdfa(CODE_POINTS, data.word_of_number(CODE_POINTS))
}
