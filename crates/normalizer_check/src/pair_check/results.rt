//! The lists of what pairs compose to.
ghost use Rattle.std.specs.Prelude.{◌≡◌, ◌↔◌, ◌++◌, [], IsTrue, length};
ghost use Rattle.normal_forms.specs.Order.{order};
ghost use Rattle.normalizer_tables.specs.Characters.{list_of};
ghost use Rattle.normalizer_tables.specs.conditions.PairConditions.{HasOrderedLists};
ghost use Rattle.normalizer_tables.specs.Readings.{reading_by};
ghost use Rattle.normalizer_tables.specs.declared.characters.IgnoredCharacters.TheVariants.{Dropped};

use normalizer_tables::characters::{CharacterData, IgnoredCharacters};
use normalizer_tables::members::Members;
use normalizer_tables::ordering;

/// Room for two lists, each of at most 18 characters.
const ROOM: usize = 36;

/// Whether a list is the ordered lists of two characters.
#[tactic(auto, using(crate::proofs::composites::PairConditionLemmas::ordered_lists))]
pub(crate) fn is_ordered_lists(
    data: &CharacterData<'_>,
    list: &Members<'_>,
    first: char,
    second: char,
) -> bool
    ensures { IsTrue result ↔
        (list.now ≡ order (reading_by data.now Dropped []) (list_of data.now [] first ++ list_of data.now [] second)) }
{
    let of_first = data.members(first, IgnoredCharacters::Dropped);
    let of_second = data.members(second, IgnoredCharacters::Dropped);
    let mut room = ['\0'; ROOM];
    let ordered = &mut room[..of_first.len() + of_second.len()];
    write(&of_first, &mut ordered[..of_first.len()]);
    write(&of_second, &mut ordered[of_first.len()..]);
    put_in_order(data, ordered);
    is_spelled(list, ordered)
}

/// Writes a list to room of exactly its length.
pub(crate) fn write(list: &Members<'_>, room: &mut [char])
    requires { length room.old ≡ length list.now }
    ensures { room.new ≡ list.now }
{
    for place in 0..list.len() {
        room[place] = list.at(place);
    }
}

/// Whether a list has these characters.
pub(crate) fn is_spelled(list: &Members<'_>, characters: &[char]) -> bool
    ensures { IsTrue result ↔ (list.now ≡ characters.now) }
{
    for place in 0..characters.len() {
        if list.get(place) != Some(characters[place]) {
            return false;
        }
    }
    list.len() == characters.len()
}

/// Puts characters in canonical order.
pub(crate) fn put_in_order(data: &CharacterData<'_>, characters: &mut [char])
    ensures { characters.new ≡ order (reading_by data.now Dropped []) characters.old }
{
    ordering::put_in_order(&|c| data.class_of(c), characters);
}
