//! The order of the lists, and what words promise of the classes of their members.
ghost use Rattle.std.specs.Prelude.{◌≡◌, ◌↔◌, [], Some, IsTrue, All, map};
ghost use Rattle.std.specs.Option.{option_map};
ghost use Rattle.normal_forms.specs.Boundary.{BeginsWithStarter};
ghost use Rattle.normal_forms.specs.Order.{order};
ghost use Rattle.normal_forms.specs.Reading.{IsStarter};
ghost use Rattle.normalizer_tables.specs.Characters.{class_of, reading_of_word};
ghost use Rattle.normalizer_tables.specs.conditions.CharacterConditions.{
  HasMarksAfterFirst,
  IsOrderedList,
  KeepsPromise,
};
ghost use Rattle.normalizer_tables.specs.SpecialLists.{fixed_list_of};
ghost use Rattle.normalizer_tables.specs.Read.{IsRead};
ghost use Rattle.normalizer_tables.specs.Readings.{reading_by};
ghost use Rattle.normalizer_tables.specs.declared.characters.IgnoredCharacters.TheVariants.{Dropped};

use normalizer_tables::characters::CharacterData;
use normalizer_tables::members::Members;
use normalizer_tables::read::ReadCharacter;
use normalizer_tables::special::fixed_list_of;
use normalizer_tables::word::{WordReading, is_class_form};

/// Whether the list of a character is in canonical order, begins with a starter unless the character has a class form,
/// and keeps the promise of the character's word.
#[tactic(auto, unfolding(normalizer_tables::specs::Characters::has_class_form))]
pub fn is_ordered_list(data: &CharacterData<'_>, read: &ReadCharacter<'_>) -> bool
    requires { IsRead data.now read.now }
    ensures { IsTrue result ↔ IsOrderedList data.now read.now.character }
{
    is_in_order(data, &read.list)
        && (is_class_form(read.word) || begins_with_starter(data, &read.list))
        && keeps_promise(data, read)
}

/// Whether a list is in canonical order.
fn is_in_order(data: &CharacterData<'_>, list: &Members<'_>) -> bool
    ensures { IsTrue result ↔ (order (reading_by data.now Dropped []) list.now ≡ list.now) }
{
    // One member alone is in order, whatever its class.
    if list.len() <= 1 {
        return true;
    }
    let mut last = 0;
    for place in 0..list.len() {
        let class = data.class_of(list.at(place));
        if 0 < class && class < last {
            return false;
        }
        last = class;
    }
    true
}

/// Whether a list is empty, or its first member a starter.
fn begins_with_starter(data: &CharacterData<'_>, list: &Members<'_>) -> bool
    ensures { IsTrue result ↔ BeginsWithStarter (reading_by data.now Dropped []) list.now }
{
    match list.get(0) {
        Some(first) => data.class_of(first) == 0,
        None => true,
    }
}

/// Whether the members of the list of a character have the classes that its word promises.
#[tactic(auto, unfolding(normalizer_tables::specs::conditions::CharacterConditions::KeepsPromise))]
fn keeps_promise(data: &CharacterData<'_>, read: &ReadCharacter<'_>) -> bool
    requires { IsRead data.now read.now }
    ensures { IsTrue result ↔
        KeepsPromise data.now read.now.character (reading_of_word data.now read.now.character) }
{
    match read.reading {
        WordReading::TwoCharacters(_, _) => has_marks_after_first(data, &read.list),
        WordReading::Listed(_, _, rest_are_marks) => {
            !rest_are_marks || has_marks_after_first(data, &read.list)
        }
        WordReading::SpecialForm(_) => has_fixed_classes(data, read.character, &read.list),
        WordReading::Fdfa => are_starters(data, &read.list),
        _ => true,
    }
}

/// Whether all members after the first are marks.
fn has_marks_after_first(data: &CharacterData<'_>, list: &Members<'_>) -> bool
    ensures { IsTrue result ↔ HasMarksAfterFirst data.now list.now }
{
    for place in 1..list.len() {
        if data.class_of(list.at(place)) == 0 {
            return false;
        }
    }
    true
}

/// Whether all members are starters.
fn are_starters(data: &CharacterData<'_>, list: &Members<'_>) -> bool
    ensures { IsTrue result ↔ All (IsStarter (reading_by data.now Dropped [])) list.now }
{
    for place in 0..list.len() {
        if data.class_of(list.at(place)) != 0 {
            return false;
        }
    }
    true
}

/// Whether a character has a fixed list, and the members of this list the classes of its members.
fn has_fixed_classes(data: &CharacterData<'_>, character: char, list: &Members<'_>) -> bool
    ensures { IsTrue result ↔
        (option_map (λ f. f.member_classes) (fixed_list_of character) ≡ Some (map (class_of data.now) list.now)) }
{
    let Some(fixed) = fixed_list_of(character) else {
        return false;
    };
    let classes = fixed.member_classes();
    if list.len() != classes.len() {
        return false;
    }
    for place in 0..list.len() {
        if data.class_of(list.at(place)) != classes[place] {
            return false;
        }
    }
    true
}
