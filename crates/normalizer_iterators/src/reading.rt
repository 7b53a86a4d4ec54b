//! Reading further characters, up to a boundary.
ghost use Rattle.std.specs.Prelude.{◌≡◌, ◌+◌, ◌≤◌, ◌++◌, ℕ, List, length, drop, IsOk, IfOk, OnOk, OnErr, []};
ghost use Rattle.std.specs.Prelude.{false, IfSome, IsTrue, Some, slice_get};
ghost use Rattle.normal_forms.specs.Order.{order};
ghost use Rattle.normal_forms.specs.Reading.{Reading};
ghost use Rattle.normal_forms.specs.ShortRuns.{buffer_limit, continues};
ghost use Rattle.normalizer_tables.specs.Characters.{class_of, has_class_form, list_of};
ghost use Rattle.normalizer_tables.specs.Ignored.{ignored_list};
ghost use Rattle.normalizer_tables.specs.Readings.{reading_by};
ghost use Rattle.normalizer_tables.specs.ShortLists.{text_of};
ghost use Rattle.normalizer_iterators.specs.LazyReading.{HasClassesFrom};
ghost use Rattle.normalizer_iterators.specs.WaitingList.{item_count, reordered_text, AgreesWith};
ghost use Rattle.normalizer_iterators.specs.inner.ReadingOn.{Adds, CanReadOn, DidNotFitAfter, KeepsClasses, ReadsOnTo};
ghost use Rattle.normalizer_iterators.specs.Reads.{character_of, HasOwnWord, HasOwnWords};

use crate::pending::{PendingChar, read_from};
use crate::waiting::{ClassedChar, WaitingList};
use normalizer_tables::characters::{CharacterData, IgnoredCharacters};
use normalizer_tables::members::Members;
use normalizer_tables::short_list::ShortList;
use std::alloc::AllocError;

/// Buffers the characters that continue what comes before them, in canonical order, up to the first boundary. Returns
/// the character after it, which is not buffered, or None if the delegate has ended. The first was read before.
#[inline(always)]
pub(crate) fn read_on<I: Iterator<Item = char> + Drop>(
    characters: &CharacterData<'_>,
    ignored: IgnoredCharacters,
    first: Option<PendingChar>,
    delegate: &mut I,
    waiting: &mut WaitingList,
) -> Result<Option<PendingChar>, AllocError>
    requires { CanReadOn I.Iterator characters.now ignored first delegate.old waiting.old }
    ensures ok { IfOk result (λ pending. ReadsOnTo I.Iterator characters.now ignored (character_of first) delegate.old
        waiting.old pending delegate.new waiting.new) }
    ensures err { OnErr result (DidNotFitAfter I.next_gives I.remaining characters.now ignored (character_of first)
        delegate.old waiting.old) }
{
    let mut next = first;
    while let Some(read) = next {
        if read.has_boundary_before(characters, ignored) {
            waiting.put_in_order()?;
            return Ok(Some(read));
        }
        push_list(characters, ignored, read, waiting)?;
        next = read_from(characters, 0, delegate);
    }
    waiting.put_in_order()?;
    Ok(None)
}

/// The same at the front of a text. It isn't inlined, since few texts begin with a character that continues.
#[inline(never)]
pub(crate) fn read_leading<I: Iterator<Item = char> + Drop>(
    characters: &CharacterData<'_>,
    ignored: IgnoredCharacters,
    first: Option<PendingChar>,
    delegate: &mut I,
    waiting: &mut WaitingList,
) -> Result<Option<PendingChar>, AllocError>
    requires { CanReadOn I.Iterator characters.now ignored first delegate.old waiting.old }
    ensures ok { IfOk result (λ pending. ReadsOnTo I.Iterator characters.now ignored (character_of first) delegate.old
        waiting.old pending delegate.new waiting.new) }
    ensures err { OnErr result (DidNotFitAfter I.next_gives I.remaining characters.now ignored (character_of first)
        delegate.old waiting.old) }
{
    read_on(characters, ignored, first, delegate, waiting)
}

/// Whether a boundary precedes a character that was read, or none was.
#[inline(always)]
pub(crate) fn is_at_boundary(
    characters: &CharacterData<'_>,
    ignored: IgnoredCharacters,
    read: Option<PendingChar>,
) -> bool
    requires { HasOwnWords characters.now read }
    ensures { IsTrue result → IfSome (character_of read) (λ c.
        continues (has_class_form characters.now) (reading_by characters.now ignored []) c ≡ false) }
{
    match read {
        Some(read) => read.has_boundary_before(characters, ignored),
        None => true,
    }
}

/// Buffers the list of a character.
#[inline(always)]
pub(crate) fn push_list(
    characters: &CharacterData<'_>,
    ignored: IgnoredCharacters,
    read: PendingChar,
    waiting: &mut WaitingList,
) -> Result<(), AllocError>
    requires { HasOwnWord characters.now read }
    ensures text { OnOk result (Adds characters.now (list_of characters.now (ignored_list ignored) read.character)
        waiting.old waiting.new) }
    ensures classes { OnOk result (KeepsClasses characters.now waiting.old waiting.new) }
    ensures held { OnOk result (item_count waiting.new ≡
        item_count waiting.old + length (list_of characters.now (ignored_list ignored) read.character)) }
    ensures succeeds { item_count waiting.old + length (list_of characters.now (ignored_list ignored) read.character)
        ≤ buffer_limit → IsOk result }
{
    match read.class_of_itself(characters) {
        Some(class) => waiting.push(read.character, class),
        None => {
            let members = read.members(characters, ignored);
            push_from(characters, &members, 0, waiting)
        }
    }
}

/// Buffers the members of a list from this place on.
#[inline(always)]
pub(crate) fn push_from(
    characters: &CharacterData<'_>,
    members: &Members<'_>,
    first: usize,
    waiting: &mut WaitingList,
) -> Result<(), AllocError>
    requires { first ≤ length members.now }
    ensures text { OnOk result (Adds characters.now (drop first members.now) waiting.old waiting.new) }
    ensures classes { OnOk result (KeepsClasses characters.now waiting.old waiting.new) }
    ensures held { OnOk result (item_count waiting.new + first ≡ item_count waiting.old + length members.now) }
    ensures succeeds { item_count waiting.old + length members.now ≤ buffer_limit + first → IsOk result }
{
    for place in first..members.len() {
        if let Some(member) = members.get(place) {
            waiting.push(member, characters.class_of(member))?;
        }
    }
    Ok(())
}

/// Buffers the members of a list after the first, in place of what is buffered.
#[inline(always)]
fn hold_others(
    characters: &CharacterData<'_>,
    members: &Members<'_>,
    waiting: &mut WaitingList,
) -> Result<(), AllocError>
    requires { 1 ≤ length members.now }
    ensures text { OnOk result ((d : Reading) → HasClassesFrom characters.now d → (rest : List ℕ) →
        order d (drop 1 members.now ++ rest) ≡ reordered_text d waiting.new rest) }
    ensures classes { OnOk result ((d : Reading) → HasClassesFrom characters.now d → AgreesWith d waiting.new) }
    ensures held { OnOk result (item_count waiting.new + 1 ≡ length members.now) }
    ensures succeeds { length members.now ≤ buffer_limit + 1 → IsOk result }
{
    waiting.clear();
    push_from(characters, members, 1, waiting)
}

/// Buffers the characters of a list after the first, in place of what is buffered.
#[tactic(auto, unfolding(normalizer_tables::specs::ShortLists::text_of, crate::specs::WaitingList::reordered_text))]
#[inline(always)]
pub(crate) fn hold_short(
    characters: &CharacterData<'_>,
    list: ShortList,
    waiting: &mut WaitingList,
) -> Result<(), AllocError>
    ensures text { OnOk result ((d : Reading) → HasClassesFrom characters.now d → (rest : List ℕ) →
        order d (drop 1 (text_of list) ++ rest) ≡ reordered_text d waiting.new rest) }
    ensures classes { OnOk result ((d : Reading) → HasClassesFrom characters.now d → AgreesWith d waiting.new) }
    ensures held { OnOk result (item_count waiting.new + 1 ≡ length (text_of list)) }
    ensures succeeds { IsOk result }
{
    match list {
        ShortList::One(_) => {
            waiting.clear();
            Ok(())
        }
        ShortList::Two(_, second) => waiting.hold(classed(characters, second)),
        ShortList::Three(_, second, third) => {
            waiting.hold_two(classed(characters, second), classed(characters, third))
        }
    }
}

/// The first member of the list of a character, if the list has members; the others are buffered, in place of what is
/// buffered.
#[tactic(auto, unfolding(normalizer_tables::specs::ShortLists::text_of))]
#[inline(always)]
pub(crate) fn first_of_list(
    characters: &CharacterData<'_>,
    ignored: IgnoredCharacters,
    read: PendingChar,
    waiting: &mut WaitingList,
) -> Result<char, AllocError>
    requires word { HasOwnWord characters.now read }
    requires some { 1 ≤ length (list_of characters.now (ignored_list ignored) read.character) }
    ensures first { IfOk result (λ c. Some c ≡ slice_get (list_of characters.now (ignored_list ignored) read.character) 0) }
    ensures text { OnOk result ((d : Reading) → HasClassesFrom characters.now d → (rest : List ℕ) →
        order d (drop 1 (list_of characters.now (ignored_list ignored) read.character) ++ rest)
        ≡ reordered_text d waiting.new rest) }
    ensures classes { OnOk result ((d : Reading) → HasClassesFrom characters.now d → AgreesWith d waiting.new) }
    ensures held { OnOk result (item_count waiting.new + 1
        ≡ length (list_of characters.now (ignored_list ignored) read.character)) }
    ensures succeeds { length (list_of characters.now (ignored_list ignored) read.character) ≤ buffer_limit + 1 →
        IsOk result }
{
    if let Some(list) = read.short_list(characters) {
        hold_short(characters, list, waiting)?;
        return Ok(list.first());
    }
    let members = read.members(characters, ignored);
    if let Some(list) = short_of(&members) {
        hold_short(characters, list, waiting)?;
        return Ok(list.first());
    }
    hold_others(characters, &members, waiting)?;
    Ok(members.at(0))
}

/// The members of a list, if there are one, two or three.
#[tactic(auto, unfolding(normalizer_tables::specs::ShortLists::text_of))]
#[inline(always)]
pub(crate) fn short_of(members: &Members<'_>) -> Option<ShortList>
    ensures { IfSome result (λ list. members.now ≡ text_of list) }
{
    match members.len() {
        1 => Some(ShortList::One(members.at(0))),
        2 => Some(ShortList::Two(members.at(0), members.at(1))),
        3 => Some(ShortList::Three(members.at(0), members.at(1), members.at(2))),
        _ => None,
    }
}

/// A character with its class.
#[inline(always)]
fn classed(characters: &CharacterData<'_>, character: char) -> ClassedChar
    ensures character { result.character ≡ character }
    ensures class { result.class ≡ class_of characters.now character }
{
    ClassedChar {
        character,
        class: characters.class_of(character),
    }
}
