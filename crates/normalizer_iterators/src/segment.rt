//! The normal form of a segment, whose characters are buffered in canonical order and taken one by one.
ghost use Rattle.std.specs.Prelude.{◌≡◌, ◌+◌, ◌<◌, ◌≤◌, ◌∷◌, [], ℕ, List, drop, length};
ghost use Rattle.std.specs.Prelude.{IfOk, IfNone, IfSome, IsOk, IsTrue, OnOk};
ghost use Rattle.normal_forms.specs.CompositionByStarters.{compose_by_starters};
ghost use Rattle.normal_forms.specs.ShortRuns.{buffer_limit};
ghost use Rattle.normal_forms.specs.Reading.{Reading};
ghost use Rattle.normalizer_tables.specs.Characters.{class_of, has_class_form, list_of};
ghost use Rattle.normalizer_tables.specs.Ignored.{ignored_list};
ghost use Rattle.normalizer_tables.specs.Readings.{reading_by};
ghost use Rattle.normalizer_text.specs.DecodingSteps.{IsBoundary};
ghost use Rattle.normalizer_text.specs.Encodings.{Encoding, decoded_in, first_in};
ghost use Rattle.normalizer_iterators.specs.LazyReading.{HasShortLazyRuns};
ghost use Rattle.normalizer_iterators.specs.Reads.{HasOwnWord};
ghost use Rattle.normalizer_iterators.specs.WaitingList.{item_count, AgreesWith};
ghost use Rattle.normalizer_iterators.specs.inner.Segments.{HasPairsOf};
ghost use Rattle.normalizer_iterators.specs.inner.MarkReads.{after_starter, starter_of, HasRoomForMarks, MarksReadTo};
ghost use Rattle.normalizer_iterators.specs.inner.ReadingOn.{Adds, KeepsClasses};

use crate::pending::PendingChar;
use crate::reading::push_from;
use crate::waiting::{ClassedChar, WaitingList};
use normalizer_tables::CanonicalCompositions;
use normalizer_tables::characters::{CharacterData, IgnoredCharacters};
use normalizer_text::{Step, Units};
use std::alloc::{AllocError, Global};

/// The characters of a segment, which are taken one by one. It is used again for each segment.
#[derive(Drop)]
pub struct SegmentBuffer {
    /// The starter at the front, if there is one and it isn't taken.
    starter: Option<char>,
    /// The characters after it.
    waiting: WaitingList,
}

impl SegmentBuffer {
    ghost use Rattle.normalizer_iterators.specs.Segment.{
      characters_left,
      Agrees,
      HasRead,
      IsDecomposed,
      IsSmall,
    };

    /// Makes an empty buffer. No memory is taken for up to 17 characters after a starter.
    pub fn new(alloc: Global) -> Self {
        SegmentBuffer {
            starter: None,
            waiting: WaitingList::new(alloc),
        }
    }

    /// Buffers the list of the first step, which was read before, and the marks after it that are their own lists, in
    /// place of what is buffered. Returns where they end.
    ///
    /// # Errors
    /// `AllocError` if an allocation failed. Over short runs none is made.
    pub fn read<U: Units>(
        &mut self,
        characters: &CharacterData<'_>,
        ignored: IgnoredCharacters,
        units: U,
        first: Step,
    ) -> Result<usize, AllocError>
        requires some { 0 < length (U.units units) }
        requires first { first ≡ first_in U.encoding (U.units units) }
        ensures read { IfOk result (λ end.
            HasRead (reading_by characters.now ignored []) U.encoding (U.units units) end self.new) }
        ensures room { HasShortLazyRuns characters.now ignored (decoded_in U.encoding (U.units units)) →
            IsOk result × IsSmall self.new }
    {
        self.waiting.clear();
        let read = PendingChar::new(characters, 0, first.character);
        self.starter = push_after_starter(characters, ignored, read, &mut self.waiting)?;
        let end = read_marks(characters, ignored, units, first.width, &mut self.waiting)?;
        Ok(end)
    }

    /// Buffers the list of the character of a step too. Returns whether it fits without memory.
    pub fn add(
        &mut self,
        characters: &CharacterData<'_>,
        ignored: IgnoredCharacters,
        step: Step,
    ) -> bool
        ensures read { IsTrue result → (e : Encoding) (units : List ℕ) (place : ℕ) → place < length units →
            step ≡ first_in e (drop place units) → HasRead (reading_by characters.now ignored []) e units place self.old →
            HasRead (reading_by characters.now ignored []) e units (place + step.width) self.new }
        ensures small { IsTrue result → IsSmall self.new }
    {
        let read = PendingChar::new(characters, 0, step.character);
        let members = read.members(characters, ignored);
        if !self.waiting.has_room(members.len()) {
            return false;
        }
        let Ok(()) = push_from(characters, &members, 0, &mut self.waiting) else {
            return false;
        };
        true
    }

    /// Puts what is buffered in canonical order.
    ///
    /// # Errors
    /// `AllocError` if an allocation failed. Of up to 17 characters after a starter none is made.
    pub fn put_in_order(&mut self) -> Result<(), AllocError>
        ensures read { OnOk result ((d : Reading) (e : Encoding) (units : List ℕ) (end : ℕ) →
            HasRead d e units end self.old → IsDecomposed d e units end self.new) }
        ensures small { IsSmall self.old → IsOk result }
    {
        self.waiting.put_in_order()?;
        Ok(())
    }

    /// Takes the next character, if one is left.
    #[inline(always)]
    pub fn pop_front(&mut self) -> Option<char>
        ensures some { IfSome result (λ c. characters_left self.old ≡ c ∷ characters_left self.new) }
        ensures agrees { (d : Reading) → Agrees d self.old → Agrees d self.new }
        ensures none { IfNone result (characters_left self.old ≡ []) }
    {
        match self.pop_classed() {
            Some(given) => Some(given.character),
            None => None,
        }
    }

    /// Takes the next character, composed with what follows it if it is a starter.
    #[inline(always)]
    pub fn pop_composed(&mut self, pairs: &CanonicalCompositions) -> Option<char>
        ensures some { IfSome result (λ c. (d : Reading) → HasPairsOf pairs.now d → Agrees d self.old →
            compose_by_starters d (characters_left self.old) ≡ c ∷ compose_by_starters d (characters_left self.new)) }
        ensures agrees { (d : Reading) → Agrees d self.old → Agrees d self.new }
        ensures none { IfNone result (characters_left self.old ≡ []) }
    {
        let given = self.pop_classed()?;
        if given.class == 0 {
            return Some(self.waiting.compose(pairs, given.character));
        }
        Some(given.character)
    }

    /// Takes the next character with its class, if one is left.
    #[inline(always)]
    fn pop_classed(&mut self) -> Option<ClassedChar>
        ensures some { IfSome result (λ c. characters_left self.old ≡ c.character ∷ characters_left self.new) }
        ensures taken { IfSome result (λ _. self.new.starter ≡ None) }
        ensures class { (d : Reading) → Agrees d self.old → IfSome result (λ c. c.class ≡ d.class c.character) }
        ensures agrees { (d : Reading) → Agrees d self.old → Agrees d self.new }
        ensures none { IfNone result (characters_left self.old ≡ []) }
    {
        if let Some(starter) = self.starter {
            self.starter = None;
            return Some(ClassedChar {
                character: starter,
                class: 0,
            });
        }
        match self.waiting.pop_front() {
            Some(given) => Some(given),
            None => None,
        }
    }
}

/// Buffers the list of a character, but for its first member if that is a starter, which is returned.
fn push_after_starter(
    characters: &CharacterData<'_>,
    ignored: IgnoredCharacters,
    read: PendingChar,
    waiting: &mut WaitingList,
) -> Result<Option<char>, AllocError>
    requires { HasOwnWord characters.now read }
    ensures starter { let d = reading_by characters.now ignored [] in
        IfOk result (λ starter. starter ≡ starter_of d (d.list read.character)) }
    ensures text { let d = reading_by characters.now ignored [] in
        OnOk result (Adds characters.now (after_starter d (d.list read.character)) waiting.old waiting.new) }
    ensures classes { OnOk result (KeepsClasses characters.now waiting.old waiting.new) }
    ensures held { let d = reading_by characters.now ignored [] in OnOk result
        (item_count waiting.new ≡ item_count waiting.old + length (after_starter d (d.list read.character))) }
    ensures succeeds { let d = reading_by characters.now ignored [] in
        item_count waiting.old + length (after_starter d (d.list read.character)) ≤ buffer_limit → IsOk result }
{
    // Most characters are their own lists.
    match read.class_of_itself(characters) {
        Some(0) => return Ok(Some(read.character)),
        Some(class) => {
            waiting.push_mark(read.character, class)?;
            return Ok(None);
        }
        None => {}
    }
    let members = read.members(characters, ignored);
    let Some(first) = members.get(0) else {
        return Ok(None);
    };
    if characters.class_of(first) != 0 {
        push_from(characters, &members, 0, waiting)?;
        return Ok(None);
    }
    push_from(characters, &members, 1, waiting)?;
    Ok(Some(first))
}

/// Buffers the marks from a position on that are their own lists, and returns where they end.
fn read_marks<U: Units>(
    characters: &CharacterData<'_>,
    ignored: IgnoredCharacters,
    units: U,
    position: usize,
    waiting: &mut WaitingList,
) -> Result<usize, AllocError>
    requires boundary { IsBoundary (first_in U.encoding) (U.units units) position }
    requires classes { AgreesWith (reading_by characters.now ignored []) waiting.old }
    ensures read { IfOk result (λ end. MarksReadTo (has_class_form characters.now)
        (reading_by characters.now ignored []) U.encoding (U.units units) position waiting.old end waiting.new) }
    ensures room { HasRoomForMarks characters.now ignored waiting.old
        (decoded_in U.encoding (drop position (U.units units)))
        → IsOk result × (item_count waiting.new ≤ buffer_limit) }
{
    let mut place = position;
    while place < units.len() {
        let step = units.step_at(place);
        let Some(class) = class_of_mark(characters, step.character) else {
            return Ok(place);
        };
        waiting.push_mark(step.character, class)?;
        place += step.width;
    }
    Ok(place)
}

/// Returns the class of a mark whose word says that it is its own list.
#[inline(always)]
fn class_of_mark(characters: &CharacterData<'_>, character: char) -> Option<u8>
    ensures mark { IfSome result (λ class. 0 < class) }
    ensures class { IfSome result (λ class. class ≡ class_of characters.now character) }
    ensures itself { (ignored : List ℕ) →
        IfSome result (λ _. list_of characters.now ignored character ≡ character ∷ []) }
{
    let word = characters.word_of(character);
    match characters.class_of_itself(character, word) {
        Some(0) => None,
        class => class,
    }
}
