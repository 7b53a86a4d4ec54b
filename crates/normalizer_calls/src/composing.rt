//! What the composing form makes of text.
ghost use Rattle.std.specs.Prelude.{true, IsTrue};
ghost use Rattle.normalizer_tables.specs.conditions.PairConditions.{is_taken_as_boundary};
ghost use Rattle.normalizer_calls.specs.Forms.{composing_by};
ghost use Rattle.normalizer_calls.specs.inner.FormsLeft.{HasNoSecond};

use crate::composing_form::ComposingForm;
use crate::forming::Forming;
use crate::utf32::{Utf32Chars, yields};
use crate::writing::{first_item, write_items};
use normalizer_iterators::{NormalizeError, SegmentBuffer};
use normalizer_passing::PassBytes;
use normalizer_tables::characters::{CharacterData, IgnoredCharacters};
use normalizer_tables::members::Members;
use normalizer_tables::word::{is_backward_combining, is_non_round_trip};
use normalizer_tables::{CanonicalCompositions, may_be_second};
use normalizer_text::output::Output;
use normalizer_text::{Chars, Units};

impl<'a> Forming for ComposingForm<'a> {
    ghost made_form = { composing_by };

    ghost read_by = { λ f. f.characters };

    ghost held_back = { true };

    ghost beginning = { λ f c. is_taken_as_boundary f.characters f.bounds c };

    fn characters(&self) -> &CharacterData<'_> {
        &self.characters
    }

    #[inline(always)]
    fn bytes(&self) -> &PassBytes {
        self.bytes
    }

    fn holds_back(&self) -> bool {
        true
    }

    #[inline(always)]
    fn run_may_begin(&self, character: char) -> Option<bool> {
        let word = self.characters.word_of(character);
        if !self.begins_by(character, word) {
            return None;
        }
        let has_no_flag = !is_non_round_trip(word) && !is_backward_combining(word);
        Some(has_no_flag || (character as u32) < self.bounds.composition)
    }

    #[inline(always)]
    fn form_of_one(&self, character: char) -> Option<Members<'_>> {
        let members = self
            .characters
            .members(character, IgnoredCharacters::Dropped);
        if has_no_second(self.pairs, &members) {
            Some(members)
        } else {
            None
        }
    }

    #[inline(always)]
    fn pop(&self, buffer: &mut SegmentBuffer) -> Option<char> {
        buffer.pop_composed(self.pairs)
    }

    fn what_is_buffered_is_the_form(&self) {}

    fn write_items<U: Units, O: Output<U>>(
        &self,
        units: U,
        output: &mut O,
    ) -> Result<(), NormalizeError> {
        write_items(self.items(Chars::new(units))?, output)
    }

    fn first_item<U: Units>(&self, units: U) -> Result<Option<char>, NormalizeError> {
        first_item(self.items(Chars::new(units))?)
    }

    fn is_own_by_items(&self, units: &[u32]) -> Result<bool, NormalizeError> {
        yields(self.items(Utf32Chars::new(units))?, units)
    }

    ghost suits = { λ f. f.serves.laws };

    ghost apart = { λ f. f.serves.beginnings };
}

/// Whether no member of a list after the first is the second of a pair.
fn has_no_second(pairs: &CanonicalCompositions, members: &Members<'_>) -> bool
    ensures { IsTrue result → HasNoSecond pairs.now members.now }
{
    let mut place = 1;
    while place < members.len() {
        if may_be_second(pairs, members.at(place)) {
            return false;
        }
        place += 1;
    }
    true
}
