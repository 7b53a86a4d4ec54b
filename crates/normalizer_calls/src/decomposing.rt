//! What the decomposing form makes of text.
ghost use Rattle.std.specs.Prelude.{◌||◌, nat_lt, not, false};
ghost use Rattle.normalizer_tables.specs.Characters.{has_class_form};
ghost use Rattle.normalizer_calls.specs.Forms.{decomposing_by};

use crate::decomposing_form::DecomposingForm;
use crate::forming::Forming;
use crate::utf32::{Utf32Chars, yields};
use crate::writing::{first_item, write_items};
use normalizer_iterators::{NormalizeError, SegmentBuffer};
use normalizer_passing::PassBytes;
use normalizer_tables::characters::{CharacterData, IgnoredCharacters};
use normalizer_tables::members::Members;
use normalizer_tables::word::{is_class_form, is_plain};
use normalizer_text::output::Output;
use normalizer_text::{Chars, Units};

impl<'a> Forming for DecomposingForm<'a> {
    ghost made_form = { decomposing_by };

    ghost read_by = { λ f. f.characters };

    ghost held_back = { false };

    ghost beginning = { λ f c. nat_lt c f.bounds.decomposition || not (has_class_form f.characters c) };

    fn characters(&self) -> &CharacterData<'_> {
        &self.characters
    }

    #[inline(always)]
    fn bytes(&self) -> &PassBytes {
        self.characters.pass_bytes()
    }

    fn holds_back(&self) -> bool {
        false
    }

    #[tactic(auto, unfolding(normalizer_tables::specs::Characters::has_class_form))]
    #[inline(always)]
    fn run_may_begin(&self, character: char) -> Option<bool> {
        if (character as u32) < self.bounds.decomposition {
            return Some(true);
        }
        let word = self.characters.word_of(character);
        if is_class_form(word) {
            None
        } else {
            Some(is_plain(word))
        }
    }

    #[inline(always)]
    fn form_of_one(&self, character: char) -> Option<Members<'_>> {
        Some(
            self.characters
                .members(character, IgnoredCharacters::Dropped),
        )
    }

    #[inline(always)]
    fn pop(&self, buffer: &mut SegmentBuffer) -> Option<char> {
        buffer.pop_front()
    }

    fn what_is_buffered_is_the_form(&self) {}

    fn write_items<U: Units, O: Output<U>>(
        &self,
        units: U,
        output: &mut O,
    ) -> Result<(), NormalizeError> {
        write_items(self.items(Chars::new(units))?, output)
    }

    fn first_item<U: Units>(&self, units: U) -> Result<Option<char>, NormalizeError> {
        first_item(self.items(Chars::new(units))?)
    }

    fn is_own_by_items(&self, units: &[u32]) -> Result<bool, NormalizeError> {
        yields(self.items(Utf32Chars::new(units))?, units)
    }

    ghost suits = { λ f. f.serves.laws };

    ghost apart = { λ f. f.serves.beginnings };
}
