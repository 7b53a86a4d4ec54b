//! What decomposition data say of each character.
ghost use Rattle.std.specs.Prelude.{◌≡◌, ◌≢◌, ◌↔◌, ◌≤◌, ◌<◌, ◌∷◌, ◌&&◌, [], ℕ, List, Option, IfErr, IfOk, IfSome, IsTrue};
ghost use Rattle.std.specs.Option.{option_copied};
ghost use Rattle.normalizer_passing.specs.PassBytes.{byte_of};
ghost use Rattle.normalizer_tables.specs.PassingWords.{byte_of_word, IsComposingByte};
ghost use Rattle.normalizer_tables.specs.Ignored.{ignored_list, Dropped};
ghost use Rattle.normalizer_tables.specs.Data.{lists_or_none};
ghost use Rattle.normalizer_tables.specs.Characters.{
  Characters,
  class_of,
  class_of_itself,
  has_class_form,
  items_at,
  list_of,
  list_read,
  listed_at,
  listed_in,
  narrow_at,
  reading_of_word,
  wide_at,
  word_of,
};
ghost use Rattle.normalizer_tables.specs.ShortLists.{text_of};
ghost use Rattle.normalizer_tables.specs.Purposes.{is_mapping};
ghost use Rattle.normalizer_tables.specs.Ranges.{IsComplete};
ghost use Rattle.normalizer_tables.specs.Table.{code_points};
ghost use Rattle.normalizer_tables.specs.Passthrough.{IsPassthroughBelow, IsPassthrough};
ghost use Rattle.normalizer_tables.specs.Characters.{IsEndOfDisallowed, IsNextWord};
ghost use Rattle.normalizer_tables.specs.Readings.{reading_by};

use crate::hangul::{decompose_hangul, is_hangul_syllable};
use crate::members::Members;
use crate::pairs::CanonicalCompositions;
use crate::provider::{DecompositionData, DecompositionTables};
use crate::scalars::Scalars16;
use crate::short_list::ShortList;
use crate::special::fixed_list_of;
use crate::word::{
    DISALLOWED_WORD, FLAGS, HANGUL_WORD, WordReading, class_of_word, is_class_form, is_plain, read,
};
use normalizer_passing::PassBytes;
use std::alloc::{AllocError, Global};
use std::marker::Model;

/// How a character that the mapper ignores reads (UTS #46, section 4).
#[derive(Clone, Copy, PartialEq, Eq, Debug)]
pub enum IgnoredCharacters {
    /// It is dropped, as mapping requires.
    Dropped,
    /// It reads as U+FFFD, as validation requires.
    Replaced,
}

/// What decomposition data are for.
#[derive(Clone, Copy, PartialEq, Eq, Debug)]
pub enum Purpose {
    /// The normalization forms, which ignore no character.
    Forms,
    /// The mapper, which ignores characters (UTS #46, section 4).
    Mapping,
}

/// How many code points there are.
pub const CODE_POINTS: u32 = 0x110000;

/// Decomposition data with the tables that their words point into, and the number below which no word is looked up.
#[derive(Drop)]
pub struct CharacterData<'a> {
    parts: Parts<'a>,
}

/// The parts of such data. They are copied together.
#[derive(Clone, Copy)]
struct Parts<'a> {
    decompositions: &'a DecompositionData,
    tables: &'a DecompositionTables,
    supplementary: Option<&'a DecompositionTables>,
    is_mapper: bool,
    unseen_below: u32,
}

impl<'a> Model for CharacterData<'a> {
    ghost Value = { Characters };

    ghost view = { λ s. record {
      decompositions = s.parts.decompositions.now;
      tables = s.parts.tables.now;
      supplementary = lists_or_none (option_copied s.parts.supplementary);
      is_mapper = s.parts.is_mapper;
    } };

    ghost invariant = { λ s. IsPassthroughBelow (record {
      decompositions = s.parts.decompositions.now;
      tables = s.parts.tables.now;
      supplementary = lists_or_none (option_copied s.parts.supplementary);
      is_mapper = s.parts.is_mapper;
    }) s.parts.unseen_below };
}

impl<'a> CharacterData<'a> {
    /// Makes it from data, the tables that come first, the supplementary ones if the data have them, and what the data
    /// are for. Every word is looked up.
    pub fn new(
        decompositions: &'a DecompositionData,
        tables: &'a DecompositionTables,
        supplementary: Option<&'a DecompositionTables>,
        purpose: Purpose,
    ) -> Self
        ensures { result ≡ record {
          decompositions = decompositions.now;
          tables = tables.now;
          supplementary = lists_or_none (option_copied supplementary.entry);
          is_mapper = is_mapping purpose;
        } }
    {
        CharacterData {
            parts: Parts {
                decompositions,
                tables,
                supplementary,
                is_mapper: purpose == Purpose::Mapping,
                unseen_below: 0,
            },
        }
    }

    /// Returns the same data; no word is looked up below `bound`. The caller must establish that each character below
    /// is its own list, with class 0 and no class form.
    pub fn with_passthrough_bound(self, bound: u32) -> Self
        requires { IsPassthroughBelow self bound }
        ensures { result ≡ self.entry }
    {
        CharacterData {
            parts: Parts {
                unseen_below: bound,
                ..self.parts
            },
        }
    }

    /// Returns the same data, borrowed again.
    pub fn copied(&self) -> CharacterData<'a>
        ensures { result ≡ self.now }
    {
        CharacterData { parts: self.parts }
    }

    /// Returns whether a character is below the bound: it is its own list, with class 0 and no class form. Its word
    /// isn't looked up.
    #[inline(always)]
    pub fn is_passthrough(&self, character: char) -> bool
        ensures { IsTrue result → IsPassthrough self.now character }
    {
        (character as u32) < self.parts.unseen_below
    }

    /// Returns the allocator of the tables.
    pub fn allocator(&self) -> Global {
        let tables = self.parts.tables;
        tables.scalars16.allocator()
    }

    /// Returns the word of a character.
    #[tactic(auto, unfolding(crate::specs::Characters::word_of))]
    #[inline(always)]
    pub fn word_of(&self, character: char) -> u32
        ensures { result ≡ word_of self.now character }
    {
        let decompositions = self.parts.decompositions;
        decompositions.table.get(character)
    }

    /// Returns the word of any number.
    #[tactic(auto, unfolding(crate::specs::Characters::word_of))]
    pub fn word_of_number(&self, number: u32) -> u32
        ensures word { result ≡ word_of self.now number }

        // Stated for callers, who don't see the table: the list of words has all code points.
        ensures complete { IsComplete self.now.decompositions.table }
    {
        let decompositions = self.parts.decompositions;
        decompositions.table.get32(number)
    }

    /// Returns the first number from this one on whose word isn't 0, flags aside, or the first past the code points, and
    /// its word.
    pub fn next_with_word(&self, from: u32) -> (u32, u32)
        requires { from ≤ code_points }
        ensures next { IsNextWord self.now from result.0 }
        ensures word { result.1 ≡ word_of self.now result.0 }
    {
        let decompositions = self.parts.decompositions;
        match decompositions.table.next_other(from, !FLAGS, 0) {
            Some(next) => next,
            None => (CODE_POINTS, self.word_of_number(CODE_POINTS)),
        }
    }

    /// Returns the first number from this one on that hasn't the word of a disallowed character, or the first past the
    /// code points.
    pub fn end_of_disallowed(&self, from: u32) -> u32
        requires { from ≤ code_points }
        ensures { IsEndOfDisallowed self.now from result }
    {
        let decompositions = self.parts.decompositions;
        match decompositions
            .table
            .next_other(from, u32::MAX, DISALLOWED_WORD)
        {
            Some((next, _)) => next,
            None => CODE_POINTS,
        }
    }

    /// Returns the word of all numbers past the code points.
    #[tactic(auto, unfolding(crate::specs::Table::code_points))]
    pub fn past(&self) -> u32
        ensures { result ≡ self.now.decompositions.table.past }
    {
        let decompositions = self.parts.decompositions;
        decompositions.table.get32(CODE_POINTS)
    }

    /// Returns `passthrough_cap` of the data.
    pub fn cap(&self) -> u16
        ensures { result ≡ self.now.decompositions.cap }
    {
        let decompositions = self.parts.decompositions;
        decompositions.passthrough_cap
    }

    /// Returns the bytes with which characters pass in a decomposing form: as their words say, or not at all.
    #[tactic(auto, unfolding(crate::specs::Characters::word_of))]
    #[inline(always)]
    pub fn pass_bytes(&self) -> &'a PassBytes
        ensures { (n : ℕ) → 0 < byte_of result.now n → byte_of result.now n ≡ byte_of_word (word_of self.now n) }
    {
        let decompositions = self.parts.decompositions;
        decompositions.table.pass_bytes()
    }

    /// Makes the bytes with which characters pass in the composing form over pairs.
    ///
    /// # Errors
    /// If an allocation failed.
    #[tactic(auto, unfolding(crate::specs::Characters::word_of))]
    pub fn composing_bytes(&self, pairs: &CanonicalCompositions) -> Result<PassBytes, AllocError>
        ensures { IfOk result (λ bytes. (n : ℕ) →
            0 < byte_of bytes n → IsComposingByte pairs.now n (word_of self.now n) (byte_of bytes n)) }
    {
        let decompositions = self.parts.decompositions;
        decompositions.table.composing_bytes(pairs)
    }

    /// Returns the tables of lists.
    pub fn tables(&self) -> &'a DecompositionTables
        ensures { result.now ≡ self.now.tables }
    {
        self.parts.tables
    }

    /// Returns the further tables of compatibility data, if there are any.
    pub fn supplementary(&self) -> Option<&'a DecompositionTables>
        ensures { lists_or_none (option_copied result) ≡ self.now.supplementary }
    {
        self.parts.supplementary
    }

    /// Returns whether these are a mapper's data, in which characters may be ignored.
    pub fn is_mapper(&self) -> bool
        ensures { result ≡ self.now.is_mapper }
    {
        self.parts.is_mapper
    }

    /// Returns the canonical combining class of a character.
    #[tactic(auto, using(crate::proofs::words::CharacterLemmas::of_scalars), unfolding(crate::specs::Words::class_of_word, crate::specs::Characters::class_of))]
    #[inline(always)]
    pub fn class_of(&self, character: char) -> u8
        ensures { result ≡ class_of self.now character }
    {
        if self.is_passthrough(character) {
            return 0;
        }
        class_of_word(self.word_of(character))
    }

    /// Returns whether the word of a character has one of the two class forms.
    #[tactic(auto, unfolding(crate::specs::Characters::has_class_form))]
    #[inline(always)]
    pub fn has_class_form(&self, character: char) -> bool
        ensures { result ≡ has_class_form self.now character }
    {
        is_class_form(self.word_of(character))
    }

    /// Returns the list of a character: the character itself if its word doesn't read.
    #[inline(always)]
    pub fn members(&self, character: char, ignored: IgnoredCharacters) -> Members<'a>
        ensures { result ≡ list_of self.now (ignored_list ignored) character }
    {
        self.members_by(character, self.word_of(character), ignored)
    }

    /// Returns the list of a character, from its word.
    #[tactic(auto, unfolding(crate::specs::Characters::list_of))]
    #[inline(always)]
    pub fn members_by(&self, character: char, word: u32, ignored: IgnoredCharacters) -> Members<'a>
        requires { word ≡ word_of self.now character }
        ensures { result ≡ list_of self.now (ignored_list ignored) character }
    {
        self.members_of(character, self.reading_by(character, word), ignored)
            .unwrap_or(Members::one(character))
    }

    /// Returns the list of a character, if its word says that it is one, two or three characters, and which. `None` says
    /// nothing.
    #[tactic(auto, using(crate::proofs::words::ShortListLemmas::short_lists), unfolding(crate::specs::ShortLists::text_of))]
    #[inline(always)]
    pub fn short_list(&self, character: char, word: u32) -> Option<ShortList>
        requires { word ≡ word_of self.now character }
        ensures { (ignored : List ℕ) →
            IfSome result (λ list. list_of self.now ignored character ≡ text_of list) }
    {
        if word == HANGUL_WORD && is_hangul_syllable(character as u32) {
            return Some(decompose_hangul(character));
        }
        match self.reading_by(character, word) {
            WordReading::TwoCharacters(first, second) => {
                Some(ShortList::of_two(first as u32, second as u32))
            }
            WordReading::OneCharacter(member) => ShortList::of_one(member as u32),
            WordReading::Itself => Some(ShortList::One(character)),
            WordReading::ClassForm(_) => Some(ShortList::One(character)),
            _ => None,
        }
    }

    /// Returns whether the list of a character has members, from its word: all have but ignored characters that are
    /// dropped.
    #[tactic(auto, using(crate::proofs::words::WordLemmas::readings), unfolding(crate::specs::Characters::list_read, crate::specs::Characters::named_list))]
    #[inline(always)]
    pub fn has_members(&self, character: char, word: u32, ignored: IgnoredCharacters) -> bool
        requires { word ≡ word_of self.now character }
        ensures { IsTrue result ↔ (list_of self.now (ignored_list ignored) character ≢ []) }
    {
        match self.reading_by(character, word) {
            WordReading::Ignored => matches!(ignored, IgnoredCharacters::Replaced),
            _ => true,
        }
    }

    /// Returns the class of a character, if its word says that it is its own list.
    #[tactic(auto, using(crate::proofs::words::WordLemmas::readings), unfolding(crate::specs::Characters::class_of_itself, crate::specs::Characters::list_read, crate::specs::Characters::named_list, crate::specs::Characters::reading_of_word))]
    #[inline(always)]
    pub fn class_of_itself(&self, character: char, word: u32) -> Option<u8>
        requires { word ≡ word_of self.now character }
        ensures reading { result ≡ class_of_itself (reading_of_word self.now character) }
        ensures itself { (ignored : List ℕ) →
            IfSome result (λ _. list_of self.now ignored character ≡ character ∷ []) }
        ensures class { IfSome result (λ class. class ≡ class_of self.now character) }
    {
        if is_plain(word) {
            return Some(0);
        }
        match self.reading_by(character, word) {
            WordReading::Itself => Some(0),
            WordReading::ClassForm(class) => Some(class),
            _ => None,
        }
    }

    #[tactic(auto, using(crate::proofs::words::WordLemmas::readings, crate::proofs::syllables::SyllableJamo::jamo_are_text), unfolding(crate::specs::Characters::list_read, crate::specs::Characters::named_list))]
    #[inline(always)]
    pub(crate) fn members_of(
        &self,
        character: char,
        reading: WordReading,
        ignored: IgnoredCharacters,
    ) -> Option<Members<'a>>
        requires { reading ≡ reading_of_word self.now character }
        ensures { result ≡ list_read self.now (ignored_list ignored) character }
    {
        match reading {
            WordReading::Ignored => match ignored {
                IgnoredCharacters::Dropped => Some(Members::empty()),
                IgnoredCharacters::Replaced => Some(Members::one('\u{FFFD}')),
            },
            WordReading::Itself | WordReading::ClassForm(_) => Some(Members::one(character)),
            WordReading::SpecialForm(_) => Some(fixed_list_of(character)?.members()),
            WordReading::TwoCharacters(a, b) => Members::of_numbers(a as u32, b as u32),
            WordReading::HangulSyllable => Some(Members::of_hangul_syllable(character)),
            WordReading::Fdfa => Some(Members::of_fdfa()),
            WordReading::OneCharacter(a) => Members::of_number(a as u32),
            WordReading::Listed(item, low, _) => self.listed_at(item, low),
        }
    }

    /// How the word of a character reads.
    #[tactic(auto, unfolding(crate::specs::Characters::reading_of_word))]
    #[inline(always)]
    pub(crate) fn reading_by(&self, character: char, word: u32) -> WordReading
        requires { word ≡ word_of self.now character }
        ensures { result ≡ reading_of_word self.now character }
    {
        read(character, word, self.parts.is_mapper)
    }

    /// The list from an item of the tables on.
    #[tactic(auto, using(crate::proofs::lists::ListedLemmas::listed_lists), unfolding(crate::specs::Characters::listed_at))]
    fn listed_at(&self, item: u32, low: u8) -> Option<Members<'a>>
        ensures { result ≡ listed_at self.now item low }
    {
        match listed_in(self.parts.tables, item as usize, low) {
            Ok(list) => list,
            Err(past) => listed_in(self.parts.supplementary?, past, low).unwrap_or(None),
        }
    }
}

/// The list that starts at an item of a pair of tables, if it lies there, or else how far the item is past both.
#[tactic(auto, unfolding(crate::specs::Characters::listed_in, crate::specs::Characters::placed_in))]
fn listed_in<'a>(
    tables: &'a DecompositionTables,
    item: usize,
    low: u8,
) -> Result<Option<Members<'a>>, usize>
    ensures here { IfOk result (λ x. (after : ℕ → Option (List ℕ)) → listed_in tables.now low after item ≡ x) }
    ensures past { IfErr result (λ k. (after : ℕ → Option (List ℕ)) → listed_in tables.now low after item ≡ after k) }
{
    let narrow = &tables.scalars16;
    let Some(past_narrow) = item.checked_sub(narrow.len()) else {
        return Ok(narrow_at(narrow, low, item));
    };
    let wide = tables.scalars24.as_slice();
    match past_narrow.checked_sub(wide.len()) {
        Some(past) => Err(past),
        None => Ok(wide_at(wide, low, past_narrow)),
    }
}

#[tactic(auto, using(crate::proofs::lists::ListedLemmas::listed_lists), unfolding(crate::specs::Characters::narrow_at, crate::specs::Characters::as_text))]
fn narrow_at(units: &Scalars16, low: u8, place: usize) -> Option<Members<'_>>
    ensures { result ≡ narrow_at units.now low place }
{
    let list = items_at(units.as_slice(), place, low as usize + 2)?;
    if units.are_characters() {
        Some(Members::of_characters(list))
    } else {
        Members::of_units(list)
    }
}

#[tactic(auto, unfolding(crate::specs::Characters::wide_at))]
fn wide_at(scalars: &[char], low: u8, place: usize) -> Option<Members<'_>>
    ensures { result ≡ wide_at scalars.now low place }
{
    Some(Members::of_scalars(items_at(scalars, place, low as usize + 1)?))
}

/// Some items from a place on, if they lie within.
#[tactic(auto, unfolding(crate::specs::Characters::items_at))]
pub(crate) fn items_at<T>(items: &[T], place: usize, n: usize) -> Option<&[T]>
    ensures { option_copied result ≡ items_at items.now place n }
{
    items.get(place..)?.get(..n)
}
