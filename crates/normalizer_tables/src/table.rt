//! The code point table: a 32-bit word for every number.
ghost use Rattle.std.specs.Prelude.{◌≡◌, ◌↔◌, ◌≤◌, ◌<◌, ◌&&◌, ℕ, nat_eq, IfOk, IsErrOf, IsTrue};
ghost use Rattle.std.specs.Cmp.Lexicographic.{pointwise};
ghost use Rattle.normalizer_passing.specs.PassBytes.{byte_of};
ghost use Rattle.normalizer_tables.specs.PassingWords.{byte_of_word, IsComposingByte};
ghost use Rattle.normalizer_tables.specs.Table.{block_count};
ghost use Rattle.normalizer_tables.specs.Ranges.{IsComplete, IsRangeList, IsTableOf};
ghost use Rattle.normalizer_tables.specs.inner.Blocks.{is_range};
ghost use Rattle.std.specs.List.{list_all};
ghost use Rattle.normalizer_tables.specs.Table.{word_at, code_points, IsNextOther};

use crate::blocks::Blocks;
use crate::characters::CODE_POINTS;
use crate::pairs::CanonicalCompositions;
use crate::word::FLAGS;
use normalizer_passing::PassBytes;
use std::alloc::{AllocError, Global};
use std::marker::Model;
use thiserror::Error;

/// Why a table was refused.
#[derive(Clone, Copy, Debug, PartialEq, Eq, Error)]
pub enum TableError {
    /// A first number above its last, a last above 0x10FFFF, or ranges that overlap or aren't sorted.
    #[error("the ranges of a table overlap, don't rise, or leave the code points")]
    Ranges,
    /// An allocation failed.
    #[error("out of memory")]
    Memory,
}

impl From<AllocError> for TableError {
    ghost use Rattle.normalizer_tables.specs.declared.table.TableError.TheVariants.{Memory};

    ghost from_gives = { λ _ error. error ≡ Memory };

    fn from(_error: AllocError) -> TableError {
        TableError::Memory
    }
}

/// A 32-bit word for every number: one for each code point, and one for all numbers above 0x10FFFF. Tables are equal
/// if and only if each number has the same word in both.
#[derive(Drop)]
pub struct CodePointTable {
    words: Blocks,
    past: u32,
    /// The bytes with which characters pass in a decomposing form.
    bytes: PassBytes,
}

impl Model for CodePointTable {
    ghost use Rattle.normalizer_tables.specs.Table.{Table};
    ghost use Rattle.normalizer_tables.specs.inner.PassingWords.{HasBytes};

    ghost Value = { Table };

    ghost view = { λ t. record { words = t.words; past = t.past } };

    ghost invariant = { λ t. HasBytes (record { words = t.words; past = t.past }) t.bytes };
}

impl CodePointTable {
    /// Returns the allocator of the table.
    pub fn allocator(&self) -> Global {
        self.words.allocator()
    }

    /// Makes a table from triples of first code point, last code point and word. A code point in no range has the word
    /// 0, and every number above 0x10FFFF has `past`.
    ///
    /// # Errors
    /// - `Ranges` if a first is above its last, a last is above 0x10FFFF, or ranges overlap or aren't sorted.
    /// - `Memory` if an allocation failed.
    pub fn from_ranges(ranges: Vec<(u32, u32, u32)>, past: u32) -> Result<Self, TableError>
        ensures table { IfOk result (IsTableOf ranges.items past) }
        ensures accepted { IfOk result (λ _. IsRangeList ranges.items) }
        ensures refused { IsErrOf result TableError.Ranges ↔ (¬ IsRangeList ranges.items) }
    {
        if !is_range_list(&ranges) {
            return Err(TableError::Ranges);
        }
        let words = Blocks::from_ranges(*ranges.allocator(), &ranges)?;
        let bytes = words.bytes_without(!FLAGS, &[])?;
        Ok(CodePointTable { words, past, bytes })
    }

    /// Returns the word of a character.
    #[inline(always)]
    pub fn get(&self, c: char) -> u32
        ensures { result ≡ word_at self.now c }
    {
        self.get32(c as u32)
    }

    /// Returns the word of a 16-bit number, surrogates included.
    #[inline(always)]
    pub fn get16(&self, unit: u16) -> u32
        ensures { result ≡ word_at self.now unit }
    {
        self.get32(unit as u32)
    }

    /// Returns the word of any number.
    #[tactic(auto, unfolding(crate::specs::Table::code_points, crate::specs::Table::word_at, crate::specs::Ranges::IsComplete))]
    #[inline(always)]
    pub fn get32(&self, number: u32) -> u32
        ensures word { result ≡ word_at self.now number }
        ensures past { code_points ≤ number → result ≡ self.now.past }

        // Stated for callers, who don't see the ranges: the list of words has all code points.
        ensures complete { IsComplete self.now }
    {
        if CODE_POINTS <= number {
            return self.past;
        }
        self.words.word(number)
    }

    /// Returns the bytes with which characters pass in a decomposing form: as their words say, or not at all.
    #[inline(always)]
    pub fn pass_bytes(&self) -> &PassBytes
        ensures { (n : ℕ) → 0 < byte_of result.now n → byte_of result.now n ≡ byte_of_word (word_at self.now n) }
    {
        &self.bytes
    }

    /// Makes the bytes with which characters pass in the composing form over pairs.
    ///
    /// # Errors
    /// If an allocation failed.
    pub fn composing_bytes(&self, pairs: &CanonicalCompositions) -> Result<PassBytes, AllocError>
        ensures { IfOk result (λ bytes. (n : ℕ) →
            0 < byte_of bytes n → IsComposingByte pairs.now n (word_at self.now n) (byte_of bytes n)) }
    {
        let stops = pairs.all_seconds(self.allocator())?;
        self.words.bytes_without(FLAGS, &stops)
    }

    /// Does nothing: its contract is for laws, which don't see the blocks.
    #[tactic(auto, unfolding(crate::specs::Ranges::IsComplete))]
    pub(crate) fn has_all_words(&self)
        ensures { IsComplete self.now }
    {
        let _ = &self.words;
    }

    /// The least code point from `from` on whose word has other bits of the mask than these, and its word.
    pub(crate) fn next_other(&self, from: u32, mask: u32, bits: u32) -> Option<(u32, u32)>
        ensures { IsNextOther self.now mask bits from result }
    {
        self.words.next_other(from, mask, bits)
    }
}

/// Returns how many blocks of 64 code points a table keeps, equal ones counted once.
pub fn block_count(table: &CodePointTable) -> usize
    ensures { result ≡ block_count table.now }
{
    table.words.count()
}

impl Clone for CodePointTable {
    ghost is_clone = { λ t u. u ≡ t };

    fn clone(&self) -> Result<Self, AllocError> {
        Ok(CodePointTable {
            words: self.words.clone()?,
            past: self.past,
            bytes: self.bytes.clone()?,
        })
    }
}

impl Eq for CodePointTable {
    ghost use Rattle.std.proofs.lemmas.Cmp.{and_equiv, nat_eq_equiv, nat_list_eq_equiv, on_equiv};
    ghost use Rattle.normalizer_tables.specs.Table.{Table};

    ghost laws = { and_equiv (on_equiv (λ (t : Table). t.words) nat_list_eq_equiv)
        (on_equiv (λ (t : Table). t.past) nat_eq_equiv) };
}

impl PartialEq for CodePointTable {
    ghost use Rattle.std.specs.Cmp.{partial_equiv_from_equiv};
    ghost use Rattle.std.proofs.lemmas.Cmp.{and_equiv, nat_eq_equiv, nat_list_eq_equiv, on_equiv};
    ghost use Rattle.normalizer_tables.specs.Table.{Table};

    ghost eq = { λ t u. pointwise nat_eq t.words u.words && nat_eq t.past u.past };

    ghost laws = { partial_equiv_from_equiv (and_equiv (on_equiv (λ (t : Table). t.words) nat_list_eq_equiv)
        (on_equiv (λ (t : Table). t.past) nat_eq_equiv)) };

    fn eq(&self, other: &Self) -> bool {
        self.words == other.words && self.past == other.past
    }
}

/// Whether these are ranges of code points, each before the next.
fn is_range_list(ranges: &[(u32, u32, u32)]) -> bool
    ensures { IsTrue result ↔ IsRangeList ranges.now }
{
    are_ranges(ranges) && ranges.is_sorted_by(|range, next| range.1 < next.0)
}

fn are_ranges(ranges: &[(u32, u32, u32)]) -> bool
    ensures { result ≡ list_all is_range ranges.now }
{
    ranges
        .iter()
        .all(|range| range.0 <= range.1 && range.1 < CODE_POINTS)
}
