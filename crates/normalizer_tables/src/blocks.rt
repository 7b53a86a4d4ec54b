//! How the words of a table are stored: in blocks of 64 code points each, equal blocks once.
ghost use Rattle.std.specs.Prelude.{◌≡◌, ◌+◌, ◌*◌, ◌≤◌, ◌<◌, IfOk, OnOk, All, ℕ, [], ◌∷◌, ◌++◌, length, position, nat_eq, slice_index};
ghost use Rattle.std.specs.Cmp.Lexicographic.{pointwise};
ghost use Rattle.normalizer_tables.specs.Table.{block_count};
ghost use Rattle.normalizer_tables.specs.inner.Blocks.{AreFrom, AreLeft, AreNumbered, IsBlockOf, IsJoined, IsRun};
ghost use Rattle.normalizer_passing.specs.PassBytes.{byte_of};
ghost use Rattle.normalizer_tables.specs.inner.PassingWords.{byte_without, AreBytesWithout, HasBytesWithout};
ghost use Rattle.normalizer_tables.specs.Ranges.{word_in, words_of, IsRangeList};
ghost use Rattle.normalizer_tables.specs.Table.{code_points, IsNextOther};

use crate::characters::CODE_POINTS;
use crate::word::{is_ordinary_class_form, low_byte};
use normalizer_passing::PassBytes;
use std::alloc::{AllocError, Global};
use std::marker::Model;

/// How many code points a block has.
const BLOCK: u32 = 64;

/// For how many blocks there is room after a growth.
const MORE_BLOCKS: usize = 16;

/// How many blocks the code points have.
const PLACES: u32 = 17_408;

/// A word for each code point.
#[derive(Drop)]
pub(crate) struct Blocks {
    /// The blocks, each once, in the order of their first use.
    blocks: Vec<[u32; 64]>,
    /// The number of the block of each 64 code points.
    numbers: Vec<u16>,
}

impl Model for Blocks {
    ghost use Rattle.std.specs.Prelude.{ℕ, List};
    ghost use Rattle.normalizer_tables.specs.inner.Blocks.{stored_words, IsStored};

    ghost Value = { List ℕ };

    ghost view = { λ b. stored_words b.blocks.items b.numbers.items };

    ghost invariant = { λ b. IsStored b.blocks.items b.numbers.items (stored_words b.blocks.items b.numbers.items) };
}

impl Blocks {
    /// The allocator of the words.
    pub(crate) fn allocator(&self) -> Global {
        *self.blocks.allocator()
    }

    /// The words of ranges.
    pub(crate) fn from_ranges(alloc: Global, ranges: &[(u32, u32, u32)]) -> Result<Self, AllocError>
        requires { IsRangeList ranges.now }
        ensures { IfOk result (λ words. words ≡ words_of ranges.now) }
    {
        let mut blocks = Vec::new(alloc);
        let mut numbers = Vec::with_capacity(alloc, PLACES as usize)?;
        let mut left = ranges;
        let mut place = 0;
        while place < PLACES {
            let (number, end, next) = numbered(&mut blocks, left, place)?;
            numbers.resize(end as usize, number as u16)?;
            left = next;
            place = end;
        }
        Ok(Blocks { blocks, numbers })
    }

    /// The word of a code point.
    #[inline(always)]
    pub(crate) fn word(&self, number: u32) -> u32
        requires { number < code_points }
        ensures { result ≡ slice_index self.now number }
    {
        let block = self.numbers[(number / BLOCK) as usize];
        self.blocks[block as usize][(number % BLOCK) as usize]
    }

    /// How many blocks are kept.
    pub(crate) fn count(&self) -> usize
        ensures { (above : ℕ) → result ≡ block_count (record { words = self.now; past = above }) }
    {
        self.blocks.len()
    }

    /// The least code point from a number on whose word has other bits of the mask than these, and its word.
    pub(crate) fn next_other(&self, from: u32, mask: u32, bits: u32) -> Option<(u32, u32)>
        ensures { (above : ℕ) → IsNextOther (record { words = self.now; past = above }) mask bits from result }
    {
        let mut passed = None;
        for place in from / BLOCK..PLACES {
            let number = self.numbers[place as usize];
            if passed == Some(number) {
                continue;
            }
            let start = place * BLOCK;
            let block = &self.blocks[number as usize];
            for offset in from.saturating_sub(start)..BLOCK {
                let word = block[offset as usize];
                if word & mask != bits {
                    return Some((start + offset, word));
                }
            }
            if from <= start {
                passed = Some(number);
            }
        }
        None
    }

    /// The bytes with which characters pass: starters those whose words have none of the bits, and marks those of the
    /// ordinary class form. The characters of `stops` stop.
    pub(crate) fn bytes_without(&self, bits: u32, stops: &[char]) -> Result<PassBytes, AllocError>
        ensures bytes { (above : ℕ) →
            IfOk result (HasBytesWithout bits (record { words = self.now; past = above })) }
        ensures stops { IfOk result (λ bytes. All (λ c. byte_of bytes c ≡ 0) stops.now) }
    {
        let mut bytes = Vec::with_capacity(self.allocator(), self.blocks.len())?;
        for block in 0..self.blocks.len() {
            bytes.push(bytes_of_block(&self.blocks[block], bits))?;
        }
        PassBytes::from_blocks(bytes, &self.numbers, stops)
    }
}

impl Clone for Blocks {
    ghost is_clone = { λ a b. b ≡ a };

    fn clone(&self) -> Result<Self, AllocError> {
        Ok(Blocks {
            blocks: Vec::from_slice(*self.blocks.allocator(), &self.blocks)?,
            numbers: self.numbers.clone()?,
        })
    }
}

impl Eq for Blocks {
    ghost use Rattle.std.proofs.lemmas.Cmp.{nat_list_eq_equiv};

    ghost laws = { nat_list_eq_equiv };
}

impl PartialEq for Blocks {
    ghost use Rattle.std.specs.Cmp.{partial_equiv_from_equiv};
    ghost use Rattle.std.proofs.lemmas.Cmp.{nat_list_eq_equiv};

    ghost eq = { pointwise nat_eq };

    ghost laws = { partial_equiv_from_equiv nat_list_eq_equiv };

    #[tactic(auto, using(crate::proofs::code_points::BlockEquality::stored_alike))]
    fn eq(&self, other: &Self) -> bool {
        self.numbers == other.numbers && self.blocks == other.blocks
    }
}

/// The number of a block, which is added to those that are kept if it is none of them.
fn joined(blocks: &mut Vec<[u32; 64]>, block: [u32; 64]) -> Result<usize, AllocError>
    ensures { IfOk result (IsJoined blocks.old.items block blocks.new.items) }
{
    if let Some(number) = number_of(blocks, &block) {
        return Ok(number);
    }
    push_block(blocks, block)?;
    Ok(blocks.len() - 1)
}

/// Adds a block. (Room that doubles would leave up to half of the memory unused.)
fn push_block(blocks: &mut Vec<[u32; 64]>, block: [u32; 64]) -> Result<(), AllocError>
    ensures { OnOk result (blocks.new.items ≡ blocks.old.items ++ block ∷ []) }
{
    if blocks.len() == blocks.capacity() {
        blocks.reserve_exact(MORE_BLOCKS)?;
    }
    blocks.push(block)?;
    Ok(())
}

fn number_of(blocks: &[[u32; 64]], block: &[u32; 64]) -> Option<usize>
    ensures { result ≡ position (pointwise nat_eq block.now) blocks.now }
{
    // Most kept blocks differ from it here already.
    let offset = first_other(block);
    let (word, last) = (block[offset], block[63]);
    blocks.iter().position(|kept| kept[offset] == word && kept[63] == last && block == kept)
}

/// The first offset at which a block hasn't its first word, if there is one.
fn first_other(block: &[u32; 64]) -> usize
    ensures { result < 64 }
{
    for offset in 1..64 {
        if block[offset] != block[0] {
            return offset;
        }
    }
    0
}

/// The bytes of the words of a block.
fn bytes_of_block(block: &[u32; 64], bits: u32) -> [u8; 64]
    ensures { AreBytesWithout bits block.now result }
{
    let mut bytes = [0; 64];
    for place in 0..64 {
        bytes[place] = byte_without(block[place], bits);
    }
    bytes
}

/// The byte of a word.
#[tactic(auto, unfolding(crate::specs::inner::PassingWords::byte_without))]
fn byte_without(word: u32, bits: u32) -> u8
    ensures { result ≡ byte_without bits word }
{
    if word & bits == 0 {
        255
    } else if is_ordinary_class_form(word) && low_byte(word) < 255 {
        low_byte(word)
    } else {
        0
    }
}

/// The number of the block of a place, the end of the places that have it one after another, as far as one range says
/// so, and the ranges that don't end before that.
fn numbered<'r>(
    blocks: &mut Vec<[u32; 64]>,
    ranges: &'r [(u32, u32, u32)],
    place: u32,
) -> Result<(usize, u32, &'r [(u32, u32, u32)]), AllocError>
    requires ranges { AreFrom (place * 64) ranges.now }
    requires room { place < 17408 }
    ensures within { IfOk result (λ r. (place < r.1) × (r.1 ≤ 17408)) }
    ensures number { IfOk result (λ r. AreNumbered ranges.now place r.1 blocks.old.items blocks.new.items r.0) }
    ensures left { IfOk result (λ r. AreLeft ranges.now (r.1 * 64) r.2.now) }
{
    let (word, last) = run_from(ranges, place * BLOCK);
    let end = (last + 1) / BLOCK;
    if place < end {
        let number = joined(blocks, [word; 64])?;
        return Ok((number, end, behind(ranges, end * BLOCK - 1)));
    }
    let (block, left) = block_from(ranges, place * BLOCK);
    let number = joined(blocks, block)?;
    Ok((number, place + 1, left))
}

/// The words of 64 numbers from one on, and the ranges that don't end among them.
fn block_from(ranges: &[(u32, u32, u32)], start: u32) -> ([u32; 64], &[(u32, u32, u32)])
    requires ranges { AreFrom start ranges.now }
    requires room { start ≤ 0x10FFC0 }
    ensures block { IsBlockOf ranges.now start result.0 }
    ensures left { AreLeft ranges.now (start + 64) result.1.now }
{
    let mut block = [0; 64];
    let mut left = ranges;
    let mut offset = 0;
    while offset < BLOCK {
        let (word, last) = run_from(left, start + offset);
        let end = (last + 1 - start).min(BLOCK);
        write_run(&mut block, offset, end, word);
        left = behind(left, start + end - 1);
        offset = end;
    }
    (block, left)
}

/// Writes a word from an offset on, up to an end.
fn write_run(block: &mut [u32; 64], from: u32, end: u32, word: u32)
    requires { end ≤ 64 }
    ensures length { length block.new ≡ 64 }
    ensures before { (k : ℕ) → k < from → slice_index block.new k ≡ slice_index block.old k }
    ensures run { (k : ℕ) → from ≤ k → k < end → slice_index block.new k ≡ word }
{
    for offset in from..end {
        block[offset as usize] = word;
    }
}

/// The word of a number, and a number up to which all have it.
fn run_from(ranges: &[(u32, u32, u32)], number: u32) -> (u32, u32)
    requires ranges { AreFrom number ranges.now }
    requires code_point { number ≤ 0x10FFFF }
    ensures run { IsRun ranges.now number result.0 result.1 }
    ensures within { result.1 ≤ 0x10FFFF }
{
    match ranges {
        [] => (0, CODE_POINTS - 1),
        [(first, _, _), ..] if number < *first => (0, first - 1),
        [(_, last, word), ..] => (*word, *last),
    }
}

/// The ranges that don't end at this number.
fn behind(ranges: &[(u32, u32, u32)], number: u32) -> &[(u32, u32, u32)]
    requires { AreFrom number ranges.now }
    ensures { AreLeft ranges.now (number + 1) result.now }
{
    match ranges {
        [range, left @ ..] if range.1 <= number => left,
        _ => ranges,
    }
}
