//! Tables of words that are computed stretch by stretch.
ghost use Rattle.std.specs.Prelude.{IfOk, ◌+◌, ◌<◌, ◌≤◌};
ghost use Rattle.normalizer_packing.specs.inner.Breakpoints.{IsConstantBetween, CoverUpTo, IsConstant};
ghost use Rattle.normalizer_packing.specs.TableWords.{CoverWords, HasWords};
ghost use Rattle.normalizer_tables.specs.Table.{code_points};
ghost use Rattle.std.specs.List.Sorted.{IsStrictlyIncreasing};

use normalizer_tables::characters::CODE_POINTS;
use normalizer_tables::{CodePointTable, TableError};
use std::alloc::{AllocError, Global};

/// A word for each code point.
pub trait Words {
    ghost use Rattle.std.specs.Prelude.{ℕ, ◌<◌};
    ghost use Rattle.normalizer_tables.specs.Table.{code_points};

    /// The words can be computed.
    ghost is_ready: { Self → Type 0 };

    /// What a word of a number means.
    ghost is_word: { Self → ℕ → ℕ → Type 0 };

    /// The word of a code point.
    fn word_of(&self, number: u32) -> u32
        requires ready { is_ready self.now }
        requires within { number < code_points }
        ensures { is_word self.now number result };
}

/// Returns the table of the words of all code points, if those between two listed characters have one word.
///
/// # Errors
/// [`AllocError`] if an allocation failed.
pub fn table_of<W: Words>(
    alloc: Global,
    words: &W,
    breakpoints: &[char],
) -> Result<CodePointTable, AllocError>
    requires ready { W.is_ready words.now }
    requires rising { IsStrictlyIncreasing breakpoints.now }
    requires alike { IsConstantBetween (W.is_word words.now) breakpoints.now }
    ensures { IfOk result (HasWords (W.is_word words.now)) }
{
    let ranges = ranges_of(alloc, words, breakpoints)?;
    match CodePointTable::from_ranges(ranges, 0) {
        Ok(table) => Ok(table),
        Err(TableError::Memory) => Err(AllocError),
        Err(TableError::Ranges) => unreachable!(),
    }
}

/// Ranges of one word each, one after another, that have all code points with a word other than 0: each listed
/// character, and all between two.
#[tactic(auto, using(crate::proofs::constant_words::ConsecutiveRanges::IsConstant_one), unfolding(normalizer_tables::specs::Table::code_points))]
fn ranges_of<W: Words>(
    alloc: Global,
    words: &W,
    breakpoints: &[char],
) -> Result<Vec<(u32, u32, u32)>, AllocError>
    requires ready { W.is_ready words.now }
    requires rising { IsStrictlyIncreasing breakpoints.now }
    requires alike { IsConstantBetween (W.is_word words.now) breakpoints.now }
    ensures { IfOk result (λ v. CoverWords (W.is_word words.now) v.items) }
{
    let mut ranges = Vec::new(alloc);
    let mut from = 0;
    for &character in breakpoints {
        let number = character as u32;
        push_range(&mut ranges, words, from, number)?;
        push_range(&mut ranges, words, number, number + 1)?;
        from = number + 1;
    }
    push_range(&mut ranges, words, from, CODE_POINTS)?;
    Ok(ranges)
}

/// Adds the numbers from one up to before another, which have the word of the first, unless it is 0.
fn push_range<W: Words>(
    ranges: &mut Vec<(u32, u32, u32)>,
    words: &W,
    from: u32,
    end: u32,
) -> Result<(), AllocError>
    requires ready { W.is_ready words.now }
    requires within { end ≤ code_points }
    requires ordered { from ≤ end }
    requires alike { IsConstant (W.is_word words.now) from end }
    ensures { IfOk result (λ _. CoverUpTo (W.is_word words.now) ranges.old.items from →
        CoverUpTo (W.is_word words.now) ranges.new.items end) }
{
    if from == end {
        return Ok(());
    }
    let word = words.word_of(from);
    if word != 0 {
        ranges.push((from, end - 1, word))?;
    }
    Ok(())
}
