//! Lists of items of one width, as they are read.
ghost use Rattle.normalizer_prepared.specs.Reading.{items_at, list_at, Gives};

use crate::fault::{Fault, ReadError};
use crate::numbers::{u8_at, u16_at, u24_at, u32_at};
use std::alloc::{AllocError, Global};

/// An item of a list.
pub(crate) trait Item: Copy {
    ghost use Rattle.std.specs.Prelude.{ℕ, List};
    ghost use Rattle.normalizer_prepared.specs.Reading.{Gives, Read};

    /// What is read.
    ghost item_at: { List ℕ → Read Self };

    /// The first item of these bytes, and the bytes after it.
    fn read(bytes: &[u8]) -> Result<(Self, &[u8]), ReadError>
        ensures { Gives (λ x. (x.0, x.1.now)) result (item_at bytes.now) };

    /// Appends the item.
    fn append(self, out: &mut Vec<u8>) -> Result<(), AllocError>;
}

impl Item for u16 {
    ghost use Rattle.normalizer_prepared.specs.Reading.{number_at};

    ghost item_at = { number_at 2 };

    #[inline(always)]
    fn read(bytes: &[u8]) -> Result<(u16, &[u8]), ReadError> {
        u16_at(bytes)
    }

    fn append(self, out: &mut Vec<u8>) -> Result<(), AllocError> {
        out.extend_from_slice(&self.to_le_bytes())
    }
}

impl Item for char {
    ghost use Rattle.normalizer_prepared.specs.Reading.{scalar_at};

    ghost item_at = { scalar_at };

    #[tactic(auto, unfolding(crate::specs::Reading::scalar_at))]
    #[inline(always)]
    fn read(bytes: &[u8]) -> Result<(char, &[u8]), ReadError> {
        let (number, rest) = u24_at(bytes)?;
        match char::from_u32(number) {
            Some(c) => Ok((c, rest)),
            None => Err(ReadError::Wrong(Fault::Scalar, bytes.len())),
        }
    }

    fn append(self, out: &mut Vec<u8>) -> Result<(), AllocError> {
        out.extend_from_slice(&(self as u32).to_le_bytes()[..3])
    }
}

/// A pair and what it composes to.
impl Item for (char, char, char) {
    ghost use Rattle.normalizer_prepared.specs.Reading.{pair_at};

    ghost item_at = { pair_at };

    #[tactic(auto, unfolding(crate::specs::Reading::pair_at))]
    #[inline(always)]
    fn read(bytes: &[u8]) -> Result<((char, char, char), &[u8]), ReadError> {
        let (second, rest) = char::read(bytes)?;
        let (first, rest) = char::read(rest)?;
        let (result, rest) = char::read(rest)?;
        Ok(((second, first, result), rest))
    }

    fn append(self, out: &mut Vec<u8>) -> Result<(), AllocError> {
        let (second, first, result) = self;
        second.append(out)?;
        first.append(out)?;
        result.append(out)
    }
}

/// A run of a table: its size, and the word of its code points.
impl Item for (u8, u32) {
    ghost use Rattle.normalizer_prepared.specs.Reading.{run_at};

    ghost item_at = { run_at };

    #[tactic(auto, unfolding(crate::specs::Reading::run_at))]
    #[inline(always)]
    fn read(bytes: &[u8]) -> Result<((u8, u32), &[u8]), ReadError> {
        let (size, rest) = u8_at(bytes)?;
        let (word, rest) = u32_at(rest)?;
        Ok(((size, word), rest))
    }

    fn append(self, out: &mut Vec<u8>) -> Result<(), AllocError> {
        let (size, word) = self;
        out.push(size)?;
        out.extend_from_slice(&word.to_le_bytes())
    }
}

/// This many items, one after another.
fn items_at<T: Item>(alloc: Global, count: u32, bytes: &[u8]) -> Result<(Vec<T>, &[u8]), ReadError>
    ensures { Gives (λ x. (x.0.items, x.1.now)) result (items_at T.item_at count bytes.now) }
{
    let mut items = Vec::new(alloc);
    let mut rest = bytes;
    for _ in 0..count {
        let (item, after) = T::read(rest)?;
        items.push(item)?;
        rest = after;
    }
    Ok((items, rest))
}

/// How many items there are, and the items.
#[tactic(auto, unfolding(crate::specs::Reading::list_at))]
pub(crate) fn list_at<T: Item>(alloc: Global, bytes: &[u8]) -> Result<(Vec<T>, &[u8]), ReadError>
    ensures { Gives (λ x. (x.0.items, x.1.now)) result (list_at T.item_at bytes.now) }
{
    let (count, rest) = u32_at(bytes)?;
    items_at(alloc, count, rest)
}
