//! A byte for each code point that says how it passes.
ghost use Rattle.std.specs.Prelude.{◌≡◌, ◌+◌, ◌*◌, ◌<◌, ◌≤◌, ℕ, All, IfOk};
ghost use Rattle.normalizer_passing.specs.PassBytes.{byte_in, byte_of, AreNumbers, IsByteOfUnit};

use crate::low_bound::LowBound;
use crate::making::{BLOCK, first_blocks, first_other, numbers_among, put_all, stop_all, units_of};
use std::alloc::{AllocError, Global};
use std::marker::Model;

/// A byte for each code point. One that stops has 0; a mark that passes after a class that isn't greater has its class,
/// 1 to 254; a starter that passes has 255. So a character passes after another if its byte isn't less than that of
/// the other, or than 1 after a starter.
#[derive(Drop)]
pub struct PassBytes {
    /// The blocks of 64 bytes, equal ones once.
    blocks: Vec<[u8; 64]>,
    /// The number of the block of each 64 code points.
    numbers: Vec<u8>,
    /// The same for 16-bit units, of which surrogates have blocks of their own.
    units: Vec<u8>,
    /// That of the least number that isn't a starter that passes.
    low: LowBound,
}

impl Model for PassBytes {
    ghost use Rattle.std.specs.Prelude.{ℕ, List};
    ghost use Rattle.normalizer_passing.specs.inner.Kept.{all_bytes, IsKept};

    ghost Value = { List ℕ };

    ghost view = { λ b. all_bytes b.blocks.items b.numbers.items };

    ghost invariant = { λ b. IsKept b.blocks.items b.numbers.items b.units.items b.low.number };
}

impl PassBytes {
    /// Makes the bytes of all code points from blocks of 64: a block that several places share is in `blocks` once, and
    /// `numbers` has its place for each 64 code points. Surrogates and the characters of `stops` have 0, and so may others
    /// have: those that share their blocks, and those whose blocks find no place among the 256 that are kept.
    ///
    /// # Errors
    /// If an allocation failed.
    pub fn from_blocks(
        mut blocks: Vec<[u8; 64]>,
        numbers: &[u16],
        stops: &[char],
    ) -> Result<Self, AllocError>
        requires { AreNumbers blocks.items numbers.now }
        ensures bytes { IfOk result (λ made. (n : ℕ) →
            0 < byte_of made n → (n < 0x110000) × (byte_of made n ≡ byte_in blocks.items numbers.now n)) }
        ensures stops { IfOk result (λ made. All (λ c. byte_of made c ≡ 0) stops.now) }
    {
        stop_all(&mut blocks, numbers, stops);
        let mut kept = first_blocks(*blocks.allocator())?;
        let places = put_all(&mut kept, &blocks)?;
        let numbers = numbers_among(&places, numbers)?;
        let units = units_of(&mut kept, &numbers)?;
        let low = LowBound::new(first_other(&kept, &numbers));
        Ok(PassBytes {
            blocks: kept,
            numbers,
            units,
            low,
        })
    }

    /// Returns the byte at a place of a block of 64.
    #[inline(always)]
    pub fn at(&self, block: usize, place: usize) -> u8
        requires block { block < 17408 }
        requires place { place < 64 }
        ensures { result ≡ byte_of self.now (64 * block + place) }
    {
        self.blocks[self.numbers[block] as usize][place]
    }

    /// Returns the byte of a character.
    #[inline(always)]
    pub fn of(&self, character: char) -> u8
        ensures { result ≡ byte_of self.now character }
    {
        let number = character as usize;
        self.at(number / BLOCK, number % BLOCK)
    }

    /// Returns the byte of a 16-bit unit where surrogates are known to be pairs: that of the character; of a high
    /// surrogate 255 if that is the byte of all characters that it begins, and else 0; of a low surrogate 255.
    #[inline(always)]
    pub fn of_unit(&self, unit: u16) -> u8
        ensures { IsByteOfUnit self.now unit result }
    {
        let number = unit as usize;
        self.blocks[self.units[number / BLOCK] as usize][number % BLOCK]
    }

    /// Returns a bound below which all characters are starters that pass.
    #[inline(always)]
    pub fn low(&self) -> LowBound
        ensures { (n : ℕ) → n < result.number → byte_of self.now n ≡ 255 }
    {
        self.low
    }

    /// Does nothing: its contract is for callers, who don't see the blocks.
    #[inline(always)]
    pub fn has_no_surrogate(&self)
        ensures { (n : ℕ) → 0xD800 ≤ n → n ≤ 0xDFFF → byte_of self.now n ≡ 0 }
    {
        let _ = &self.numbers;
    }
}

impl Clone for PassBytes {
    ghost is_clone = { λ a b. b ≡ a };

    fn clone(&self) -> Result<Self, AllocError> {
        Ok(PassBytes {
            blocks: Vec::from_slice(*self.blocks.allocator(), &self.blocks)?,
            numbers: self.numbers.clone()?,
            units: self.units.clone()?,
            low: self.low,
        })
    }
}
