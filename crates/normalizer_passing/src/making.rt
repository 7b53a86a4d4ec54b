//! How the bytes of characters are made.
ghost use Rattle.std.specs.Prelude.{◌≡◌, ◌+◌, ◌<◌, ◌≤◌, ℕ, All, IfOk, IsTrue, length};
ghost use Rattle.normalizer_passing.specs.PassBytes.{byte_in, AreNumbers};
ghost use Rattle.normalizer_passing.specs.inner.Kept.{
  AreAmong,
  AreBlocks,
  AreOfHigh,
  ArePut,
  AreUnits,
  HasStarters,
  IsLessBy,
  IsLonger,
  IsPut,
};

use std::alloc::{AllocError, Global};

/// How many code points have their bytes in one block.
pub(crate) const BLOCK: usize = 64;

/// How many blocks the code points have.
const PLACES: usize = 17_408;

/// How many blocks 16-bit units have.
const UNIT_PLACES: usize = 1024;

/// How many blocks are kept at most: as many as a byte can number.
const MOST_BLOCKS: usize = 256;

/// The number of the block in which all stops.
const STOPS: u8 = 0;

/// The number of the block in which all are starters that pass.
const STARTERS: u8 = 1;

/// The byte of a starter that passes.
const STARTER: u8 = 255;

/// The first surrogate.
const SURROGATE: usize = 0xD800;

/// Makes characters stop. Others that share their blocks may stop too.
pub(crate) fn stop_all(blocks: &mut [[u8; 64]], numbers: &[u16], stops: &[char])
    requires { AreNumbers blocks.old numbers.now }
    ensures less { IsLessBy (byte_in blocks.old numbers.now) blocks.new numbers.now }
    ensures stops { All (λ c. byte_in blocks.new numbers.now c ≡ 0) stops.now }
{
    for k in 0..stops.len() {
        let number = stops[k] as usize;
        blocks[numbers[number / BLOCK] as usize][number % BLOCK] = 0;
    }
}

/// The two blocks that are always there.
pub(crate) fn first_blocks(alloc: Global) -> Result<Vec<[u8; 64]>, AllocError>
    ensures { IfOk result (λ blocks. AreBlocks blocks.items) }
{
    let mut blocks = Vec::new(alloc);
    blocks.push([0; BLOCK])?;
    blocks.push([STARTER; BLOCK])?;
    Ok(blocks)
}

/// Puts blocks among those that are kept, and returns their numbers there.
pub(crate) fn put_all(blocks: &mut Vec<[u8; 64]>, more: &[[u8; 64]]) -> Result<Vec<u8>, AllocError>
    requires { AreBlocks blocks.old.items }
    ensures { IfOk result (λ numbers. ArePut more.now blocks.new.items (length more.now) numbers.items) }
{
    let mut numbers = Vec::with_capacity(*blocks.allocator(), more.len())?;
    for k in 0..more.len() {
        numbers.push(put_block(blocks, &more[k])?)?;
    }
    Ok(numbers)
}

/// The number of a block among those that are kept, to which it is added if it is none of them; that of the block in
/// which all stops if there is no room.
fn put_block(blocks: &mut Vec<[u8; 64]>, block: &[u8; 64]) -> Result<u8, AllocError>
    requires { AreBlocks blocks.old.items }
    ensures { IfOk result (IsPut blocks.old.items block.now blocks.new.items) }
{
    if let Some(number) = blocks.iter().position(|kept| kept == block) {
        return Ok(number as u8);
    }
    let number = blocks.len();
    if number >= MOST_BLOCKS {
        return Ok(STOPS);
    }
    blocks.push(*block)?;
    Ok(number as u8)
}

/// The numbers of places, by those that blocks have among others. In the blocks of surrogates all stops.
pub(crate) fn numbers_among(places: &Vec<u8>, numbers: &[u16]) -> Result<Vec<u8>, AllocError>
    requires long { length numbers.now ≡ 17408 }
    requires within { All (λ number. number < length places.now.items) numbers.now }
    ensures { IfOk result (λ among. AreAmong places.now.items numbers.now 17408 among.items) }
{
    let mut among = Vec::with_capacity(*places.allocator(), PLACES)?;
    for place in 0..PLACES {
        among.push(match place {
            0x360..=0x37F => STOPS,
            _ => places[numbers[place] as usize],
        })?;
    }
    Ok(among)
}

/// The numbers of the blocks of 16-bit units. Those of high surrogates are added to those that are kept.
pub(crate) fn units_of(blocks: &mut Vec<[u8; 64]>, numbers: &[u8]) -> Result<Vec<u8>, AllocError>
    requires blocks { AreBlocks blocks.old.items }
    requires numbered { AreNumbers blocks.old.items numbers.now }
    ensures longer { IfOk result (λ _. IsLonger blocks.old.items blocks.new.items) }
    ensures units { IfOk result (λ units. AreUnits blocks.new.items numbers.now units.items) }
{
    let mut units = Vec::with_capacity(*blocks.allocator(), UNIT_PLACES)?;
    for place in 0..UNIT_PLACES {
        units.push(match place {
            0x360..=0x36F => put_block(blocks, &bytes_of_high(numbers, place - 0x360))?,
            0x370..=0x37F => STARTERS,
            _ => numbers[place],
        })?;
    }
    Ok(units)
}

/// The bytes of 64 high surrogates.
fn bytes_of_high(numbers: &[u8], place: usize) -> [u8; 64]
    requires numbers { length numbers.now ≡ 17408 }
    requires place { place < 16 }
    ensures { AreOfHigh numbers.now place result }
{
    let mut block = [0; BLOCK];
    for offset in 0..BLOCK {
        if all_start(numbers, UNIT_PLACES + (BLOCK * place + offset) * 16) {
            block[offset] = STARTER;
        }
    }
    block
}

/// Whether the characters of 16 blocks are starters that pass.
fn all_start(numbers: &[u8], first: usize) -> bool
    requires { first + 16 ≤ length numbers.now }
    ensures { IsTrue result → HasStarters numbers.now first }
{
    for k in 0..16 {
        if numbers[first + k] != STARTERS {
            return false;
        }
    }
    true
}

/// The least number that isn't a starter that passes: at most that of the first surrogate.
pub(crate) fn first_other(blocks: &[[u8; 64]], numbers: &[u8]) -> u16
    requires { AreNumbers blocks.now numbers.now }
    ensures low { result ≤ 0xD800 }
    ensures below { (n : ℕ) → n < result → byte_in blocks.now numbers.now n ≡ 255 }
{
    for number in 0..SURROGATE {
        if blocks[numbers[number / BLOCK] as usize][number % BLOCK] != STARTER {
            return number as u16;
        }
    }
    SURROGATE as u16
}
