//! Decoding 16-bit units that may not be UTF-16, with U+FFFD for unpaired surrogates (The Unicode Standard, section
//! 3.9).
ghost use Rattle.std.specs.Prelude.{◌≡◌, ◌<◌, ◌≤◌, IsTrue, length};
ghost use Rattle.normalizer_passing.specs.PassBytes.{byte_of};
ghost use Rattle.normalizer_text.specs.Passing.{PassesBy};
ghost use Rattle.normalizer_text.specs.Utf16.{is_high, is_low, pair_value, first_of_utf16};

use crate::decoding_step::Step;
use normalizer_passing::PassBytes;

/// The first unit of a pair (D72).
fn is_high_surrogate(unit: u32) -> bool
    ensures { result ≡ is_high unit }
{
    0xD800 <= unit && unit <= 0xDBFF
}

/// The second unit of a pair (D74).
pub(crate) fn is_low_surrogate(unit: u32) -> bool
    ensures { result ≡ is_low unit }
{
    0xDC00 <= unit && unit <= 0xDFFF
}

/// The character of a pair (table 3-5).
fn character_of_pair(high: u32, low: u32) -> char
    requires high { IsTrue (is_high high) }
    requires low { IsTrue (is_low low) }
    ensures { result ≡ pair_value high low }
{
    let code = 0x10000 + (high - 0xD800) * 0x400 + (low - 0xDC00);
    char::from_u32(code).unwrap()
}

/// The byte and the width of the first character of units that aren't empty: 0 of a surrogate without a pair.
#[inline(always)]
pub(crate) fn byte_of_first(units: &[u16], bytes: &PassBytes) -> (u8, usize)
    requires { 0 < length units.now }
    ensures { PassesBy bytes.now (first_of_utf16 units.now) result.0 result.1 }
{
    let unit = u32::from(units[0]);
    if is_high_surrogate(unit) && units.len() > 1 && is_low_surrogate(u32::from(units[1])) {
        return (byte_of_pair(unit, u32::from(units[1]), bytes), 2);
    }
    bytes.has_no_surrogate();
    (bytes.at((unit / 64) as usize, (unit % 64) as usize), 1)
}

/// The byte of the character of a pair.
#[inline(always)]
fn byte_of_pair(high: u32, low: u32, bytes: &PassBytes) -> u8
    requires high { IsTrue (is_high high) }
    requires low { IsTrue (is_low low) }
    ensures { result ≡ byte_of bytes.now (pair_value high low) }
{
    let block = 1024 + (high - 0xD800) * 16 + (low - 0xDC00) / 64;
    bytes.at(block as usize, (low % 64) as usize)
}

/// The first step of units that aren't empty.
#[inline(always)]
pub(crate) fn first_step(units: &[u16]) -> Step
    requires { 0 < length units.now }
    ensures { result ≡ first_of_utf16 units.now }
{
    let unit = u32::from(units[0]);
    match char::from_u32(unit) {
        Some(character) => Step::read(character, 1),
        None
            if is_high_surrogate(unit)
                && units.len() > 1
                && is_low_surrogate(u32::from(units[1])) => {
            Step::read(character_of_pair(unit, u32::from(units[1])), 2)
        }
        None => Step::replaced(1),
    }
}
