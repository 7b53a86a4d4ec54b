//! Passing over units in groups, as many at a time as a vector holds.
ghost use Rattle.std.specs.Prelude.{◌≡◌, ◌+◌, ◌<◌, ◌≤◌, length, IfSome};
ghost use Rattle.normalizer_text.specs.Encodings.{Encoding};
ghost use Rattle.normalizer_text.specs.Passing.{PassesTo};
ghost use Rattle.normalizer_text.specs.inner.Groups.{ArePaired};

use crate::passing;
use crate::units::Units;
use normalizer_passing::PassBytes;
use std::simd::prelude::*;

/// How many 16-bit units a group has.
const GROUP: usize = 8;

/// Returns an end of 16-bit units at the beginning that pass, found group by group, and the least byte that passes after
/// them.
#[inline(always)]
pub(crate) fn passed_in_groups(units: &[u16], bytes: &PassBytes) -> (usize, u8)
    ensures { PassesTo Encoding.Utf16 bytes.now units.now result.0 result.1 }
{
    let low = bytes.low();
    let (mut end, mut least) = (0, 1);
    while units.len() - end >= GROUP {
        if let Some(next) = units.end_of_low(end, low) {
            (end, least) = (next, 1);
            continue;
        }
        let Some(width) = paired_width(units, end) else {
            break;
        };
        let to = end + width;
        (end, least) = passed_in_group(units, end, to, least, bytes);
        if end < to {
            break;
        }
    }
    (end, least)
}

/// Returns how many of the 8 units at a position are whole characters: all of them, or all but a high surrogate at the
/// end. It returns none if a surrogate before that is unpaired.
#[inline(always)]
fn paired_width(units: &[u16], position: usize) -> Option<usize>
    requires { position + GROUP ≤ length units.now }
    ensures { IfSome result (λ width. (0 < width) × (width ≤ GROUP) × ArePaired units.now position (position + width)) }
{
    // The first six bits tell which units are surrogates, and which of both kinds.
    let kinds = Simd::<u16, GROUP>::from_slice(&units[position..]) >> Simd::splat(10);
    let high = kinds.simd_eq(Simd::splat(0xD800 >> 10)).to_bitmask();
    let low = kinds.simd_eq(Simd::splat(0xDC00 >> 10)).to_bitmask();
    if low == high * 2 % 256 {
        Some(GROUP - (high / 128) as usize)
    } else {
        None
    }
}

/// Passes over the units of a group, in which surrogates are pairs, up to the first character that doesn't pass. Each unit
/// is looked up by itself, so that no branch tells pairs from single units: a high surrogate passes if all characters
/// do that begin with it, and else the pair is looked up.
#[inline(always)]
fn passed_in_group(
    units: &[u16],
    from: usize,
    to: usize,
    least: u8,
    bytes: &PassBytes,
) -> (usize, u8)
    requires paired { ArePaired units.now from to }
    requires within { to ≤ length units.now }
    requires passed { PassesTo Encoding.Utf16 bytes.now units.now from least }
    ensures { PassesTo Encoding.Utf16 bytes.now units.now result.0 result.1 }
{
    let (mut end, mut least) = (from, least);
    while end < to {
        let (mut byte, mut width) = (bytes.of_unit(units[end]), 1);
        if byte < least {
            (byte, width) = units.byte_at(end, bytes);
            if byte < least {
                break;
            }
        }
        end += width;
        least = passing::least_after(byte);
    }
    (end, least)
}
