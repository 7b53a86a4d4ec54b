//! Passing over characters that stay as they are.
ghost use Rattle.std.specs.Prelude.{◌≡◌, ◌<◌};
ghost use Rattle.normalizer_passing.specs.PassBytes.{least_after};
ghost use Rattle.normalizer_text.specs.DecodingSteps.{IsBoundary};
ghost use Rattle.normalizer_text.specs.Encodings.{first_in};
ghost use Rattle.normalizer_text.specs.Passing.{IsLastStarter, Passes};

use crate::units::Units;
use normalizer_passing::PassBytes;
use std::ops::Range;

/// The byte of a starter that passes.
const STARTER: u8 = 255;

/// Returns the end of the characters at the beginning that pass, in order: some of them, if not all are found.
#[inline(always)]
pub fn end_of_passing<U: Units>(units: U, bytes: &PassBytes) -> usize
    ensures { Passes U.encoding bytes.now (U.units units) result }
{
    let low = bytes.low();
    let (mut end, mut least) = units.passed_in_groups(bytes);
    while end < units.len() {
        if let Some(next) = units.end_of_low(end, low) {
            (end, least) = (next, 1);
            continue;
        }
        let (byte, width) = units.byte_at(end, bytes);
        if byte < least {
            break;
        }
        end += width;
        least = least_after(byte);
    }
    end
}

/// The least byte that passes after a byte that isn't 0. A choice of two would be compiled to a branch.
#[inline(always)]
pub fn least_after(byte: u8) -> u8
    requires { 0 < byte }
    ensures { result ≡ least_after byte }
{
    byte.wrapping_add(u8::from(byte == STARTER) << 1)
}

/// Returns where the last starter before an end is: after it there are only marks. It is an empty range at the
/// beginning if there is none.
#[inline(always)]
pub fn last_starter<U: Units>(units: U, end: usize, bytes: &PassBytes) -> Range<usize>
    requires { IsBoundary (first_in U.encoding) (U.units units) end }
    ensures { IsLastStarter U.encoding bytes.now (U.units units) end result.start result.end }
{
    let mut stop = end;
    while let Some(step) = units.before(stop).last_step() {
        let start = stop - step.width;
        if bytes.of(step.character) == STARTER {
            return start..stop;
        }
        stop = start;
    }
    0..0
}
