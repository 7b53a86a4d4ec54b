//! Numbers, as they are read.
ghost use Rattle.std.specs.Prelude.{◌<◌, ◌^◌, IfOk};
ghost use Rattle.normalizer_prepared.specs.Reading.{byte_at, number_at, Gives};

use crate::fault::{Fault, ReadError};

/// The first byte, and the bytes after it.
#[inline(always)]
pub(crate) fn u8_at(bytes: &[u8]) -> Result<(u8, &[u8]), ReadError>
    ensures { Gives (λ x. (x.0, x.1.now)) result (byte_at bytes.now) }
{
    match bytes {
        [] => Err(ReadError::Wrong(Fault::Short, 0)),
        [byte, rest @ ..] => Ok((*byte, rest)),
    }
}

/// A number of two bytes.
#[tactic(auto, unfolding(crate::specs::Reading::number_at))]
#[inline(always)]
pub(crate) fn u16_at(bytes: &[u8]) -> Result<(u16, &[u8]), ReadError>
    ensures { Gives (λ x. (x.0, x.1.now)) result (number_at 2 bytes.now) }
{
    let (low, rest) = u8_at(bytes)?;
    let (high, rest) = u8_at(rest)?;
    Ok((low as u16 + 256 * high as u16, rest))
}

/// A number of three bytes.
#[tactic(auto, unfolding(crate::specs::Reading::number_at))]
#[inline(always)]
pub(crate) fn u24_at(bytes: &[u8]) -> Result<(u32, &[u8]), ReadError>
    ensures number { Gives (λ x. (x.0, x.1.now)) result (number_at 3 bytes.now) }
    ensures bound { IfOk result (λ x. x.0 < 2 ^ 24) }
{
    let (low, rest) = u8_at(bytes)?;
    let (high, rest) = u16_at(rest)?;
    Ok((low as u32 + 256 * high as u32, rest))
}

/// A number of four bytes.
#[tactic(auto, unfolding(crate::specs::Reading::number_at))]
#[inline(always)]
pub(crate) fn u32_at(bytes: &[u8]) -> Result<(u32, &[u8]), ReadError>
    ensures { Gives (λ x. (x.0, x.1.now)) result (number_at 4 bytes.now) }
{
    let (low, rest) = u8_at(bytes)?;
    let (high, rest) = u24_at(rest)?;
    Ok((low as u32 + 256 * high, rest))
}
