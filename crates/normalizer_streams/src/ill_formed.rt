//! Ill-formed sequences in bytes.
ghost use Rattle.std.specs.Prelude.{◌≡◌, ◌≤◌, cond, length, take, IfNone, IfSome};
ghost use Rattle.normalizer_streams.specs.IllFormed.{ill_formed, IsFirstIllFormed, IsWellFormedBy};

use crate::position::Position;
use icu_normalizer::Units;
use std::str;

/// What becomes of ill-formed sequences, by the names of the Encoding Standard.
#[derive(Clone, Copy, Debug, PartialEq, Eq)]
pub enum ErrorMode {
    /// Each is written as U+FFFD.
    Replacement,
    /// The first one ends the text.
    Fatal,
}

/// How a stream ended.
#[derive(Clone, Copy, Debug, PartialEq, Eq)]
pub enum Ending {
    /// All of it was read. It had so many ill-formed sequences, or 2^64 - 1 if it had more.
    Whole(usize),
    /// At an ill-formed sequence, which begins there.
    Stopped(Position),
}

/// Returns how many ill-formed sequences bytes have. Well-formed bytes, which most are, are read faster.
pub(crate) fn ill_formed_in(bytes: &[u8]) -> usize
    ensures { result ≡ ill_formed bytes.now }
{
    match str::from_utf8(bytes) {
        Ok(_) => 0,
        Err(_) => errors(bytes),
    }
}

/// Returns the place of the first ill-formed sequence, if there is one.
pub(crate) fn first_ill_formed(bytes: &[u8]) -> Option<usize>
    ensures first { IfSome result (λ place. (place ≤ length bytes.now)
        × IsFirstIllFormed bytes.now (take place bytes.now)) }
    ensures none { IfNone result (IsWellFormedBy bytes.now) }
{
    match str::from_utf8(bytes) {
        Ok(_) => None,
        Err(_) => first_error(bytes),
    }
}

fn errors(bytes: &[u8]) -> usize
    ensures { result ≡ ill_formed bytes.now }
{
    let mut count = 0;
    let mut place = 0;
    while place < bytes.len() {
        let step = bytes.step_at(place);
        count += one_if(step.is_error);
        place += step.width;
    }
    count
}

fn one_if(yes: bool) -> usize
    ensures { result ≡ cond yes 1 0 }
{
    if yes { 1 } else { 0 }
}

fn first_error(bytes: &[u8]) -> Option<usize>
    ensures first { IfSome result (λ place. (place ≤ length bytes.now)
        × IsFirstIllFormed bytes.now (take place bytes.now)) }
    ensures none { IfNone result (IsWellFormedBy bytes.now) }
{
    let mut place = 0;
    while place < bytes.len() {
        let step = bytes.step_at(place);
        if step.is_error {
            return Some(place);
        }
        place += step.width;
    }
    None
}
