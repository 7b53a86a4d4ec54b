//! The three encodings as one trait, over which every loop is written once.
ghost use Rattle.std.specs.Prelude.{◌≡◌, ◌==◌, ℕ, ◌<◌, IfSome, MatchOption};
ghost use Rattle.std.specs.Prelude.{List, [], length, take, drop, slice_index};
ghost use Rattle.normalizer_text.specs.DecodingSteps.{IsBoundary, IsFirstStep, IsLastStep};
ghost use Rattle.normalizer_text.specs.inner.Backwards.{IsLastStart};
ghost use Rattle.normalizer_text.specs.Encodings.{Encoding, first_in, trails_in};
ghost use Rattle.normalizer_text.specs.Passing.{IsByteAt, PassesTo};
ghost use Rattle.normalizer_text.specs.Scans.{EndsLowCharacters};

use crate::decoding_step::Step;
use crate::{groups, scan, utf8, utf16};
use normalizer_passing::{LowBound, PassBytes};

/// No step takes more units.
const LONGEST_STEP: usize = 4;

/// Text in an encoding: a `str`, bytes that may not be UTF-8, or 16-bit units that may not be UTF-16. A position counts
/// units from the beginning.
pub trait Units: Copy {
    /// The units.
    ghost units: { Self → List ℕ };

    /// Their encoding.
    ghost encoding: { Encoding };

    /// Returns how many units there are.
    fn len(self) -> usize
        ensures { result ≡ length (units self) };

    /// Returns the first step of the units from a position on, wherever that is.
    fn step_at(self, position: usize) -> Step
        requires { position < length (units self) }
        ensures { result ≡ first_in encoding (drop position (units self)) };

    /// Returns the byte and the width of the character at a position: 0 if it is ill-formed, or isn't seen at once to
    /// pass.
    fn byte_at(self, position: usize, bytes: &PassBytes) -> (u8, usize)
        requires inside { position < length (units self) }
        requires boundary { IsBoundary (first_in encoding) (units self) position }
        ensures { IsByteAt encoding bytes.now (units self) position result.0 result.1 };

    /// Returns an end of characters at the beginning that pass, found by groups of units, and the least byte that
    /// passes after them.
    #[inline(always)]
    fn passed_in_groups(self, _bytes: &PassBytes) -> (usize, u8)
        ensures { PassesTo encoding _bytes.now (units self) result.0 result.1 }
    {
        (0, 1)
    }

    /// Returns whether the unit at a position can come after the first one of a step. No character begins with such a
    /// unit.
    fn trails_at(self, position: usize) -> bool
        requires { position < length (units self) }
        ensures { result ≡ trails_in encoding (slice_index (units self) position) };

    /// Returns the units before a position at which a step ends.
    fn before(self, position: usize) -> Self
        requires { IsBoundary (first_in encoding) (units self) position }
        ensures { units result ≡ take position (units self) };

    /// Returns the units after such a position.
    fn after(self, position: usize) -> Self
        requires { IsBoundary (first_in encoding) (units self) position }
        ensures { units result ≡ drop position (units self) };

    /// Returns an end of characters from a position on that are below a bound, if there are any. They are passed over
    /// up to the first unit that isn't seen at once to be of such a character.
    fn end_of_low(self, position: usize, bound: LowBound) -> Option<usize>
        requires { IsBoundary (first_in encoding) (units self) position }
        ensures low { IfSome result (EndsLowCharacters encoding (units self) position bound.number) }
        ensures further { IfSome result (λ end. position < end) };

    final fn is_empty(self) -> bool
        ensures { result ≡ (length (units self) == 0) }
    {
        self.len() == 0
    }

    /// The step at the beginning, if there are units.
    #[inline(always)]
    final fn first_step(self) -> Option<Step>
        ensures { MatchOption result (units self ≡ []) (IsFirstStep (first_in encoding) (units self)) }
    {
        if self.len() == 0 {
            return None;
        }
        Some(self.step_at(0))
    }

    /// The step at the back, if there are units.
    #[inline(always)]
    final fn last_step(self) -> Option<Step>
        ensures { MatchOption result (units self ≡ []) (IsLastStep (first_in encoding) (units self)) }
    {
        let len = self.len();
        if len == 0 {
            return None;
        }
        let start = last_start(self);
        let step = self.step_at(start);
        if step.width == len - start {
            Some(step)
        } else {
            Some(Step::replaced(1))
        }
    }
}

/// Returns the beginning of the last step, if it takes more than one unit.
#[inline(always)]
fn last_start<U: Units>(units: U) -> usize
    requires { 0 < length (U.units units) }
    ensures { IsLastStart (trails_in U.encoding) (U.units units) result }
{
    let limit = units.len().saturating_sub(LONGEST_STEP);
    let mut start = units.len() - 1;
    while start > limit && units.trails_at(start) {
        start -= 1;
    }
    start
}

impl<'a> Units for &'a str {
    ghost units = { λ text. text.now };

    ghost encoding = { Encoding.Utf8 };

    fn len(self) -> usize {
        str::len(self)
    }

    #[inline(always)]
    fn step_at(self, position: usize) -> Step {
        let bytes = &self.as_bytes()[position..];
        if utf8::is_continuation(bytes[0]) {
            Step::replaced(1)
        } else {
            utf8::first_step_of_well_formed(bytes)
        }
    }

    #[inline(always)]
    fn byte_at(self, position: usize, bytes: &PassBytes) -> (u8, usize) {
        utf8::byte_of_well_formed(&self.as_bytes()[position..], bytes)
    }

    fn trails_at(self, position: usize) -> bool {
        utf8::is_continuation(self.as_bytes()[position])
    }

    #[inline(always)]
    fn end_of_low(self, position: usize, bound: LowBound) -> Option<usize> {
        scan::end_of_below(self.as_bytes(), position, u32::from(bound.byte))
    }

    fn before(self, position: usize) -> Self {
        &self[..position]
    }

    fn after(self, position: usize) -> Self {
        &self[position..]
    }
}

impl<'a> Units for &'a [u8] {
    ghost units = { λ bytes. bytes.now };

    ghost encoding = { Encoding.Utf8 };

    fn len(self) -> usize {
        <[u8]>::len(self)
    }

    #[inline(always)]
    fn step_at(self, position: usize) -> Step {
        utf8::first_step(&self[position..])
    }

    #[inline(always)]
    fn byte_at(self, position: usize, bytes: &PassBytes) -> (u8, usize) {
        utf8::byte_of_first(&self[position..], bytes)
    }

    fn trails_at(self, position: usize) -> bool {
        utf8::is_continuation(self[position])
    }

    #[inline(always)]
    fn end_of_low(self, position: usize, bound: LowBound) -> Option<usize> {
        scan::end_of_below(self, position, u32::from(bound.number).min(utf8::ASCII))
    }

    fn before(self, position: usize) -> Self {
        &self[..position]
    }

    fn after(self, position: usize) -> Self {
        &self[position..]
    }
}

impl<'a> Units for &'a [u16] {
    ghost units = { λ units. units.now };

    ghost encoding = { Encoding.Utf16 };

    fn len(self) -> usize {
        <[u16]>::len(self)
    }

    #[inline(always)]
    fn step_at(self, position: usize) -> Step {
        utf16::first_step(&self[position..])
    }

    #[inline(always)]
    fn byte_at(self, position: usize, bytes: &PassBytes) -> (u8, usize) {
        utf16::byte_of_first(&self[position..], bytes)
    }

    #[inline(always)]
    fn passed_in_groups(self, bytes: &PassBytes) -> (usize, u8) {
        groups::passed_in_groups(self, bytes)
    }

    fn trails_at(self, position: usize) -> bool {
        utf16::is_low_surrogate(u32::from(self[position]))
    }

    #[inline(always)]
    fn end_of_low(self, position: usize, bound: LowBound) -> Option<usize> {
        scan::end_of_below(self, position, u32::from(bound.number))
    }

    fn before(self, position: usize) -> Self {
        &self[..position]
    }

    fn after(self, position: usize) -> Self {
        &self[position..]
    }
}
