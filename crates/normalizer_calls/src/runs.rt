//! The ends of what is passed on as it is.
ghost use Rattle.std.specs.Prelude.{◌<◌, length};
ghost use Rattle.normalizer_text.specs.Passing.{Passes};
ghost use Rattle.normalizer_calls.specs.inner.PassthroughRuns.{AreBytesOf, IsPassed};

use crate::forming::Forming;
use normalizer_passing::PassBytes;
use normalizer_text::{Step, Units, end_of_passing, last_starter};

/// The front of the units that is passed on as it is: its end, and the step there, if it was read.
#[derive(Clone, Copy)]
pub(crate) struct Passed {
    pub(crate) end: usize,
    pub(crate) next: Option<Step>,
}

/// Returns the end of the front of the units that is passed on as it is: of characters that pass, unless what follows
/// begins a new part, without the last starter and the marks after it if it may compose with what follows, and else
/// without these marks.
#[inline(always)]
pub(crate) fn passthrough_end<U: Units, N: Forming>(normalizer: &N, units: U) -> Passed
    ensures { IsPassed U.encoding (N.made_form normalizer.now) (U.units units) result }
{
    let bytes = normalizer.bytes();
    let end = end_of_passing(units, bytes);
    if end == units.len() {
        return Passed { end, next: None };
    }
    passed_before(normalizer, units, bytes, end)
}

/// Returns the same end, by the place of the first character that doesn't pass.
fn passed_before<U: Units, N: Forming>(
    normalizer: &N,
    units: U,
    bytes: &PassBytes,
    end: usize,
) -> Passed
    requires bytes { let m = N.made_form normalizer.now in AreBytesOf m.reading m.form N.held_back bytes.now }
    requires passes { Passes U.encoding bytes.now (U.units units) end }
    requires some { end < length (U.units units) }
    ensures { IsPassed U.encoding (N.made_form normalizer.now) (U.units units) result }
{
    let step = units.step_at(end);
    if normalizer.run_may_begin(step.character).is_some() {
        return Passed {
            end,
            next: Some(step),
        };
    }
    let starter = last_starter(units, end, bytes);
    if normalizer.holds_back() {
        return Passed {
            end: starter.start,
            next: None,
        };
    }
    Passed {
        end: starter.end,
        next: None,
    }
}
