//! Segments, which come between what is passed on as it is: their ends, and their characters in canonical order.
ghost use Rattle.std.specs.Prelude.{◌≡◌, ◌<◌, length, [], IfOk, IfSome, IsOk, IsTrue, None, Some};
ghost use Rattle.normalizer_tables.specs.Readings.{reading_by};
ghost use Rattle.normalizer_tables.specs.declared.characters.IgnoredCharacters.TheVariants.{Dropped};
ghost use Rattle.normalizer_text.specs.Encodings.{first_in};
ghost use Rattle.normalizer_iterators.specs.Segment.{EndsFront, HasRead, IsSmall};
ghost use Rattle.normalizer_calls.specs.Forms.{HasShortUnits};
ghost use Rattle.normalizer_calls.specs.inner.PassthroughRuns.{IsFrontSegment};

use crate::forming::Forming;
use normalizer_iterators::SegmentBuffer;
use normalizer_tables::characters::IgnoredCharacters;
use normalizer_text::{Step, Units};
use std::alloc::AllocError;

/// The end of a segment, the step that follows, and whether that is passed on as it is.
#[derive(Clone, Copy)]
pub(crate) struct Segment {
    pub(crate) end: usize,
    pub(crate) next: Option<Step>,
    pub(crate) is_before_run: bool,
}

impl Segment {
    /// The segment that ends before a step.
    #[inline(always)]
    fn before(end: usize, step: Step, is_before_run: bool) -> Segment
        ensures end { result.end ≡ end }
        ensures next { result.next ≡ Some step }
    {
        Segment {
            end,
            next: Some(step),
            is_before_run,
        }
    }

    /// The last segment, which goes up to the end of the units.
    #[inline(always)]
    fn last(end: usize) -> Segment
        ensures end { result.end ≡ end }
        ensures next { result.next ≡ None }
    {
        Segment {
            end,
            next: None,
            is_before_run: false,
        }
    }
}

/// Returns the first step of the units, which may have been read before.
#[inline(always)]
pub(crate) fn first_step<U: Units>(units: U, first: Option<Step>) -> Step
    requires some { 0 < length (U.units units) }
    requires first { IfSome first (λ first. first ≡ first_in U.encoding (U.units units)) }
    ensures { result ≡ first_in U.encoding (U.units units) }
{
    match first {
        Some(first) => first,
        None => units.step_at(0),
    }
}

/// Buffers the segment that begins with the first step, as far as it fits: it ends before the next character that is
/// normalized apart. Returns the segment, and whether all of it is buffered.
pub(crate) fn read_segment<U: Units, N: Forming>(
    normalizer: &N,
    units: U,
    first: Step,
    buffer: &mut SegmentBuffer,
) -> Result<(Segment, bool), AllocError>
    requires some { 0 < length (U.units units) }
    requires first { first ≡ first_in U.encoding (U.units units) }
    ensures segment { IfOk result (λ r. IsFrontSegment (N.beginning normalizer.now) U.encoding (U.units units) r.0) }
    ensures read { IfOk result (λ r. IsTrue r.1 → HasRead (reading_by (N.read_by normalizer.now) Dropped [])
        U.encoding (U.units units) r.0.end buffer.new) }
    ensures small { HasShortUnits (N.made_form normalizer.now) U.encoding (U.units units) →
        IfOk result (λ r. IsTrue r.1 → IsSmall buffer.new) }
    ensures room { HasShortUnits (N.made_form normalizer.now) U.encoding (U.units units) → IsOk result }
{
    normalizer.what_is_buffered_is_the_form();
    let (characters, dropped) = (normalizer.characters(), IgnoredCharacters::Dropped);
    let mut end = buffer.read(characters, dropped, units, first)?;
    let mut fits = true;
    while end < units.len() {
        let step = units.step_at(end);
        if let Some(is_before_run) = normalizer.run_may_begin(step.character) {
            return Ok((Segment::before(end, step, is_before_run), fits));
        }
        if fits {
            fits = buffer.add(characters, dropped, step);
        }
        end += step.width;
    }
    Ok((Segment::last(end), fits))
}

/// Returns the segment that ends at a place, if one does.
pub(crate) fn segment_to<U: Units, N: Forming>(
    normalizer: &N,
    units: U,
    end: usize,
) -> Option<Segment>
    requires { EndsFront U.encoding (U.units units) end }
    ensures end { IfSome result (λ segment. segment.end ≡ end) }
    ensures segment { IfSome result (IsFrontSegment (N.beginning normalizer.now) U.encoding (U.units units)) }
{
    if end == units.len() {
        return Some(Segment::last(end));
    }
    let step = units.step_at(end);
    let is_before_run = normalizer.run_may_begin(step.character)?;
    Some(Segment::before(end, step, is_before_run))
}
