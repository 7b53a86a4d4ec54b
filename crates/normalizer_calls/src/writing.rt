//! Writing the form of units to an output: what passes in pieces, and segments character by character.
ghost use Rattle.std.specs.Prelude.{ℕ, ◌≡◌, ◌<◌, ◌∷◌, [], List, drop, length};
ghost use Rattle.std.specs.Prelude.{Err, Ok, IfErr, IfNone, IfOk, IfSome, IsErrOf, IsOk, IsOkUnless};
ghost use Rattle.std.specs.Iterator.{IsFinite};
ghost use Rattle.normalizer_text.specs.Encodings.{first_in};
ghost use Rattle.normalizer_iterators.specs.Items.{SpellsOk, SpellsUnless};
ghost use Rattle.normalizer_iterators.specs.Segment.{Agrees};
ghost use Rattle.normalizer_calls.specs.Forms.{form_in, HasShortUnits};
ghost use Rattle.normalizer_calls.specs.inner.FormsLeft.{form_left};
ghost use Rattle.normalizer_calls.specs.inner.Offences.{IsFirstOrNone};
ghost use Rattle.normalizer_calls.specs.inner.PassthroughRuns.{IsKeptTo};
ghost use Rattle.normalizer_calls.specs.Writing.{TellsLengthFirst};
ghost use Rattle.normalizer_calls.specs.inner.WrittenParts.{NothingOffered, WritesPart, WritesSegment, WritesText, WritesUnits};

use crate::forming::Forming;
use crate::runs::passthrough_end;
use crate::segment::{Segment, first_step, read_segment, segment_to};
use normalizer_iterators::{NormalizeError, SegmentBuffer};
use normalizer_tables::members::Members;
use normalizer_text::output::Output;
use normalizer_text::{Step, Units};

/// Writes the characters, each after the one before, up to the first error.
pub(crate) fn write_items<U: Units, I, O: Output<U>>(
    items: I,
    output: &mut O,
) -> Result<(), NormalizeError>
where
    I: Iterator<Item = Result<char, NormalizeError>> + Drop,
    requires can { I.can_next items }
    requires ends { IsFinite (I.remaining items) }
    ensures text { (x : List ℕ) → SpellsUnless I.next_gives NormalizeError.Memory items x
        → WritesText U.encoding O.Output NothingOffered x output.old result output.new }
    ensures room { (x : List ℕ) → SpellsOk I.next_gives items x → ¬ IsErrOf result NormalizeError.Memory }
{
    for item in items {
        output.write_char(item?)?;
    }
    Ok(())
}

/// Returns the first character of an iterator, if there is one.
pub(crate) fn first_item<I>(mut items: I) -> Result<Option<char>, NormalizeError>
where
    I: Iterator<Item = Result<char, NormalizeError>> + Drop,
    requires { I.can_next items }
    ensures first { (x : List ℕ) → SpellsUnless I.next_gives NormalizeError.Memory items x →
        IfOk result (IsFirstOrNone x) × IsOkUnless result NormalizeError.Memory }
    ensures room { (x : List ℕ) → SpellsOk I.next_gives items x → IsOk result }
{
    match items.next() {
        Some(Ok(first)) => Ok(Some(first)),
        Some(Err(fault)) => Err(fault),
        None => Ok(None),
    }
}

/// Writes the members of a list, each after the one before.
#[inline(always)]
fn write_members<U: Units, O: Output<U>>(
    members: &Members<'_>,
    output: &mut O,
) -> Result<(), NormalizeError>
    ensures text { WritesText U.encoding O.Output NothingOffered members.now output.old result output.new }
    ensures room { ¬ IsErrOf result NormalizeError.Memory }
{
    let mut place = 0;
    while place < members.len() {
        output.write_char(members.at(place))?;
        place += 1;
    }
    Ok(())
}

/// Writes what is left of a segment, character by character.
#[inline(always)]
fn write_buffered<U: Units, N: Forming, O: Output<U>>(
    normalizer: &N,
    buffer: &mut SegmentBuffer,
    output: &mut O,
) -> Result<(), NormalizeError>
    requires { Agrees (N.made_form normalizer.now).reading buffer.old }
    ensures text { WritesText U.encoding O.Output NothingOffered (form_left (N.made_form normalizer.now) buffer.old)
        output.old result output.new }
    ensures room { ¬ IsErrOf result NormalizeError.Memory }
{
    while let Some(character) = normalizer.pop(buffer) {
        output.write_char(character)?;
    }
    Ok(())
}

/// Writes the front of the units that is passed on as it is, in one piece, if there is one. The normalizer isn't read: it says
/// of which form the contract speaks.
#[inline(always)]
fn write_passed<U: Units, N: Forming, O: Output<U>>(
    _normalizer: &N,
    units: U,
    end: usize,
    output: &mut O,
) -> Result<(), NormalizeError>
    requires { let m = N.made_form _normalizer.now in IsKeptTo U.encoding m.reading m.form (U.units units) end }
    ensures none { IfOk result (λ _. end ≡ 0 → output.new ≡ output.old) }
    ensures part { IfOk result (λ _. 0 < end → WritesPart U.encoding O.Output (N.made_form _normalizer.now)
        (U.units units) output.old end output.new) }
    ensures refused { IfErr result (λ fault. WritesUnits U.encoding O.Output (N.made_form _normalizer.now)
        (U.units units) output.old (Err fault) output.new) }
    ensures room { ¬ IsErrOf result NormalizeError.Memory }
{
    if end > 0 {
        output.write_piece(units.before(end))?;
    }
    Ok(())
}

/// Writes the list of the first step, if that is the form of its character and a segment alone. Returns the segment.
#[inline(always)]
fn write_alone<U: Units, N: Forming, O: Output<U>>(
    normalizer: &N,
    units: U,
    first: Step,
    output: &mut O,
) -> Result<Option<Segment>, NormalizeError>
    requires some { 0 < length (U.units units) }
    requires first { first ≡ first_in U.encoding (U.units units) }
    ensures written { IfOk result (λ alone. IfSome alone (λ segment. WritesSegment U.encoding O.Output
        (N.beginning normalizer.now) (N.made_form normalizer.now) (U.units units) output.old (Ok segment) output.new)) }
    ensures none { IfOk result (λ alone. IfNone alone (output.new ≡ output.old)) }
    ensures refused { IfErr result (λ fault. WritesUnits U.encoding O.Output (N.made_form normalizer.now)
        (U.units units) output.old (Err fault) output.new) }
    ensures room { ¬ IsErrOf result NormalizeError.Memory }
{
    let Some(segment) = segment_to(normalizer, units, first.width) else {
        return Ok(None);
    };
    let Some(members) = normalizer.form_of_one(first.character) else {
        return Ok(None);
    };
    write_members::<U, O>(&members, output)?;
    Ok(Some(segment))
}

/// Writes the form of the segment at the beginning of the units, and returns that: from its list, if it is one character
/// and that is its form, else from the buffer, or by an iterator if it doesn't fit.
#[inline(always)]
fn write_segment<U: Units, N: Forming, O: Output<U>>(
    normalizer: &N,
    units: U,
    first: Option<Step>,
    buffer: &mut SegmentBuffer,
    output: &mut O,
) -> Result<Segment, NormalizeError>
    requires some { 0 < length (U.units units) }
    requires first { IfSome first (λ first. first ≡ first_in U.encoding (U.units units)) }
    ensures written { WritesSegment U.encoding O.Output (N.beginning normalizer.now) (N.made_form normalizer.now)
        (U.units units) output.old result output.new }
    ensures room { HasShortUnits (N.made_form normalizer.now) U.encoding (U.units units) →
        ¬ IsErrOf result NormalizeError.Memory }
{
    let first = first_step(units, first);
    if let Some(segment) = write_alone(normalizer, units, first, output)? {
        return Ok(segment);
    }
    write_buffered_segment(normalizer, units, first, buffer, output)
}

/// Writes the form of the segment at the beginning of the units, and returns that: from the buffer, or by an iterator if
/// it doesn't fit.
fn write_buffered_segment<U: Units, N: Forming, O: Output<U>>(
    normalizer: &N,
    units: U,
    first: Step,
    buffer: &mut SegmentBuffer,
    output: &mut O,
) -> Result<Segment, NormalizeError>
    requires some { 0 < length (U.units units) }
    requires first { first ≡ first_in U.encoding (U.units units) }
    ensures written { WritesSegment U.encoding O.Output (N.beginning normalizer.now) (N.made_form normalizer.now)
        (U.units units) output.old result output.new }
    ensures room { HasShortUnits (N.made_form normalizer.now) U.encoding (U.units units) →
        ¬ IsErrOf result NormalizeError.Memory }
{
    let read = read_segment(normalizer, units, first, buffer)?;
    let (segment, fits) = read;
    if fits {
        normalizer.what_is_buffered_is_the_form();
        buffer.put_in_order()?;
        write_buffered::<U, N, O>(normalizer, buffer, output)?;
        return Ok(segment);
    }
    normalizer.write_items(units.before(segment.end), output)?;
    Ok(segment)
}

/// Writes the form of what the units decode to, from a segment at their front on: segments, and the runs between them.
/// (The buffer is borrowed, so that no way out of the loop drops it.)
fn write_segments<U: Units, N: Forming, O: Output<U>>(
    normalizer: &N,
    units: U,
    first: Option<Step>,
    buffer: &mut SegmentBuffer,
    output: &mut O,
) -> Result<(), NormalizeError>
    requires { IfSome first (λ first. first ≡ first_in U.encoding (U.units units)) }
    ensures text { WritesUnits U.encoding O.Output (N.made_form normalizer.now) (U.units units)
        output.old result output.new }
    ensures room { HasShortUnits (N.made_form normalizer.now) U.encoding (U.units units) →
        ¬ IsErrOf result NormalizeError.Memory }
{
    let mut position = 0;
    let mut first = first;
    while position < units.len() {
        let rest = units.after(position);
        let segment = write_segment(normalizer, rest, first, buffer, output)?;
        position += segment.end;
        first = segment.next;
        if segment.is_before_run {
            let following = units.after(position);
            let passed = passthrough_end(normalizer, following);
            write_passed(normalizer, following, passed.end, output)?;
            position += passed.end;
            first = passed.next;
        }
    }
    Ok(())
}

/// Writes the form of what the units decode to, if nothing at their front is seen to stay.
pub(crate) fn write_changed<U: Units, N: Forming, O: Output<U>>(
    normalizer: &N,
    units: U,
    first: Option<Step>,
    output: &mut O,
) -> Result<(), NormalizeError>
    requires { IfSome first (λ first. first ≡ first_in U.encoding (U.units units)) }
    ensures text { WritesUnits U.encoding O.Output (N.made_form normalizer.now) (U.units units)
        output.old result output.new }
    ensures room { HasShortUnits (N.made_form normalizer.now) U.encoding (U.units units) →
        ¬ IsErrOf result NormalizeError.Memory }
{
    let mut buffer = SegmentBuffer::new(normalizer.characters().allocator());
    write_segments(normalizer, units, first, &mut buffer, output)
}

/// Writes the form of what the units decode to: runs, and the segments between them.
fn write_parts<U: Units, N: Forming, O: Output<U>>(
    normalizer: &N,
    units: U,
    output: &mut O,
) -> Result<(), NormalizeError>
    ensures text { WritesUnits U.encoding O.Output (N.made_form normalizer.now) (U.units units)
        output.old result output.new }
    ensures room { HasShortUnits (N.made_form normalizer.now) U.encoding (U.units units) →
        ¬ IsErrOf result NormalizeError.Memory }
{
    let passed = passthrough_end(normalizer, units);
    write_passed(normalizer, units, passed.end, output)?;
    if passed.end == units.len() {
        return Ok(());
    }
    let rest = units.after(passed.end);
    write_changed(normalizer, rest, passed.next, output)
}

/// Writes the form of what the units decode to. The output first receives the number of units.
pub(crate) fn form_to<U: Units, N: Forming, O: Output<U>>(
    normalizer: &N,
    units: U,
    output: &mut O,
) -> Result<(), NormalizeError>
    ensures text { WritesUnits U.encoding O.Output (N.made_form normalizer.now) (U.units units)
        output.old result output.new }
    ensures room { HasShortUnits (N.made_form normalizer.now) U.encoding (U.units units) →
        ¬ IsErrOf result NormalizeError.Memory }
    ensures first { TellsLengthFirst O.text_taken O.length_hint (length (U.units units)) output.old result output.new }
{
    output.begin(units.len())?;
    write_parts(normalizer, units, output)
}
