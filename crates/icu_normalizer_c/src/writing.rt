//! Writing forms to the buffers of callers.
ghost use Rattle.std.specs.Prelude.{◌≡◌, ℕ, List};
ghost use Rattle.std.specs.Iterator.{IsFinite};
ghost use Rattle.icu_normalizer.specs.Encodings.{Encoding};
ghost use Rattle.icu_normalizer.specs.EncodedForm.{encoded_form};
ghost use Rattle.icu_normalizer.specs.Forms.{form_of, HasShortUnits};
ghost use Rattle.icu_normalizer.specs.Items.{SpellsOk, SpellsUnless};
ghost use Rattle.icu_normalizer.specs.Utf32.{decoded_utf32};
ghost use Rattle.icu_normalizer_c.specs.Buffers.{LeavesBeginning, Overwrites, ReportsCount};
ghost use Rattle.icu_normalizer_c.specs.Calls.{AtForm, HasShortUtf32, NeedsNoMemory, NeedsNoMemoryUtf32, Over};
ghost use Rattle.icu_normalizer_c.specs.Calls.{WritesForm, WritesFormUtf32};
ghost use Rattle.normalizer_handles.specs.Handles.{held_normalizers};
ghost use Rattle.normalizer_handles.specs.Status.{IsStatus};
ghost use Rattle.icu_normalizer.specs.AnyNormalizers.{made_by_borrowed};

use crate::sink::Buffer;
use crate::text::{Text, write};
use icu_normalizer::{AnyNormalizerBorrowed, NormalizeError, Utf32Chars};
use normalizer_handles::{Fault, Handle, Normalizers};
use std::alloc::Global;

/// The form of an input, by the number of the form.
#[derive(Drop)]
struct Form<U> {
    form: u32,
    input: U,
}

impl<'a> Text for Form<&'a [u8]> {
    type Unit = u8;

    ghost left = { LeavesBeginning };

    ghost at = { λ t Unchanged Is n.
        AtForm n t.form Unchanged (λ m.
        Is (NeedsNoMemory Encoding.Utf8 t.input.now m) (encoded_form Encoding.Utf8 m.reading m.form t.input.now)) };

    fn write(
        &self,
        _alloc: Global,
        normalizers: &Normalizers,
        output: &mut [u8],
        needed: &mut usize,
    ) -> Result<(), Fault> {
        let normalizer = normalizers.numbered(self.form)?;
        write_utf8(&normalizer, self.input, output, needed)
    }
}

impl<'a> Text for Form<&'a [u16]> {
    type Unit = u16;

    ghost left = { LeavesBeginning };

    ghost at = { λ t Unchanged Is n.
        AtForm n t.form Unchanged (λ m.
        Is (NeedsNoMemory Encoding.Utf16 t.input.now m) (encoded_form Encoding.Utf16 m.reading m.form t.input.now)) };

    fn write(
        &self,
        _alloc: Global,
        normalizers: &Normalizers,
        output: &mut [u16],
        needed: &mut usize,
    ) -> Result<(), Fault> {
        let normalizer = normalizers.numbered(self.form)?;
        write_utf16(&normalizer, self.input, output, needed)
    }
}

impl<'a> Text for Form<&'a [u32]> {
    type Unit = u32;

    ghost left = { LeavesBeginning };

    ghost at = { λ t Unchanged Is n.
        AtForm n t.form Unchanged (λ m.
        Is (NeedsNoMemoryUtf32 t.input.now m) (form_of m (decoded_utf32 t.input.now))) };

    fn write(
        &self,
        _alloc: Global,
        normalizers: &Normalizers,
        output: &mut [u32],
        needed: &mut usize,
    ) -> Result<(), Fault> {
        let normalizer = normalizers.numbered(self.form)?;
        write_utf32(&normalizer, self.input, output, needed)
    }
}

fn write_utf8(
    normalizer: &AnyNormalizerBorrowed<'_>,
    input: &[u8],
    output: &mut [u8],
    needed: &mut usize,
) -> Result<(), Fault>
    ensures { WritesForm Encoding.Utf8 input.now output.old output.new needed.old needed.new
        (made_by_borrowed normalizer.now) result }
{
    let room = output.len();
    let count = overwrite_utf8(normalizer, input, output)?;
    report_count(count, room, needed)
}

fn write_utf16(
    normalizer: &AnyNormalizerBorrowed<'_>,
    input: &[u16],
    output: &mut [u16],
    needed: &mut usize,
) -> Result<(), Fault>
    ensures { WritesForm Encoding.Utf16 input.now output.old output.new needed.old needed.new
        (made_by_borrowed normalizer.now) result }
{
    let room = output.len();
    let count = overwrite_utf16(normalizer, input, output)?;
    report_count(count, room, needed)
}

fn write_utf32(
    normalizer: &AnyNormalizerBorrowed<'_>,
    input: &[u32],
    output: &mut [u32],
    needed: &mut usize,
) -> Result<(), Fault>
    ensures { WritesFormUtf32 input.now output.old output.new needed.old needed.new
        (made_by_borrowed normalizer.now) result }
{
    let room = output.len();
    let count = overwrite_utf32(normalizer, input, output)?;
    report_count(count, room, needed)
}

/// Reports how many units a form has that was written to a buffer with room for so many. With `usize::MAX` units, or
/// more, it doesn't fit into memory.
fn report_count(count: usize, room: usize, needed: &mut usize) -> Result<(), Fault>
    ensures { ReportsCount count room needed.old needed.new result }
{
    if count == usize::MAX {
        return Err(Fault::Memory);
    }
    *needed = count;
    if count > room {
        return Err(Fault::BufferTooSmall);
    }
    Ok(())
}

/// Overwrites the beginning of a buffer with the form, as far as there is room, and returns how many units that has, or
/// `usize::MAX` if it has more.
fn overwrite_utf8(
    normalizer: &AnyNormalizerBorrowed<'_>,
    input: &[u8],
    output: &mut [u8],
) -> Result<usize, NormalizeError>
    ensures { let m = made_by_borrowed normalizer.now in let e = Encoding.Utf8 in
        Overwrites (encoded_form e m.reading m.form input.now) (HasShortUnits m e input.now)
        output.old output.new result }
{
    let mut buffer = Buffer::new(output);
    let outcome = normalizer.normalize_utf8_to(input, &mut buffer);
    let count = buffer.count();
    outcome?;
    Ok(count)
}

/// Overwrites the beginning of a buffer with the form, as far as there is room, and returns how many units that has, or
/// `usize::MAX` if it has more.
fn overwrite_utf16(
    normalizer: &AnyNormalizerBorrowed<'_>,
    input: &[u16],
    output: &mut [u16],
) -> Result<usize, NormalizeError>
    ensures { let m = made_by_borrowed normalizer.now in let e = Encoding.Utf16 in
        Overwrites (encoded_form e m.reading m.form input.now) (HasShortUnits m e input.now)
        output.old output.new result }
{
    let mut buffer = Buffer::new(output);
    let outcome = normalizer.normalize_utf16_to(input, &mut buffer);
    let count = buffer.count();
    outcome?;
    Ok(count)
}

/// Overwrites the beginning of a buffer with the form, as far as there is room, and returns how many units that has, or
/// `usize::MAX` if it has more.
fn overwrite_utf32(
    normalizer: &AnyNormalizerBorrowed<'_>,
    input: &[u32],
    output: &mut [u32],
) -> Result<usize, NormalizeError>
    ensures { let m = made_by_borrowed normalizer.now in
        Overwrites (form_of m (decoded_utf32 input.now)) (HasShortUtf32 input.now m) output.old output.new result }
{
    let characters = Utf32Chars::new(input);
    match normalizer {
        AnyNormalizerBorrowed::Decomposing(n) => overwrite_items(
            n.normalize_iter(characters)?,
            output,
        ),
        AnyNormalizerBorrowed::Composing(n) => overwrite_items(
            n.normalize_iter(characters)?,
            output,
        ),
    }
}

/// Overwrites the beginning of a buffer with the characters that an iterator yields, as far as there is room, and returns
/// how many there are, or `usize::MAX` if there are more.
fn overwrite_items<I>(items: I, output: &mut [u32]) -> Result<usize, NormalizeError>
where
    I: Iterator<Item = Result<char, NormalizeError>> + Drop,
    requires can { I.can_next items }
    requires ends { IsFinite (I.remaining items) }
    ensures { (x : List ℕ) → SpellsUnless I.next_gives NormalizeError.Memory items x →
        Overwrites x (SpellsOk I.next_gives items x) output.old output.new result }
{
    let mut buffer = Buffer::new(output);
    for item in items {
        buffer.take_in_utf32(item?);
    }
    Ok(buffer.count())
}

/// Writes the form of what `input` decodes to, in UTF-8. `needed` is then how many units the form has.
///
/// # Errors
/// `NotOpen`, `UnknownForm`, `Memory`, which never comes over short runs, or `BufferTooSmall`, after which
/// `needed` is how many units the form has. After the last two the beginning of `output` has a beginning of the form.
#[unsafe(no_mangle)]
pub extern "C" fn icu_normalizer_normalize_utf8_nonnull(
    alloc: Global,
    handle: &mut Handle,
    form: u32,
    input: &[u8],
    output: &mut [u8],
    needed: &mut usize,
) -> u32
    ensures status { IsStatus result (Over (held_normalizers handle.old) form
        ((output.new ≡ output.old) × (needed.new ≡ needed.old))
        (WritesForm Encoding.Utf8 input.now output.old output.new needed.old needed.new)) }
    ensures kept { held_normalizers handle.new ≡ held_normalizers handle.old }
{
    write(alloc, handle, &Form { form, input }, output, needed)
}

/// Writes the form of what `input` decodes to, in UTF-16. `needed` is then how many units the form has.
///
/// # Errors
/// `NotOpen`, `UnknownForm`, `Memory`, which never comes over short runs, or `BufferTooSmall`, after which
/// `needed` is how many units the form has. After the last two the beginning of `output` has a beginning of the form.
#[unsafe(no_mangle)]
pub extern "C" fn icu_normalizer_normalize_utf16_nonnull(
    alloc: Global,
    handle: &mut Handle,
    form: u32,
    input: &[u16],
    output: &mut [u16],
    needed: &mut usize,
) -> u32
    ensures status { IsStatus result (Over (held_normalizers handle.old) form
        ((output.new ≡ output.old) × (needed.new ≡ needed.old))
        (WritesForm Encoding.Utf16 input.now output.old output.new needed.old needed.new)) }
    ensures kept { held_normalizers handle.new ≡ held_normalizers handle.old }
{
    write(alloc, handle, &Form { form, input }, output, needed)
}

/// Writes the form of what `input` decodes to, in UTF-32. A unit that isn't a Unicode scalar value reads as U+FFFD.
/// `needed` is then how many units the form has.
///
/// # Errors
/// `NotOpen`, `UnknownForm`, `Memory`, which never comes over short runs, or `BufferTooSmall`, after which
/// `needed` is how many units the form has. After the last two the beginning of `output` has a beginning of the form.
#[unsafe(no_mangle)]
pub extern "C" fn icu_normalizer_normalize_utf32_nonnull(
    alloc: Global,
    handle: &mut Handle,
    form: u32,
    input: &[u32],
    output: &mut [u32],
    needed: &mut usize,
) -> u32
    ensures status { IsStatus result (Over (held_normalizers handle.old) form
        ((output.new ≡ output.old) × (needed.new ≡ needed.old))
        (WritesFormUtf32 input.now output.old output.new needed.old needed.new)) }
    ensures kept { held_normalizers handle.new ≡ held_normalizers handle.old }
{
    write(alloc, handle, &Form { form, input }, output, needed)
}
