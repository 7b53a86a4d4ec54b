//! Mapping and validating text by Unicode Technical Standard #46.
ghost use Rattle.std.specs.Prelude.{◌≡◌, IfOk, encode_utf8_all, string_bytes};
ghost use Rattle.icu_normalizer.specs.Mappers.{mapper_data_of_borrowed};
ghost use Rattle.icu_normalizer.specs.Encodings.{Encoding, decoded_in, encoded_in};
ghost use Rattle.icu_normalizer.specs.Utf16.{encode_utf16_all};
ghost use Rattle.icu_normalizer.specs.Mapping.{mapped_in};
ghost use Rattle.icu_normalizer_c.specs.Buffers.{LeavesAll};
ghost use Rattle.icu_normalizer_c.specs.Calls.{treatment, AtMapper, OverMapper, WritesMapped};
ghost use Rattle.normalizer_handles.specs.Handles.{held_normalizers};
ghost use Rattle.normalizer_handles.specs.Status.{IsStatus};

use crate::buffer::fill;
use crate::text::{Text, write};
use icu_normalizer::uts46::Uts46MapperBorrowed;
use icu_normalizer::{Chars, IgnoredCharacters, mapped};
use normalizer_handles::{Fault, Handle, Normalizers};
use std::alloc::{AllocError, Global};

/// What an input is mapped to.
#[derive(Drop)]
struct Mapped<U> {
    ignored: IgnoredCharacters,
    input: U,
}

impl<'a> Text for Mapped<&'a [u8]> {
    type Unit = u8;

    ghost left = { LeavesAll };

    ghost at = { λ t Unchanged Is n. AtMapper n.mapper Unchanged (λ h.
        Is ⊥ (encoded_in Encoding.Utf8 (mapped_in h t.ignored (decoded_in Encoding.Utf8 t.input.now)))) };

    fn write(
        &self,
        alloc: Global,
        normalizers: &Normalizers,
        output: &mut [u8],
        needed: &mut usize,
    ) -> Result<(), Fault> {
        let Some(mapper) = &normalizers.mapper else {
            return Err(Fault::NoMapper);
        };
        let mapper = mapper.as_borrowed();
        write_utf8(alloc, &mapper, self.ignored, self.input, output, needed)
    }
}

impl<'a> Text for Mapped<&'a [u16]> {
    type Unit = u16;

    ghost left = { LeavesAll };

    ghost at = { λ t Unchanged Is n. AtMapper n.mapper Unchanged (λ h.
        Is ⊥ (encoded_in Encoding.Utf16 (mapped_in h t.ignored (decoded_in Encoding.Utf16 t.input.now)))) };

    fn write(
        &self,
        alloc: Global,
        normalizers: &Normalizers,
        output: &mut [u16],
        needed: &mut usize,
    ) -> Result<(), Fault> {
        let Some(mapper) = &normalizers.mapper else {
            return Err(Fault::NoMapper);
        };
        let mapper = mapper.as_borrowed();
        write_utf16(alloc, &mapper, self.ignored, self.input, output, needed)
    }
}

/// What is done with ignored characters.
fn treatment(are_replaced: bool) -> IgnoredCharacters
    ensures { result ≡ treatment are_replaced }
{
    if are_replaced {
        IgnoredCharacters::Replaced
    } else {
        IgnoredCharacters::Dropped
    }
}

/// Writes what `input` decodes to, mapped and in NFC, in UTF-8. Disallowed characters become U+FFFD, and ignored ones
/// too if `are_replaced`; if not, they are dropped. `needed` is then how many units there are. Mapped text is valid only
/// if this leaves it unchanged with `are_replaced`.
///
/// # Errors
/// `NotOpen`, `NoMapper`, `Memory`, or `BufferTooSmall`, after which `needed` is how many units there are. `output` is
/// then unchanged.
#[unsafe(no_mangle)]
pub extern "C" fn icu_normalizer_map_utf8_nonnull(
    alloc: Global,
    handle: &mut Handle,
    are_replaced: bool,
    input: &[u8],
    output: &mut [u8],
    needed: &mut usize,
) -> u32
    ensures status { IsStatus result (OverMapper (held_normalizers handle.old)
        ((output.new ≡ output.old) × (needed.new ≡ needed.old))
        (WritesMapped Encoding.Utf8 (treatment are_replaced) input.now output.old output.new needed.old needed.new)) }
    ensures kept { held_normalizers handle.new ≡ held_normalizers handle.old }
{
    let ignored = treatment(are_replaced);
    write(alloc, handle, &Mapped { ignored, input }, output, needed)
}

/// Writes what `input` decodes to, mapped and in NFC, in UTF-16. Disallowed characters become U+FFFD, and ignored ones
/// too if `are_replaced`; if not, they are dropped. `needed` is then how many units there are. Mapped text is valid only
/// if this leaves it unchanged with `are_replaced`.
///
/// # Errors
/// `NotOpen`, `NoMapper`, `Memory`, or `BufferTooSmall`, after which `needed` is how many units there are. `output` is
/// then unchanged.
#[unsafe(no_mangle)]
pub extern "C" fn icu_normalizer_map_utf16_nonnull(
    alloc: Global,
    handle: &mut Handle,
    are_replaced: bool,
    input: &[u16],
    output: &mut [u16],
    needed: &mut usize,
) -> u32
    ensures status { IsStatus result (OverMapper (held_normalizers handle.old)
        ((output.new ≡ output.old) × (needed.new ≡ needed.old))
        (WritesMapped Encoding.Utf16 (treatment are_replaced) input.now output.old output.new needed.old needed.new)) }
    ensures kept { held_normalizers handle.new ≡ held_normalizers handle.old }
{
    let ignored = treatment(are_replaced);
    write(alloc, handle, &Mapped { ignored, input }, output, needed)
}

fn write_utf8(
    alloc: Global,
    mapper: &Uts46MapperBorrowed<'_>,
    ignored: IgnoredCharacters,
    input: &[u8],
    output: &mut [u8],
    needed: &mut usize,
) -> Result<(), Fault>
    ensures { WritesMapped Encoding.Utf8 ignored input.now output.old output.new needed.old needed.new
        (mapper_data_of_borrowed mapper.now) result }
{
    let characters = mapped(alloc, mapper, ignored, Chars::new(input))?;
    let encoded = encoded_utf8(alloc, &characters)?;
    fill(encoded.as_bytes(), output, needed)
}

fn write_utf16(
    alloc: Global,
    mapper: &Uts46MapperBorrowed<'_>,
    ignored: IgnoredCharacters,
    input: &[u16],
    output: &mut [u16],
    needed: &mut usize,
) -> Result<(), Fault>
    ensures { WritesMapped Encoding.Utf16 ignored input.now output.old output.new needed.old needed.new
        (mapper_data_of_borrowed mapper.now) result }
{
    let characters = mapped(alloc, mapper, ignored, Chars::new(input))?;
    let encoded = encoded_utf16(alloc, &characters)?;
    fill(encoded.as_slice(), output, needed)
}

fn encoded_utf8(alloc: Global, characters: &[char]) -> Result<String, AllocError>
    ensures { IfOk result (λ text. string_bytes text ≡ encode_utf8_all characters.now) }
{
    characters.iter().copied().collect(alloc)
}

fn encoded_utf16(alloc: Global, characters: &[char]) -> Result<Vec<u16>, AllocError>
    ensures { IfOk result (λ units. units.items ≡ encode_utf16_all characters.now) }
{
    let mut units = Vec::new(alloc);
    for c in characters {
        let mut buffer = [0; 2];
        units.extend_from_slice(c.encode_utf16(&mut buffer))?;
    }
    Ok(units)
}
