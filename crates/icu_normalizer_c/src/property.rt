//! Properties of characters, boundaries before them, and the version of Unicode.
ghost use Rattle.std.specs.Prelude.{◌≡◌, ⊤, Result};
ghost use Rattle.icu_normalizer.specs.Utf32.{decoded_unit};
ghost use Rattle.icu_normalizer_c.specs.Calls.{AtForm, Over, OverHeld, Tells};
ghost use Rattle.icu_normalizer_c.specs.Characters.{
  composite_or_none,
  number_of_version,
  parts_of,
  IsBoundary,
  IsStep,
};
ghost use Rattle.normalizer_handles.specs.Handles.{held_normalizers};
ghost use Rattle.normalizer_handles.specs.Properties.{class_in};
ghost use Rattle.normalizer_handles.specs.Status.{IsStatus};
ghost use Rattle.normalizer_handles.specs.declared.fault.Fault.{Fault};
ghost use Rattle.normalizer_handles.specs.declared.normalizers.Normalizers.{Normalizers};

use icu_normalizer::properties::Decomposed;
use normalizer_handles::{Fault, Handle, Normalizers, Version, status};
use std::alloc::Global;

/// The number after the last code point, in place of a character.
const NO_CHARACTER: u32 = 0x11_0000;

/// What is looked up in normalizers.
trait LookUp {
    type Answer: Copy;

    /// How a call ends that reports the answer in place of what was there.
    ghost reports: { Self → Normalizers → Self.Answer → Self.Answer → Result ⊤ Fault → Type 0 };

    fn report(&self, normalizers: &Normalizers, reported: &mut Self::Answer) -> Result<(), Fault>
        ensures { reports self.now normalizers.now reported.old reported.new result };
}

/// Reports what is looked up in the normalizers of a handle, and returns the status.
fn report<L: LookUp>(
    alloc: Global,
    handle: &mut Handle,
    look_up: &L,
    reported: &mut L::Answer,
) -> u32
    ensures status { IsStatus result (OverHeld (held_normalizers handle.old) (reported.new ≡ reported.old) (λ n.
        L.reports look_up.now n reported.old reported.new)) }
    ensures kept { held_normalizers handle.new ≡ held_normalizers handle.old }
{
    status(report_over(alloc, handle, look_up, reported))
}

fn report_over<L: LookUp>(
    alloc: Global,
    handle: &mut Handle,
    look_up: &L,
    reported: &mut L::Answer,
) -> Result<(), Fault>
    ensures over { OverHeld (held_normalizers handle.old) (reported.new ≡ reported.old) (λ n.
        L.reports look_up.now n reported.old reported.new) result }
    ensures kept { held_normalizers handle.new ≡ held_normalizers handle.old }
{
    let owner = handle.take(alloc)?;
    let outcome = look_up.report(&owner.normalizers, reported);
    handle.put(owner);
    outcome
}

/// The character of a number, or U+FFFD if it is no scalar value.
fn character(number: u32) -> char
    ensures { result ≡ decoded_unit number }
{
    char::from_u32(number).unwrap_or(char::REPLACEMENT_CHARACTER)
}

/// The canonical combining class of a number.
#[derive(Drop)]
struct Class(u32);

impl LookUp for Class {
    type Answer = u8;

    ghost reports = { λ l n before after. Tells (after ≡ class_in n.properties l.0) };

    fn report(&self, normalizers: &Normalizers, reported: &mut u8) -> Result<(), Fault> {
        *reported = normalizers.properties.class(self.0);
        Ok(())
    }
}

/// What two characters compose to.
#[derive(Drop)]
struct Composite(char, char);

impl LookUp for Composite {
    type Answer = u32;

    ghost reports = { λ l n before after. Tells (after ≡ composite_or_none n.properties l.0 l.1) };

    fn report(&self, normalizers: &Normalizers, reported: &mut u32) -> Result<(), Fault> {
        *reported = match normalizers.properties.composite(self.0, self.1) {
            Some(composite) => composite as u32,
            None => NO_CHARACTER,
        };
        Ok(())
    }
}

/// One step of the canonical decomposition of a character.
#[derive(Drop)]
struct Step(char);

impl LookUp for Step {
    type Answer = (u32, u32);

    ghost reports = { λ l n before after. Tells (IsStep n.properties l.0 after) };

    fn report(&self, normalizers: &Normalizers, reported: &mut (u32, u32)) -> Result<(), Fault> {
        *reported = parts_of(normalizers.properties.step(self.0));
        Ok(())
    }
}

/// The characters of a step.
fn parts_of(step: Decomposed) -> (u32, u32)
    ensures { result ≡ parts_of step }
{
    match step {
        Decomposed::Default => (NO_CHARACTER, NO_CHARACTER),
        Decomposed::Singleton(first) => (first as u32, NO_CHARACTER),
        Decomposed::Expansion(first, second) => (first as u32, second as u32),
    }
}

/// The version of Unicode that the data state.
#[derive(Drop)]
struct Stated;

impl LookUp for Stated {
    type Answer = u32;

    ghost reports = { λ l n before after. Tells (after ≡ number_of_version n.version) };

    fn report(&self, normalizers: &Normalizers, reported: &mut u32) -> Result<(), Fault> {
        *reported = number_of_version(normalizers.version);
        Ok(())
    }
}

/// A version as one number, or 0 if one of its numbers doesn't fit.
fn number_of_version(version: Version) -> u32
    ensures { result ≡ number_of_version version }
{
    let (major, minor, update) = version;
    if major < 256 && minor < 256 && update < 256 {
        0x1_0000 * major + 0x100 * minor + update
    } else {
        0
    }
}

/// Whether a text may be divided before a character.
#[derive(Drop)]
struct Boundary {
    form: u32,
    character: char,
}

impl LookUp for Boundary {
    type Answer = bool;

    ghost reports = { λ l n before after. AtForm n l.form (after ≡ before) (λ m.
        Tells (IsBoundary m l.character after)) };

    fn report(&self, normalizers: &Normalizers, reported: &mut bool) -> Result<(), Fault> {
        let normalizer = normalizers.numbered(self.form)?;
        *reported = normalizer.has_boundary_before(self.character);
        Ok(())
    }
}

/// Reports the canonical combining class of a number: 0 of a starter, and of what is no scalar value.
///
/// # Errors
/// `NotOpen`. `reported` is then unchanged.
#[unsafe(no_mangle)]
pub extern "C" fn icu_normalizer_combining_class_nonnull(
    alloc: Global,
    handle: &mut Handle,
    number: u32,
    reported: &mut u8,
) -> u32
    ensures status { IsStatus result (OverHeld (held_normalizers handle.old) (reported.new ≡ reported.old) (λ n.
        Tells (reported.new ≡ class_in n.properties number))) }
    ensures kept { held_normalizers handle.new ≡ held_normalizers handle.old }
{
    report(alloc, handle, &Class(number), reported)
}

/// Reports what two characters compose to, or 0x110000. A number that isn't a scalar value reads as U+FFFD.
///
/// # Errors
/// `NotOpen`. `reported` is then unchanged.
#[unsafe(no_mangle)]
pub extern "C" fn icu_normalizer_compose_nonnull(
    alloc: Global,
    handle: &mut Handle,
    first: u32,
    second: u32,
    reported: &mut u32,
) -> u32
    ensures status { IsStatus result (OverHeld (held_normalizers handle.old) (reported.new ≡ reported.old) (λ n.
        Tells (reported.new ≡ composite_or_none n.properties (decoded_unit first) (decoded_unit second)))) }
    ensures kept { held_normalizers handle.new ≡ held_normalizers handle.old }
{
    let pair = Composite(character(first), character(second));
    report(alloc, handle, &pair, reported)
}

/// Reports the canonical mapping of a character, one or two characters, with 0x110000 in place of each that it doesn't
/// have. A number that isn't a scalar value reads as U+FFFD.
///
/// # Errors
/// `NotOpen`. `first` and `second` are then unchanged.
#[unsafe(no_mangle)]
pub extern "C" fn icu_normalizer_decompose_nonnull(
    alloc: Global,
    handle: &mut Handle,
    number: u32,
    first: &mut u32,
    second: &mut u32,
) -> u32
    ensures status { IsStatus result (OverHeld (held_normalizers handle.old)
        ((first.new ≡ first.old) × (second.new ≡ second.old)) (λ n.
        Tells (IsStep n.properties (decoded_unit number) (first.new, second.new)))) }
    ensures kept { held_normalizers handle.new ≡ held_normalizers handle.old }
{
    let mut parts = (*first, *second);
    let status = report(alloc, handle, &Step(character(number)), &mut parts);
    *first = parts.0;
    *second = parts.1;
    status
}

/// Reports whether a text may be divided before a character: its form is then that of what comes before, followed by
/// that of the rest. A number that isn't a scalar value reads as U+FFFD.
///
/// # Errors
/// `NotOpen` or `UnknownForm`. `reported` is then unchanged.
#[unsafe(no_mangle)]
pub extern "C" fn icu_normalizer_has_boundary_before_nonnull(
    alloc: Global,
    handle: &mut Handle,
    form: u32,
    number: u32,
    reported: &mut bool,
) -> u32
    ensures status { IsStatus result (Over (held_normalizers handle.old) form (reported.new ≡ reported.old) (λ m.
        Tells (IsBoundary m (decoded_unit number) reported.new))) }
    ensures kept { held_normalizers handle.new ≡ held_normalizers handle.old }
{
    let character = character(number);
    report(alloc, handle, &Boundary { form, character }, reported)
}

/// Reports the version of Unicode that the data state, 0x120000 for 18.0.0, or 0 if they state none or one with a
/// number above 255.
///
/// # Errors
/// `NotOpen`. `reported` is then unchanged.
#[unsafe(no_mangle)]
pub extern "C" fn icu_normalizer_unicode_version_nonnull(
    alloc: Global,
    handle: &mut Handle,
    reported: &mut u32,
) -> u32
    ensures status { IsStatus result (OverHeld (held_normalizers handle.old) (reported.new ≡ reported.old) (λ n.
        Tells (reported.new ≡ number_of_version n.version))) }
    ensures kept { held_normalizers handle.new ≡ held_normalizers handle.old }
{
    report(alloc, handle, &Stated, reported)
}
