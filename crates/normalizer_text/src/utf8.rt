//! Decoding bytes that may not be UTF-8, with U+FFFD for ill-formed sequences (The Unicode Standard, section 3.9).
ghost use Rattle.std.specs.Prelude.{◌≡◌, ◌+◌, ◌<◌, ◌≤◌, IfSome, IsTrue};
ghost use Rattle.std.specs.Prelude.{length, option_map, slice_index, slice_index_or};
ghost use Rattle.std.specs.Str.{continuation_len};
ghost use Rattle.normalizer_passing.specs.PassBytes.{byte_of};
ghost use Rattle.normalizer_text.specs.DecodingSteps.{IsWellFormed};
ghost use Rattle.normalizer_text.specs.Utf8.{continuation, allows, row_of, matched_count, scalar_value, first_of_utf8};
ghost use Rattle.normalizer_text.specs.MaximalSubparts.{IsWellFormedSequence};
ghost use Rattle.normalizer_text.specs.Passing.{PassesBy};
ghost use Rattle.normalizer_text.specs.inner.Trails.{IsFirstSequence, LeadsFour, LeadsThree};

use crate::decoding_step::Step;
use normalizer_passing::PassBytes;

/// Bytes below this are characters by themselves.
pub(crate) const ASCII: u32 = 0x80;

/// A byte that may come after the first one of a character.
#[inline(always)]
pub(crate) fn is_continuation(byte: u8) -> bool
    ensures { result ≡ allows continuation byte }
{
    0x80 <= byte && byte <= 0xBF
}

/// The bytes that may follow a first byte: how many, and the range of the first of them; the others are of 80 to BF.
#[derive(Clone, Copy)]
struct Trail {
    length: usize,
    least: u8,
    greatest: u8,
}

impl Trail {
    ghost use Rattle.normalizer_text.specs.inner.Trails.{trail_ranges};

    /// Whether the byte may be at place n.
    #[inline(always)]
    fn allows(self, n: usize, byte: u8) -> bool
        requires { n < self.length }
        ensures { result ≡ allows (slice_index_or (trail_ranges self) n continuation) byte }
    {
        if n == 0 {
            self.least <= byte && byte <= self.greatest
        } else {
            is_continuation(byte)
        }
    }

    /// Returns the number of leading places that have a byte that may be there.
    #[inline(always)]
    fn matched(self, bytes: &[u8]) -> usize
        ensures { result ≡ matched_count (trail_ranges self) bytes.now }
    {
        let mut n = 0;
        while n < self.length && n < bytes.len() && self.allows(n, bytes[n]) {
            n += 1;
        }
        n
    }

    /// The bytes that may follow this one, if a character may begin with it: the rows of table 3-7.
    #[inline(always)]
    #[tactic(auto, unfolding(crate::specs::Utf8::row_of))]
    fn of(lead: u8) -> Option<Trail>
        ensures { option_map trail_ranges result ≡ option_map (λ r. r.trail) (row_of lead) }
    {
        let (length, least, greatest) = match lead {
            0x00..=0x7F => (0, 0x80, 0xBF),
            0xC2..=0xDF => (1, 0x80, 0xBF),
            0xE0 => (2, 0xA0, 0xBF),
            0xE1..=0xEC => (2, 0x80, 0xBF),
            0xED => (2, 0x80, 0x9F),
            0xEE..=0xEF => (2, 0x80, 0xBF),
            0xF0 => (3, 0x90, 0xBF),
            0xF1..=0xF3 => (3, 0x80, 0xBF),
            0xF4 => (3, 0x80, 0x8F),
            _ => return None,
        };
        Some(Trail {
            length,
            least,
            greatest,
        })
    }
}

/// The character of a well-formed sequence (table 3-6). Remainders keep the bits of each byte apart, so that the last
/// six of the number need no sum.
#[inline(always)]
#[tactic(auto, using(crate::proofs::sequences::SubpartLemmas::bounds_of_sequence))]
fn character_of(sequence: &[u8]) -> char
    requires { IsWellFormedSequence sequence.now }
    ensures { result ≡ scalar_value sequence.now }
{
    let code = match sequence {
        [a] => *a as u32,
        [a, b] => (*a as u32 % 32) * 64 + *b as u32 % 64,
        [a, b, c] => ((*a as u32 % 16) * 64 + *b as u32 % 64) * 64 + *c as u32 % 64,
        [a, b, c, d] => {
            (((*a as u32 % 8) * 64 + *b as u32 % 64) * 64 + *c as u32 % 64) * 64 + *d as u32 % 64
        }
        _ => unreachable!(),
    };
    // The value of a sequence of table 3-7 is that of a character.
    unsafe { char::from_u32_unchecked(code) }
}

/// How many bytes a well-formed sequence has that begins with this one.
#[inline(always)]
fn length_of_sequence(lead: u8) -> usize
    ensures { result ≡ 1 + continuation_len lead }
{
    match lead {
        0x00..=0x7F => 1,
        0x80..=0xDF => 2,
        0xE0..=0xEF => 3,
        _ => 4,
    }
}

/// The sequence that well-formed bytes begin with, which aren't empty.
#[inline(always)]
fn sequence_of_well_formed(bytes: &[u8]) -> &[u8]
    requires some { 0 < length bytes.now }
    requires well_formed { IsWellFormed first_of_utf8 bytes.now }
    ensures { IsFirstSequence bytes.now result.now }
{
    &bytes[..length_of_sequence(bytes[0])]
}

/// The first step of well-formed bytes that aren't empty.
#[inline(always)]
pub(crate) fn first_step_of_well_formed(bytes: &[u8]) -> Step
    requires some { 0 < length bytes.now }
    requires well_formed { IsWellFormed first_of_utf8 bytes.now }
    ensures { result ≡ first_of_utf8 bytes.now }
{
    let sequence = sequence_of_well_formed(bytes);
    Step::read(character_of(sequence), sequence.len())
}

/// The byte and the width of the first character of well-formed bytes that aren't empty.
#[inline(always)]
pub(crate) fn byte_of_well_formed(text: &[u8], bytes: &PassBytes) -> (u8, usize)
    requires some { 0 < length text.now }
    requires well_formed { IsWellFormed first_of_utf8 text.now }
    ensures { PassesBy bytes.now (first_of_utf8 text.now) result.0 result.1 }
{
    let sequence = sequence_of_well_formed(text);
    (byte_of_sequence(sequence, bytes), sequence.len())
}

/// The byte of the character of a well-formed sequence: it is found without the character.
#[inline(always)]
#[tactic(auto, using(crate::proofs::sequences::SubpartLemmas::bounds_of_sequence))]
fn byte_of_sequence(sequence: &[u8], bytes: &PassBytes) -> u8
    requires { IsWellFormedSequence sequence.now }
    ensures { result ≡ byte_of bytes.now (scalar_value sequence.now) }
{
    match sequence {
        [a] => bytes.at((*a / 64) as usize, (*a % 64) as usize),
        [a, b] => bytes.at((*a - 0xC0) as usize, (*b % 64) as usize),
        [a, b, c] => {
            let block = (*a as usize - 0xE0) * 64 + (*b as usize - 0x80);
            bytes.at(block, (*c % 64) as usize)
        }
        [a, b, c, d] => {
            let block = ((*a as usize - 0xF0) * 64 + (*b as usize - 0x80)) * 64
                + (*c as usize - 0x80);
            bytes.at(block, (*d % 64) as usize)
        }
        _ => unreachable!(),
    }
}

/// The well-formed sequence that bytes begin with, if there is one. Its length is a constant where it is used, so that
/// few tests are left.
#[inline(always)]
fn first_sequence(bytes: &[u8]) -> Option<&[u8]>
    requires { 0 < length bytes.now }
    ensures { IfSome result (λ sequence. IsFirstSequence bytes.now sequence.now) }
{
    let lead = bytes[0];
    if lead < 0x80 {
        first_sequence_of::<1>(bytes)
    } else if lead < 0xE0 {
        first_sequence_of::<2>(bytes)
    } else if lead < 0xF0 {
        first_sequence_of::<3>(bytes)
    } else {
        first_sequence_of::<4>(bytes)
    }
}

/// The sequence, if it has N bytes.
#[inline(always)]
fn first_sequence_of<const N: usize>(bytes: &[u8]) -> Option<&[u8]>
    ensures { IfSome result (λ sequence. IsFirstSequence bytes.now sequence.now) }
{
    if bytes.len() < N {
        return None;
    }
    let sequence = &bytes[..N];
    if is_sequence(sequence) {
        Some(sequence)
    } else {
        None
    }
}

/// Whether bytes are a well-formed sequence.
#[inline(always)]
fn is_sequence(bytes: &[u8]) -> bool
    ensures { IsTrue result → IsWellFormedSequence bytes.now }
{
    match bytes {
        [a] => *a <= 0x7F,
        [a, b] => leads_two(*a) && is_continuation(*b),
        [a, b, c] => leads_three(*a, *b) && is_continuation(*c),
        [a, b, c, d] => leads_four(*a, *b) && is_continuation(*c) && is_continuation(*d),
        _ => false,
    }
}

/// Whether a byte begins a sequence of two.
#[inline(always)]
fn leads_two(lead: u8) -> bool
    ensures { IsTrue result → (0xC2 ≤ lead) × (lead ≤ 0xDF) }
{
    0xC2 <= lead && lead <= 0xDF
}

/// Whether two bytes begin a sequence of three.
#[inline(always)]
fn leads_three(lead: u8, second: u8) -> bool
    ensures { IsTrue result → LeadsThree lead second }
{
    match lead {
        0xE1..=0xEC => is_continuation(second),
        0xEE..=0xEF => is_continuation(second),
        0xE0 => 0xA0 <= second && second <= 0xBF,
        0xED => 0x80 <= second && second <= 0x9F,
        _ => false,
    }
}

/// Whether two bytes begin a sequence of four.
#[inline(always)]
fn leads_four(lead: u8, second: u8) -> bool
    ensures { IsTrue result → LeadsFour lead second }
{
    match lead {
        0xF0 => 0x90 <= second && second <= 0xBF,
        0xF1..=0xF3 => is_continuation(second),
        0xF4 => 0x80 <= second && second <= 0x8F,
        _ => false,
    }
}

/// The first step of bytes that aren't empty.
#[inline(always)]
pub(crate) fn first_step(bytes: &[u8]) -> Step
    requires { 0 < length bytes.now }
    ensures { result ≡ first_of_utf8 bytes.now }
{
    match first_sequence(bytes) {
        Some(sequence) => Step::read(character_of(sequence), sequence.len()),
        None => first_step_of_more(bytes),
    }
}

/// The byte and the width of the first character of bytes that aren't empty: 0 if it is ill-formed.
#[inline(always)]
pub(crate) fn byte_of_first(text: &[u8], bytes: &PassBytes) -> (u8, usize)
    requires { 0 < length text.now }
    ensures { PassesBy bytes.now (first_of_utf8 text.now) result.0 result.1 }
{
    match first_sequence(text) {
        Some(sequence) => (byte_of_sequence(sequence, bytes), sequence.len()),
        None => (0, 1),
    }
}

/// Returns the first step if the first byte is no character by itself. It is inlined, though it is long: a step that a
/// call returns goes through memory.
#[inline(always)]
fn first_step_of_more(bytes: &[u8]) -> Step
    requires { 0 < length bytes.now }
    ensures { result ≡ first_of_utf8 bytes.now }
{
    let Some(trail) = Trail::of(bytes[0]) else {
        return Step::replaced(1);
    };
    let width = 1 + trail.matched(&bytes[1..]);
    if width <= trail.length {
        return Step::replaced(width);
    }
    Step::read(character_of(&bytes[..width]), width)
}

/// Returns well-formed bytes as a text.
#[inline(always)]
pub fn text_of(bytes: &[u8]) -> &str
    requires { IsWellFormed first_of_utf8 bytes.now }
    ensures { result.now ≡ bytes.now }
{
    // What is well-formed here is what std takes for UTF-8 (`laws::utf8_is_well_formed_as_in_std`).
    unsafe { str::from_utf8_unchecked(bytes) }
}
