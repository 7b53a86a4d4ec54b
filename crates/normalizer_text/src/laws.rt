//! The laws of decoding, as contracts of functions that do nothing. Each holds for every list of numbers, and for each
//! encoding unless it names one.
ghost use Rattle.std.specs.Prelude.{◌≡◌, ◌↔◌, ℕ, ◌<◌, ◌≤◌, ◌^◌, ◌-◌, ◌*◌, List, [], ◌++◌, length, take, drop, All};
ghost use Rattle.std.specs.Prelude.{true, false, ◌∷◌, map, slice_index, encode_utf8_all};
ghost use Rattle.std.specs.List.{slice_range};
ghost use Rattle.std.specs.Char.Utf16.{utf16_lossy_chars};
ghost use Rattle.std.specs.Str.{IsUtf8, IsCharBoundary, chars};
ghost use Rattle.std.specs.Str.Lossy.{utf8_lossy};
ghost use Rattle.normal_forms.specs.Reading.{IsText};
ghost use Rattle.normalizer_text.specs.declared.decoding_step.Step.{Step};
ghost use Rattle.normalizer_text.specs.Encodings.{Encoding, first_in, encoded_in, decoded_in, trails_in};
ghost use Rattle.normalizer_text.specs.Scans.{leading_below};
ghost use Rattle.normalizer_text.specs.DecodingSteps.{read, steps, width_of};
ghost use Rattle.normalizer_text.specs.DecodingSteps.{Decodes, IsBoundary, IsWellFormed, TakenFrom};
ghost use Rattle.normalizer_text.specs.Utf8.{first_of_utf8, decoded_utf8};
ghost use Rattle.normalizer_text.specs.MaximalSubparts.{IsStepOfUtf8};
ghost use Rattle.normalizer_text.specs.Utf16.{first_of_utf16, decoded_utf16};

pub mod inputs;

/// The steps of units are the first step and the steps of the units after it.
pub fn steps_follow_one_another()
    ensures none { (e : Encoding) → steps (first_in e) [] ≡ [] }
    ensures some { (e : Encoding) (units : List ℕ) → 0 < length units →
        steps (first_in e) units ≡ first_in e units ∷ steps (first_in e) (drop (first_in e units).width units) }
{}

/// Units decode to exactly one text, whose characters are scalar values, by steps that take all of the units.
pub fn decodes_to_one_text()
    ensures one { (e : Encoding) (units x : List ℕ) → Decodes (first_in e) units x ↔ (x ≡ decoded_in e units) }
    ensures text { (e : Encoding) (units : List ℕ) → IsText (decoded_in e units) }
    ensures all { (e : Encoding) (units : List ℕ) → width_of (steps (first_in e) units) ≡ length units }
{}

/// Units that are well-formed decode apart from those after them, whatever these are, and a step ends with them.
pub fn decodes_apart_after_well_formed()
    ensures text { (e : Encoding) (front rest : List ℕ) → IsWellFormed (first_in e) front →
        decoded_in e (front ++ rest) ≡ decoded_in e front ++ decoded_in e rest }
    ensures steps { (e : Encoding) (front rest : List ℕ) → IsWellFormed (first_in e) front →
        steps (first_in e) (front ++ rest) ≡ steps (first_in e) front ++ steps (first_in e) rest }
    ensures ends { (e : Encoding) (units : List ℕ) (n : ℕ) → n ≤ length units →
        IsWellFormed (first_in e) (take n units) → IsBoundary (first_in e) units n }
{}

/// At the end of each step, an error too, the units decode apart: those before it by the steps before it, those after
/// it by the others.
pub fn decodes_apart_after_steps()
    ensures steps { (e : Encoding) (units : List ℕ) (before after : List Step) →
        steps (first_in e) units ≡ before ++ after →
        (steps (first_in e) (take (width_of before) units) ≡ before) ×
        (steps (first_in e) (drop (width_of before) units) ≡ after) }
    ensures text { (e : Encoding) (units : List ℕ) (n : ℕ) → IsBoundary (first_in e) units n →
        decoded_in e units ≡ decoded_in e (take n units) ++ decoded_in e (drop n units) }
    ensures between { (e : Encoding) (units : List ℕ) (n m : ℕ) → IsBoundary (first_in e) units n →
        IsBoundary (first_in e) units m → n ≤ m →
        decoded_in e units ≡
        decoded_in e (take n units) ++ decoded_in e (slice_range units n m) ++ decoded_in e (drop m units) }
{}

/// A step begins at each unit that can't come after the first one of a step: at each byte but those from 80 to BF, and
/// at each 16-bit unit but the low surrogates.
pub fn step_begins_at_unit_that_cannot_trail()
    ensures { (e : Encoding) (units : List ℕ) (n : ℕ) → n < length units → trails_in e (slice_index units n) ≡ false →
        IsBoundary (first_in e) units n }
{}

/// A byte below 80 is its character, and so is a 16-bit unit below D800. In what is well-formed, bytes below a limit
/// from C2 to E0 begin characters below 64 for each byte from C0 up to it: below C3 those below U+00C0, and below CC
/// those below U+0300. No other character is in bytes below the limit.
pub fn low_units_begin_low_characters()
    ensures ascii { (byte : ℕ) (rest : List ℕ) → byte < 0x80 → first_of_utf8 (byte ∷ rest) ≡ read byte 1 }
    ensures unit { (unit : ℕ) (rest : List ℕ) → unit < 0xD800 → first_of_utf16 (unit ∷ rest) ≡ read unit 1 }
    ensures below { (limit byte : ℕ) (rest : List ℕ) → 0xC2 ≤ limit → limit ≤ 0xE0 → byte < limit →
        (first_of_utf8 (byte ∷ rest)).is_error ≡ false → (first_of_utf8 (byte ∷ rest)).character < (limit - 0xC0) * 64 }
    ensures all_below { (limit : ℕ) → 0xC2 ≤ limit → limit ≤ 0xE0 → (bytes : List ℕ) →
        IsWellFormed first_of_utf8 bytes → All (λ b. b < limit) bytes → All (λ c. c < (limit - 0xC0) * 64) (decoded_utf8 bytes) }
{}

/// Units below 80 are characters by themselves, whatever follows, and so are 16-bit units below D800.
pub fn low_units_are_single_characters()
    ensures ascii { (e : Encoding) (low rest : List ℕ) → All (λ u. u < 0x80) low →
        steps (first_in e) (low ++ rest) ≡ map (λ u. read u 1) low ++ steps (first_in e) rest }
    ensures units { (low rest : List ℕ) → All (λ u. u < 0xD800) low →
        steps first_of_utf16 (low ++ rest) ≡ map (λ u. read u 1) low ++ steps first_of_utf16 rest }
{}

/// A step ends with the units below a bound, whatever follows: for bounds up to 80 and, in bytes, from C0 on; for
/// 16-bit units up to D800. What is well-formed decodes up to there to low characters, as above.
pub fn step_ends_with_low_units()
    ensures below { (bound : ℕ) (units : List ℕ) → All (λ u. u < bound) (take (leading_below bound units) units) }
    ensures ascii { (e : Encoding) (bound : ℕ) (units : List ℕ) → bound ≤ 0x80 →
        IsBoundary (first_in e) units (leading_below bound units) }
    ensures units { (bound : ℕ) (units : List ℕ) → bound ≤ 0xD800 →
        IsBoundary first_of_utf16 units (leading_below bound units) }
    ensures bytes { (bound : ℕ) (bytes : List ℕ) → 0xC0 ≤ bound →
        IsBoundary first_of_utf8 bytes (leading_below bound bytes) }
    ensures text { (limit : ℕ) → 0xC2 ≤ limit → limit ≤ 0xE0 → (bytes : List ℕ) → IsWellFormed first_of_utf8 bytes →
        All (λ c. c < (limit - 0xC0) * 64) (decoded_utf8 (take (leading_below limit bytes) bytes)) }
{}

/// Calls of `next` and `next_back` in any mixture take the text apart from both ends: if they took the characters x
/// from the beginning and y from the end, the remaining units decode to the characters between them.
pub fn decodes_from_both_ends()
    ensures { (e : Encoding) (units x rest y : List ℕ) → TakenFrom (first_in e) units x rest y →
        decoded_in e units ≡ x ++ decoded_in e rest ++ y }
{}

/// The first step of bytes is the one that the Standard names, and no other is: the character of the well-formed
/// sequence there, or if there is none, U+FFFD for the longest beginning of one, or else for one byte.
pub fn utf8_steps_are_the_standards()
    ensures is { (bytes : List ℕ) → 0 < length bytes → IsStepOfUtf8 bytes (first_of_utf8 bytes) }
    ensures only { (bytes : List ℕ) (s : Step) → 0 < length bytes → IsStepOfUtf8 bytes s → s ≡ first_of_utf8 bytes }
{}

/// The well-formed units are the encodings of texts, each of the text that it decodes to.
pub fn well_formed_where_encoded()
    ensures encoded { (e : Encoding) (units : List ℕ) → IsWellFormed (first_in e) units →
        encoded_in e (decoded_in e units) ≡ units }
    ensures back { (e : Encoding) (x : List ℕ) → IsText x → decoded_in e (encoded_in e x) ≡ x }
    ensures well_formed { (e : Encoding) (x : List ℕ) → IsText x → IsWellFormed (first_in e) (encoded_in e x) }
    ensures append { (e : Encoding) (x y : List ℕ) → encoded_in e (x ++ y) ≡ encoded_in e x ++ encoded_in e y }
{}

/// The well-formed bytes are those that std takes for UTF-8.
pub fn utf8_is_well_formed_as_in_std()
    ensures { (bytes : List ℕ) → IsWellFormed first_of_utf8 bytes ↔ IsUtf8 bytes }
{}

/// A `str` is well-formed, and decodes to its characters; its steps end at its character boundaries.
pub fn str_decodes_to_its_characters(text: &str)
    ensures well_formed { IsWellFormed first_of_utf8 text.now }
    ensures characters { decoded_utf8 text.now ≡ chars text.now }
    ensures ends { (n : ℕ) → IsBoundary first_of_utf8 text.now n ↔ IsCharBoundary text.now n }
{}

/// Bytes decode to the text that std's lossy decoding makes of them.
pub fn utf8_decodes_as_in_std()
    ensures { (bytes : List ℕ) → encode_utf8_all (decoded_utf8 bytes) ≡ utf8_lossy bytes }
{}

/// 16-bit units decode to the text that std's lossy decoding makes of them.
pub fn utf16_decodes_as_in_std()
    ensures { (units : List ℕ) → All (λ u. u < 2 ^ 16) units
        → decoded_utf16 units ≡ utf16_lossy_chars units }
{}
