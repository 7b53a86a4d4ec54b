//! Normalizers to any form. Each call is the one of `DecomposingNormalizerBorrowed` and `ComposingNormalizerBorrowed`,
//! with its contract.
ghost use Rattle.std.specs.Prelude.{◌≡◌, ◌++◌, ◌↔◌, ℕ, List, chars, length, string_bytes};
ghost use Rattle.std.specs.Prelude.{IfErr, IfOk, IsOk, IsOkUnless, IsTrue, OnOk, true};
ghost use Rattle.std.specs.Cow.{cow_slice_items, cow_str_bytes, IsBorrowedSlice, IsBorrowedStr};
ghost use Rattle.std.specs.Iterator.{IsFinite};
ghost use Rattle.normalizer_text.specs.DecodingSteps.{Spells};
ghost use Rattle.normalizer_text.specs.EncodedForm.{encoded_form};
ghost use Rattle.normalizer_text.specs.Encodings.{Encoding};
ghost use Rattle.normalizer_text.specs.InputCut.{IsInputNormalized};
ghost use Rattle.normalizer_text.specs.InputOffence.{IsInputOffenceOf};
ghost use Rattle.normalizer_text.specs.Utf8.{decoded_utf8};
ghost use Rattle.normalizer_text.specs.Utf16.{decoded_utf16};
ghost use Rattle.icu_normalizer.specs.AnyNormalizers.{has_boundary, kind_by, made_by, made_by_borrowed, reading_of};
ghost use Rattle.normalizer_calls.specs.BoundaryBefore.{HasBoundaryBefore};
ghost use Rattle.normalizer_calls.specs.Checks.{
  AnswersOf,
  ChecksForm,
  ChecksText,
  ChecksUtf32,
  FindsOffence,
  FindsOffenceOfText,
  IsSplitAtCut,
  IsTextSplitAtCut,
};
ghost use Rattle.normalizer_calls.specs.Forms.{form_of, HasShortUnits};
ghost use Rattle.normalizer_calls.specs.Owned.{ReturnsForm, ReturnsFormOfText};
ghost use Rattle.normalizer_calls.specs.Writing.{TellsLengthFirst, WritesForm};

use crate::composing_normalizer::ComposingNormalizer;
use crate::decomposing_normalizer::DecomposingNormalizer;
use normalizer_calls::{ComposingNormalizerBorrowed, DecomposingNormalizerBorrowed};
use normalizer_iterators::{NormalizeError, collected};
use normalizer_text::Offence;
use normalizer_text::sink::{Write, Write16};
use std::alloc::Global;
use std::borrow::{CowSlice, CowStr};

/// The four normal forms (UAX #15, section 1.2).
#[derive(Clone, Copy, Debug, PartialEq, Eq)]
pub enum NormalForm {
    /// Canonical decomposition.
    Nfd,
    /// Canonical decomposition, then canonical composition.
    Nfc,
    /// Compatibility decomposition.
    Nfkd,
    /// Compatibility decomposition, then canonical composition.
    Nfkc,
}

/// A normalizer of either kind.
///
/// [`as_borrowed`](AnyNormalizer::as_borrowed) returns the normalizer that has the calls on text.
#[derive(Drop)]
pub enum AnyNormalizer {
    /// To NFD or NFKD.
    Decomposing(DecomposingNormalizer),
    /// To NFC or NFKC.
    Composing(ComposingNormalizer),
}

impl AnyNormalizer {
    /// Returns the normalizer that borrows this one's data.
    pub fn as_borrowed(&self) -> AnyNormalizerBorrowed<'_>
        ensures { made_by_borrowed result ≡ made_by self.now }
    {
        match self {
            AnyNormalizer::Decomposing(n) => AnyNormalizerBorrowed::Decomposing(n.as_borrowed()),
            AnyNormalizer::Composing(n) => AnyNormalizerBorrowed::Composing(n.as_borrowed()),
        }
    }

    /// Returns the form of the text that bytes decode to, in UTF-8.
    ///
    /// # Errors
    /// `Memory` if an allocation failed.
    pub fn form_of(&self, alloc: Global, bytes: &[u8]) -> Result<String, NormalizeError>
        ensures form { IfOk result (λ text. string_bytes text
            ≡ encoded_form Encoding.Utf8 (reading_of self.now) (kind_by self.now) bytes.now) }
        ensures errors { IfErr result (λ error. error ≡ NormalizeError.Memory) }
    {
        let mut text = String::new(alloc);
        self.append_form(bytes, &mut text)?;
        Ok(text)
    }

    /// Appends the form of the text that bytes decode to.
    ///
    /// # Errors
    /// `Memory` if an allocation failed. A beginning of the form may be appended then.
    pub fn append_form(&self, bytes: &[u8], text: &mut String) -> Result<(), NormalizeError>
        ensures form { OnOk result (string_bytes text.new ≡ string_bytes text.old
            ++ encoded_form Encoding.Utf8 (reading_of self.now) (kind_by self.now) bytes.now) }
        ensures refused { IsOkUnless result NormalizeError.Memory }
    {
        // (A text in memory refuses a write only if an allocation fails.)
        match self.as_borrowed().normalize_utf8_to(bytes, text) {
            Ok(()) => Ok(()),
            Err(_) => Err(NormalizeError::Memory),
        }
    }

    /// Returns whether bytes are well-formed and already normalized.
    ///
    /// # Errors
    /// `Memory` if an allocation failed. None is made unless more than 17 characters are buffered at a time.
    pub fn is_normalized(&self, bytes: &[u8]) -> Result<bool, NormalizeError>
        ensures normalized { IfOk result (λ normalized. IsTrue normalized
            ↔ IsInputNormalized Encoding.Utf8 (reading_of self.now) (kind_by self.now) bytes.now) }
        ensures short { HasShortUnits (made_by self.now) Encoding.Utf8 bytes.now → IsOk result }
        ensures errors { IfErr result (λ error. error ≡ NormalizeError.Memory) }
    {
        self.as_borrowed().is_normalized_utf8(bytes)
    }

    /// Returns the first place at which the bytes are ill-formed or not normalized.
    ///
    /// # Errors
    /// `Memory` if an allocation failed. None is made unless more than 17 characters are buffered at a time.
    pub fn first_offence(&self, bytes: &[u8]) -> Result<Option<Offence>, NormalizeError>
        ensures offence { IfOk result (λ offence.
            IsInputOffenceOf Encoding.Utf8 (reading_of self.now) (kind_by self.now) bytes.now offence) }
        ensures short { HasShortUnits (made_by self.now) Encoding.Utf8 bytes.now → IsOk result }
        ensures errors { IfErr result (λ error. error ≡ NormalizeError.Memory) }
    {
        self.as_borrowed().first_offence_utf8(bytes)
    }
}

/// A normalizer of either kind, over borrowed data: the calls on text are its methods.
#[derive(Drop)]
pub enum AnyNormalizerBorrowed<'a> {
    /// To NFD or NFKD.
    Decomposing(DecomposingNormalizerBorrowed<'a>),
    /// To NFC or NFKC.
    Composing(ComposingNormalizerBorrowed<'a>),
}

/// Calls the normalizer of either kind.
macro_rules! by_kind {
    ($self:ident, $n:ident => $call:expr) => {
        match $self {
            AnyNormalizerBorrowed::Decomposing($n) => $call,
            AnyNormalizerBorrowed::Composing($n) => $call,
        }
    };
}

impl<'a> AnyNormalizerBorrowed<'a> {
    /// Returns the normal form of `text`, borrowed if and only if it is already normalized.
    pub fn normalize<'t>(&self, text: &'t str) -> Result<CowStr<'t, Global>, NormalizeError>
        ensures { ReturnsFormOfText (made_by_borrowed self.now) (chars text.now) result }
    {
        by_kind!(self, n => n.normalize(text))
    }

    /// Returns the normal form of what `bytes` decode to, in UTF-8, borrowed if and only if they are well-formed and
    /// already normalized.
    pub fn normalize_utf8<'t>(&self, bytes: &'t [u8]) -> Result<CowStr<'t, Global>, NormalizeError>
        ensures { ReturnsForm cow_str_bytes IsBorrowedStr (made_by_borrowed self.now) Encoding.Utf8 bytes.now result }
    {
        by_kind!(self, n => n.normalize_utf8(bytes))
    }

    /// Returns the normal form of what 16-bit units decode to, in UTF-16, borrowed if and only if they are well-formed
    /// and already normalized.
    pub fn normalize_utf16<'t>(
        &self,
        units: &'t [u16],
    ) -> Result<CowSlice<'t, u16, Global>, NormalizeError>
        ensures { ReturnsForm cow_slice_items IsBorrowedSlice (made_by_borrowed self.now)
            Encoding.Utf16 units.now result }
    {
        by_kind!(self, n => n.normalize_utf16(units))
    }

    /// Writes the normal form of `text` to `sink`, in UTF-8.
    pub fn normalize_to<W: Write>(&self, text: &str, sink: &mut W) -> Result<(), NormalizeError>
        ensures { WritesForm Encoding.Utf8 W.text_taken W.refusal W.refusal_effect (made_by_borrowed self.now)
            (chars text.now) sink.old result sink.new }
    {
        by_kind!(self, n => n.normalize_to(text, sink))
    }

    /// Writes the normal form of the text that `bytes` decode to, in UTF-8.
    pub fn normalize_utf8_to<W: Write>(
        &self,
        bytes: &[u8],
        sink: &mut W,
    ) -> Result<(), NormalizeError>
        ensures { WritesForm Encoding.Utf8 W.text_taken W.refusal W.refusal_effect (made_by_borrowed self.now)
            (decoded_utf8 bytes.now) sink.old result sink.new }
    {
        by_kind!(self, n => n.normalize_utf8_to(bytes, sink))
    }

    /// Writes the normal form of the text that 16-bit units decode to, in UTF-16.
    pub fn normalize_utf16_to<W: Write16>(
        &self,
        units: &[u16],
        sink: &mut W,
    ) -> Result<(), NormalizeError>
        ensures form { WritesForm Encoding.Utf16 W.text_taken W.refusal W.refusal_effect (made_by_borrowed self.now)
            (decoded_utf16 units.now) sink.old result sink.new }
        ensures first { TellsLengthFirst W.text_taken W.length_hint (length units.now) sink.old result sink.new }
    {
        by_kind!(self, n => n.normalize_utf16_to(units, sink))
    }

    /// Returns whether `text` is already in its normal form.
    pub fn is_normalized(&self, text: &str) -> Result<bool, NormalizeError>
        ensures { ChecksText (made_by_borrowed self.now) (chars text.now) result }
    {
        by_kind!(self, n => n.is_normalized(text))
    }

    /// Returns whether `bytes` are well-formed UTF-8 that is already in its normal form.
    pub fn is_normalized_utf8(&self, bytes: &[u8]) -> Result<bool, NormalizeError>
        ensures { ChecksForm (made_by_borrowed self.now) Encoding.Utf8 bytes.now result }
    {
        by_kind!(self, n => n.is_normalized_utf8(bytes))
    }

    /// Returns whether 16-bit units are well-formed UTF-16 that is already in its normal form.
    pub fn is_normalized_utf16(&self, units: &[u16]) -> Result<bool, NormalizeError>
        ensures { ChecksForm (made_by_borrowed self.now) Encoding.Utf16 units.now result }
    {
        by_kind!(self, n => n.is_normalized_utf16(units))
    }

    /// Returns whether `units` are characters, as UTF-32 encodes them, and the text of them is already in its normal
    /// form.
    pub fn is_normalized_utf32(&self, units: &[u32]) -> Result<bool, NormalizeError>
        ensures { ChecksUtf32 (made_by_borrowed self.now) units.now result }
    {
        by_kind!(self, n => n.is_normalized_utf32(units))
    }

    /// Returns the first place where `text` differs from its normal form.
    pub fn first_offence(&self, text: &str) -> Result<Option<Offence>, NormalizeError>
        ensures { FindsOffenceOfText (made_by_borrowed self.now) (chars text.now) result }
    {
        by_kind!(self, n => n.first_offence(text))
    }

    /// Returns the first place where `bytes` are ill-formed or differ from their normal form.
    pub fn first_offence_utf8(&self, bytes: &[u8]) -> Result<Option<Offence>, NormalizeError>
        ensures { FindsOffence (made_by_borrowed self.now) Encoding.Utf8 bytes.now result }
    {
        by_kind!(self, n => n.first_offence_utf8(bytes))
    }

    /// Returns the first place where 16-bit units are ill-formed or differ from their normal form.
    pub fn first_offence_utf16(&self, units: &[u16]) -> Result<Option<Offence>, NormalizeError>
        ensures { FindsOffence (made_by_borrowed self.now) Encoding.Utf16 units.now result }
    {
        by_kind!(self, n => n.first_offence_utf16(units))
    }

    /// Splits `text` so that its form is the first part followed by the form of the second, as late as possible.
    pub fn split_normalized<'t>(&self, text: &'t str) -> Result<(&'t str, &'t str), NormalizeError>
        ensures { AnswersOf (made_by_borrowed self.now) (chars text.now) (λ parts.
            IsTextSplitAtCut (made_by_borrowed self.now) text.now parts.0.now parts.1.now) result }
    {
        by_kind!(self, n => n.split_normalized(text))
    }

    /// Splits `bytes` so that the first part is well-formed and their form is the first part followed by the form of
    /// the second, as late as possible.
    pub fn split_normalized_utf8<'t>(
        &self,
        bytes: &'t [u8],
    ) -> Result<(&'t str, &'t [u8]), NormalizeError>
        ensures { AnswersOf (made_by_borrowed self.now) (decoded_utf8 bytes.now) (λ parts.
            IsSplitAtCut (made_by_borrowed self.now) Encoding.Utf8 bytes.now parts.0.now parts.1.now) result }
    {
        by_kind!(self, n => n.split_normalized_utf8(bytes))
    }

    /// Splits 16-bit units so that the first part is well-formed and their form is the first part followed by the form
    /// of the second, as late as possible.
    pub fn split_normalized_utf16<'t>(
        &self,
        units: &'t [u16],
    ) -> Result<(&'t [u16], &'t [u16]), NormalizeError>
        ensures { AnswersOf (made_by_borrowed self.now) (decoded_utf16 units.now) (λ parts.
            IsSplitAtCut (made_by_borrowed self.now) Encoding.Utf16 units.now parts.0.now parts.1.now) result }
    {
        by_kind!(self, n => n.split_normalized_utf16(units))
    }

    /// Returns whether a text may be divided before `character`: a text that begins with it is then normalized apart
    /// from what comes before it.
    pub fn has_boundary_before(&self, character: char) -> bool
        ensures exactly { result ≡ has_boundary self.now character }
        ensures apart { let m = made_by_borrowed self.now in
            result ≡ true → HasBoundaryBefore m.reading m.form character }
    {
        by_kind!(self, n => n.has_boundary_before(character))
    }

    /// Returns the form of the text that an iterator yields.
    ///
    /// # Errors
    /// `Memory` if an allocation failed.
    #[tactic(auto, unfolding(normal_forms::specs::Forms::normal_form))]
    pub fn form_of_characters<I: Iterator<Item = char> + Drop>(
        &self,
        alloc: Global,
        characters: I,
    ) -> Result<Vec<char>, NormalizeError>
        requires can { I.can_next characters }
        requires ends { IsFinite (I.remaining characters) }
        ensures form { (x : List ℕ) → Spells I.next_gives characters x →
            IfOk result (λ v. v.items ≡ form_of (made_by_borrowed self.now) x) }
        ensures refused { IsOkUnless result NormalizeError.Memory }
    {
        by_kind!(self, n => collected(alloc, n.normalize_iter(characters)?))
    }
}
