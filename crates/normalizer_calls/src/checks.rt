//! Whether text, bytes and 16-bit units are normalized, and the first place at which they are not.
ghost use Rattle.std.specs.Prelude.{chars};
ghost use Rattle.normalizer_text.specs.Encodings.{Encoding};
ghost use Rattle.normalizer_calls.specs.Checks.{
  ChecksForm,
  ChecksText,
  FindsOffence,
  FindsOffenceOfText,
};

use crate::borrowed::NormalizerBorrowed;
use crate::forming::Forming;
use crate::offence::{cut_of, offence_of};
use normalizer_iterators::NormalizeError;
use normalizer_text::Offence;
use normalizer_text::check_sink::Expected;

/// Whether the units are well-formed and normalized.
fn is_own_form<U: Expected, N: Forming>(normalizer: &N, units: U) -> Result<bool, NormalizeError>
    ensures { ChecksForm (N.made_form normalizer.now) U.encoding (U.units units) result }
{
    Ok(cut_of(normalizer, units)?.is_none())
}

impl<F: Forming> NormalizerBorrowed<F> {
    /// Returns whether `text` is already in its normal form. There is no 'maybe'.
    ///
    /// # Errors
    /// `Memory` if an allocation failed. None is made unless more than 17 characters are buffered at a time.
    ///
    /// # Examples
    /// ```rust
    /// assert!(rt; normalizer.is_normalized("\u{E4}b")?);
    /// assert!(rt; !normalizer.is_normalized("a\u{308}b")?);
    /// ```
    pub fn is_normalized(&self, text: &str) -> Result<bool, NormalizeError>
        ensures { ChecksText (F.made_form self.now.form) (chars text.now) result }
    {
        is_own_form(&self.form, text)
    }

    /// Returns whether `bytes` are well-formed UTF-8 that is already in its normal form.
    ///
    /// # Errors
    /// `Memory` if an allocation failed. None is made unless more than 17 characters are buffered at a time.
    pub fn is_normalized_utf8(&self, bytes: &[u8]) -> Result<bool, NormalizeError>
        ensures { ChecksForm (F.made_form self.now.form) Encoding.Utf8 bytes.now result }
    {
        is_own_form(&self.form, bytes)
    }

    /// Returns whether 16-bit units are well-formed UTF-16 that is already in its normal form.
    ///
    /// # Errors
    /// `Memory` if an allocation failed. None is made unless more than 17 characters are buffered at a time.
    pub fn is_normalized_utf16(&self, units: &[u16]) -> Result<bool, NormalizeError>
        ensures { ChecksForm (F.made_form self.now.form) Encoding.Utf16 units.now result }
    {
        is_own_form(&self.form, units)
    }

    /// Returns the first place where `text` differs from its normal form: the byte offset, the character found there
    /// and the one expected; `None` if `text` is normalized.
    ///
    /// Appending to `text` never removes the mismatch, and never moves it to a later offset.
    ///
    /// # Errors
    /// `Memory` if an allocation failed. None is made unless more than 17 characters are buffered at a time.
    ///
    /// # Examples
    /// ```rust
    /// let mismatch = normalizer.first_offence("ba\u{308}")?;
    /// assert!(rt; mismatch.is_some_and(|it| (it.place, it.found, it.wanted) == (1, 'a', '\u{E4}')));
    /// assert!(rt; normalizer.first_offence("b\u{E4}")?.is_none());
    /// ```
    pub fn first_offence(&self, text: &str) -> Result<Option<Offence>, NormalizeError>
        ensures { FindsOffenceOfText (F.made_form self.now.form) (chars text.now) result }
    {
        offence_of(&self.form, text)
    }

    /// Returns the first place where `bytes` are ill-formed or differ from their normal form: the byte offset, the
    /// character found there and the one expected; `None` if they are normalized. At an ill-formed sequence, U+FFFD is
    /// found, and may be expected too.
    ///
    /// Appending to well-formed bytes never removes the mismatch, and never moves it to a later offset.
    ///
    /// # Errors
    /// `Memory` if an allocation failed. None is made unless more than 17 characters are buffered at a time.
    pub fn first_offence_utf8(&self, bytes: &[u8]) -> Result<Option<Offence>, NormalizeError>
        ensures { FindsOffence (F.made_form self.now.form) Encoding.Utf8 bytes.now result }
    {
        offence_of(&self.form, bytes)
    }

    /// Returns the first place where 16-bit units are ill-formed or differ from their normal form: the offset in
    /// units, the character found there and the one expected; `None` if they are normalized. At an unpaired surrogate,
    /// U+FFFD is found, and may be expected too.
    ///
    /// Appending to well-formed units never removes the mismatch, and never moves it to a later offset.
    ///
    /// # Errors
    /// `Memory` if an allocation failed. None is made unless more than 17 characters are buffered at a time.
    pub fn first_offence_utf16(&self, units: &[u16]) -> Result<Option<Offence>, NormalizeError>
        ensures { FindsOffence (F.made_form self.now.form) Encoding.Utf16 units.now result }
    {
        offence_of(&self.form, units)
    }
}
