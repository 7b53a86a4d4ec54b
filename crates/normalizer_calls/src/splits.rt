//! Text, bytes and 16-bit units in two parts: the longest prefix that the form leaves as it is, and the
//! rest.
ghost use Rattle.std.specs.Prelude.{chars};
ghost use Rattle.normalizer_text.specs.Encodings.{Encoding, decoded_in};
ghost use Rattle.normalizer_text.specs.Utf8.{decoded_utf8};
ghost use Rattle.normalizer_text.specs.Utf16.{decoded_utf16};
ghost use Rattle.normalizer_calls.specs.Checks.{AnswersOf, IsSplitAtCut, IsTextSplitAtCut};

use crate::borrowed::NormalizerBorrowed;
use crate::forming::Forming;
use crate::offence::cut_of;
use normalizer_iterators::NormalizeError;
use normalizer_text::check_sink::Expected;
use normalizer_text::text_of;

/// The units in two parts, at their cut.
pub(crate) fn split_at_cut<U: Expected, N: Forming>(
    normalizer: &N,
    units: U,
) -> Result<(U, U), NormalizeError>
    ensures { AnswersOf (N.made_form normalizer.now) (decoded_in U.encoding (U.units units)) (λ parts. IsSplitAtCut
        (N.made_form normalizer.now) U.encoding (U.units units) (U.units parts.0) (U.units parts.1)) result }
{
    let place = cut_of(normalizer, units)?.unwrap_or(units.len());
    Ok((units.before(place), units.after(place)))
}

impl<F: Forming> NormalizerBorrowed<F> {
    /// Splits `text` so that its form is the first part followed by the form of the second, as late as possible.
    ///
    /// The first part may not be the longest normalized prefix: under NFC, `"a\u{308}"` splits at 0, though `"a"` is
    /// normalized.
    ///
    /// # Errors
    /// `Memory` if an allocation failed. None is made unless more than 17 characters are buffered at a time.
    ///
    /// # Examples
    /// ```rust
    /// let (prefix, rest) = normalizer.split_normalized("ba\u{308}")?;
    /// assert_eq!(rt; prefix, "b");
    /// assert_eq!(rt; rest, "a\u{308}");
    /// ```
    pub fn split_normalized<'t>(&self, text: &'t str) -> Result<(&'t str, &'t str), NormalizeError>
        ensures { AnswersOf (F.made_form self.now.form) (chars text.now)
            (λ parts. IsTextSplitAtCut (F.made_form self.now.form) text.now parts.0.now parts.1.now) result }
    {
        split_at_cut(&self.form, text)
    }

    /// Splits `bytes` so that the first part is well-formed and their form is the first part followed by the form of
    /// the second, as late as possible. The second part is empty if and only if `bytes` are normalized.
    ///
    /// # Errors
    /// `Memory` if an allocation failed. None is made unless more than 17 characters are buffered at a time.
    pub fn split_normalized_utf8<'t>(
        &self,
        bytes: &'t [u8],
    ) -> Result<(&'t str, &'t [u8]), NormalizeError>
        ensures { AnswersOf (F.made_form self.now.form) (decoded_utf8 bytes.now)
            (λ parts. IsSplitAtCut (F.made_form self.now.form) Encoding.Utf8 bytes.now parts.0.now parts.1.now) result }
    {
        let (prefix, rest) = split_at_cut(&self.form, bytes)?;
        Ok((text_of(prefix), rest))
    }

    /// Splits 16-bit units so that the first part is well-formed and their form is the first part followed by the form
    /// of the second, as late as possible. The second part is empty if and only if the units are normalized.
    ///
    /// # Errors
    /// `Memory` if an allocation failed. None is made unless more than 17 characters are buffered at a time.
    pub fn split_normalized_utf16<'t>(
        &self,
        units: &'t [u16],
    ) -> Result<(&'t [u16], &'t [u16]), NormalizeError>
        ensures { AnswersOf (F.made_form self.now.form) (decoded_utf16 units.now) (λ parts.
            IsSplitAtCut (F.made_form self.now.form) Encoding.Utf16 units.now parts.0.now parts.1.now) result }
    {
        split_at_cut(&self.form, units)
    }
}
