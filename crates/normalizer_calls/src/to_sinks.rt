//! Writing the forms of text, bytes and 16-bit units to sinks.
ghost use Rattle.std.specs.Prelude.{length, chars};
ghost use Rattle.normalizer_text.specs.Encodings.{Encoding};
ghost use Rattle.normalizer_text.specs.Utf8.{decoded_utf8};
ghost use Rattle.normalizer_text.specs.Utf16.{decoded_utf16};
ghost use Rattle.normalizer_calls.specs.Writing.{TellsLengthFirst, WritesForm};

use crate::borrowed::NormalizerBorrowed;
use crate::forming::Forming;
use crate::writing::form_to;
use normalizer_iterators::NormalizeError;
use normalizer_text::sink::{Write, Write16};

impl<F: Forming> NormalizerBorrowed<F> {
    /// Writes the normal form of `text` to `sink`, in UTF-8 (The Unicode Standard, D118 to D121).
    ///
    /// # Errors
    /// - `Sink` if the sink refused a call.
    /// - `Memory` if an allocation failed. None is made unless more than 17 characters are buffered at a time.
    ///
    /// After either, a beginning of the form was written, if refused calls of the sink take nothing. The normalizer is
    /// unchanged.
    ///
    /// # Examples
    /// ```rust
    /// let mut form = String::new(alloc);
    /// normalizer.normalize_to("a\u{308}b", &mut form)?;
    /// assert_eq!(rt; form.as_str(), "\u{E4}b");
    /// ```
    pub fn normalize_to<W: Write>(&self, text: &str, sink: &mut W) -> Result<(), NormalizeError>
        ensures { WritesForm Encoding.Utf8 W.text_taken W.refusal W.refusal_effect (F.made_form self.now.form)
            (chars text.now) sink.old result sink.new }
    {
        form_to(&self.form, text, sink)
    }

    /// Writes the normal form of the text that `bytes` decode to, in UTF-8. Each maximal ill-formed subpart reads as
    /// U+FFFD.
    ///
    /// # Errors
    /// - `Sink` if the sink refused a call.
    /// - `Memory` if an allocation failed. None is made unless more than 17 characters are buffered at a time.
    ///
    /// After either, a beginning of the form was written, if refused calls of the sink take nothing. The normalizer is
    /// unchanged.
    ///
    /// # Examples
    /// ```rust
    /// let mut form = String::new(alloc);
    /// normalizer.normalize_utf8_to(b"a\xCC\x88\xFF", &mut form)?;
    /// assert_eq!(rt; form.as_str(), "\u{E4}\u{FFFD}");
    /// ```
    pub fn normalize_utf8_to<W: Write>(
        &self,
        bytes: &[u8],
        sink: &mut W,
    ) -> Result<(), NormalizeError>
        ensures { WritesForm Encoding.Utf8 W.text_taken W.refusal W.refusal_effect (F.made_form self.now.form)
            (decoded_utf8 bytes.now) sink.old result sink.new }
    {
        form_to(&self.form, bytes, sink)
    }

    /// Writes the normal form of the text that 16-bit units decode to, in UTF-16. Each unpaired surrogate reads as
    /// U+FFFD. The sink is first given the number of units as a hint; if it refuses that, nothing is written.
    ///
    /// # Errors
    /// - `Sink` if the sink refused a call.
    /// - `Memory` if an allocation failed. None is made unless more than 17 characters are buffered at a time.
    ///
    /// After either, a beginning of the form was written, if refused calls of the sink take nothing. The normalizer is
    /// unchanged.
    ///
    /// # Examples
    /// ```rust
    /// let mut form = Vec::new(alloc);
    /// normalizer.normalize_utf16_to(&[0x61, 0x308, 0x62], &mut form)?;
    /// assert_eq!(rt; form.as_slice(), [0xE4, 0x62].as_slice());
    /// ```
    pub fn normalize_utf16_to<W: Write16>(
        &self,
        units: &[u16],
        sink: &mut W,
    ) -> Result<(), NormalizeError>
        ensures form { WritesForm Encoding.Utf16 W.text_taken W.refusal W.refusal_effect (F.made_form self.now.form)
            (decoded_utf16 units.now) sink.old result sink.new }
        ensures first { TellsLengthFirst W.text_taken W.length_hint (length units.now) sink.old result sink.new }
    {
        form_to(&self.form, units, sink)
    }
}
