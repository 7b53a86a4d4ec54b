//! The forms of text, bytes and 16-bit units, borrowed from the input if it is already normalized.
ghost use Rattle.std.specs.Prelude.{◌≡◌, ◌++◌, chars, string_bytes};
ghost use Rattle.std.specs.Prelude.{IfOk, IsOk, IsOkUnless, OnOk};
ghost use Rattle.std.specs.Cow.{cow_slice_items, cow_str_bytes, IsBorrowedSlice, IsBorrowedStr};
ghost use Rattle.normalizer_text.specs.Encodings.{Encoding};
ghost use Rattle.normalizer_text.specs.EncodedForm.{encoded_form};
ghost use Rattle.normalizer_text.specs.InputCut.{IsInputNormalized, QualifiesForInputCut};
ghost use Rattle.normalizer_calls.specs.Forms.{HasShortUnits};
ghost use Rattle.normalizer_calls.specs.Owned.{ReturnsForm, ReturnsFormOfText};
ghost use Rattle.normalizer_calls.specs.inner.WriteUnlessOwn.{WroteUnlessOwn};

use crate::borrowed::NormalizerBorrowed;
use crate::forming::Forming;
use crate::offence::cut_of;
use crate::writing::write_changed;
use normalizer_iterators::NormalizeError;
use normalizer_text::check_sink::Expected;
use normalizer_text::output::Output;
use normalizer_text::sink::SinkError;
use normalizer_text::{Units, text_of};
use std::alloc::Global;
use std::borrow::{CowSlice, CowStr};

/// Room for how many units more than those of the input is made at first.
const SPARE_UNITS: usize = 16;

/// An output that grows, and makes room at once.
trait Growing<U: Units>: Output<U> {
    /// Makes room for this many more units, or refuses it.
    fn make_room(&mut self, len: usize) -> Result<(), SinkError>
        ensures { OnOk result (Self.text_taken self.new ≡ Self.text_taken self.old) };
}

impl<'t> Growing<&'t str> for String {
    fn make_room(&mut self, len: usize) -> Result<(), SinkError>
        ensures { OnOk result (string_bytes self.new ≡ string_bytes self.old) }
    {
        self.reserve(len).map_err(|_| SinkError)
    }
}

impl<'t> Growing<&'t [u8]> for String {
    fn make_room(&mut self, len: usize) -> Result<(), SinkError>
        ensures { OnOk result (string_bytes self.new ≡ string_bytes self.old) }
    {
        self.reserve(len).map_err(|_| SinkError)
    }
}

impl<'t> Growing<&'t [u16]> for Vec<u16> {
    fn make_room(&mut self, len: usize) -> Result<(), SinkError>
        ensures { OnOk result (self.new.items ≡ self.old.items) }
    {
        self.reserve(len).map_err(|_| SinkError)
    }
}

/// Writes the form of units in two parts: what comes before the cut as it is, and the form of the rest. Room for as many
/// units and a few more is made first, so that the marks that come apart in a short text need no second allocation.
fn write_from_cut<U: Units, N: Forming, O: Growing<U>>(
    normalizer: &N,
    units: U,
    cut: usize,
    output: &mut O,
) -> Result<(), NormalizeError>
    requires { let m = N.made_form normalizer.now in
        QualifiesForInputCut U.encoding m.reading m.form (U.units units) cut }
    ensures { let m = N.made_form normalizer.now in OnOk result (O.text_taken output.new ≡
        O.text_taken output.old ++ encoded_form U.encoding m.reading m.form (U.units units)) }
{
    output.make_room(units.len().saturating_add(SPARE_UNITS))?;
    output.write_piece(units.before(cut))?;
    write_changed(normalizer, units.after(cut), None, output)
}

/// Writes the form of the units, unless they are well-formed and normalized. A failed write is reported as `Memory`.
fn write_unless_own<U: Expected, N: Forming, O: Growing<U>>(
    normalizer: &N,
    units: U,
    output: &mut O,
) -> Result<bool, NormalizeError>
    ensures wrote { IfOk result (λ own. WroteUnlessOwn O.text_taken (N.made_form normalizer.now)
        U.encoding (U.units units) output.old own output.new) }
    ensures room { let m = N.made_form normalizer.now in HasShortUnits m U.encoding (U.units units) →
        IsInputNormalized U.encoding m.reading m.form (U.units units) → IsOk result }
    ensures refused { IsOkUnless result NormalizeError.Memory }
{
    let Some(cut) = cut_of(normalizer, units)? else {
        return Ok(true);
    };
    match write_from_cut(normalizer, units, cut, output) {
        Ok(()) => Ok(false),
        Err(_) => Err(NormalizeError::Memory),
    }
}

impl<F: Forming> NormalizerBorrowed<F> {
    /// Returns the normal form of `text`. It borrows from `text` if and only if `text` is already normalized. Exactly
    /// the texts equivalent to `text` have this form.
    ///
    /// # Errors
    /// `Memory` if an allocation failed. If `text` is normalized and at most 17 characters are buffered at a
    /// time, none is made.
    ///
    /// # Examples
    /// ```rust
    /// let form = normalizer.normalize("a\u{308}b")?;
    /// assert!(rt; *form == *"\u{E4}b");
    /// ```
    pub fn normalize<'t>(&self, text: &'t str) -> Result<CowStr<'t, Global>, NormalizeError>
        ensures { ReturnsFormOfText (F.made_form self.now.form) (chars text.now) result }
    {
        let mut owned = String::new(self.form.characters().allocator());
        if write_unless_own::<&'t str, F, String>(&self.form, text, &mut owned)? {
            Ok(CowStr::Borrowed(text))
        } else {
            Ok(CowStr::Owned(owned))
        }
    }

    /// Returns the normal form of what `bytes` decode to, in UTF-8. It borrows from `bytes` if and only if they are
    /// well-formed and already normalized. Each maximal ill-formed subpart reads as U+FFFD.
    ///
    /// # Errors
    /// `Memory` if an allocation failed. If `bytes` are normalized and at most 17 characters are buffered at a
    /// time, none is made.
    pub fn normalize_utf8<'t>(&self, bytes: &'t [u8]) -> Result<CowStr<'t, Global>, NormalizeError>
        ensures { ReturnsForm cow_str_bytes IsBorrowedStr (F.made_form self.now.form) Encoding.Utf8 bytes.now result }
    {
        let mut owned = String::new(self.form.characters().allocator());
        if write_unless_own::<&'t [u8], F, String>(&self.form, bytes, &mut owned)? {
            Ok(CowStr::Borrowed(text_of(bytes)))
        } else {
            Ok(CowStr::Owned(owned))
        }
    }

    /// Returns the normal form of what 16-bit units decode to, in UTF-16. It borrows from `units` if and only if they
    /// are well-formed and already normalized. Each unpaired surrogate reads as U+FFFD.
    ///
    /// # Errors
    /// `Memory` if an allocation failed. If `units` are normalized and at most 17 characters are buffered at a
    /// time, none is made.
    pub fn normalize_utf16<'t>(
        &self,
        units: &'t [u16],
    ) -> Result<CowSlice<'t, u16, Global>, NormalizeError>
        ensures { ReturnsForm cow_slice_items IsBorrowedSlice
            (F.made_form self.now.form) Encoding.Utf16 units.now result }
    {
        let mut owned = Vec::new(self.form.characters().allocator());
        if write_unless_own::<&'t [u16], F, Vec<u16>>(&self.form, units, &mut owned)? {
            Ok(CowSlice::Borrowed(units))
        } else {
            Ok(CowSlice::Owned(owned))
        }
    }
}
