//! Text in UTF-32, whose units are its characters: its characters, and whether it is normalized.
ghost use Rattle.std.specs.Prelude.{◌≡◌, ◌↔◌, ℕ, List, All, length, IfOk, IsOk, IsOkUnless, IsTrue};
ghost use Rattle.std.specs.Char.{IsScalar};
ghost use Rattle.std.specs.Iterator.{at_most, IsFinite};
ghost use Rattle.std.specs.List.{list_all};
ghost use lib.Utf8.{scalar};
ghost use Rattle.normal_forms.specs.Forms.{IsNormalized};
ghost use Rattle.normalizer_text.specs.DecodingSteps.{Spells};
ghost use Rattle.normalizer_iterators.specs.Items.{SpellsOk, SpellsUnless};
ghost use Rattle.normalizer_calls.specs.Checks.{ChecksUtf32};
ghost use Rattle.normalizer_calls.specs.Utf32.{decoded_utf32, TakesUnit};

use crate::borrowed::NormalizerBorrowed;
use crate::forming::Forming;
use normalizer_iterators::NormalizeError;
use normalizer_text::least_after;
use std::marker::Model;

/// An iterator over the characters that units decode to, as UTF-32. A unit that isn't a Unicode scalar value reads as
/// U+FFFD. It takes no memory.
#[derive(Drop)]
pub struct Utf32Chars<'a> {
    units: &'a [u32],
}

impl<'a> Model for Utf32Chars<'a> {
    ghost Value = { List ℕ };

    ghost view = { λ it. it.units.now };
}

impl<'a> Utf32Chars<'a> {
    /// Makes an iterator over the characters that `units` decode to.
    pub fn new(units: &'a [u32]) -> Utf32Chars<'a>
        ensures left { result ≡ units.now }
        ensures spells { Spells TakesUnit result (decoded_utf32 units.now) }
    {
        Utf32Chars { units }
    }
}

impl<'a> Iterator for Utf32Chars<'a> {
    type Item = char;

    ghost next_gives = { TakesUnit };

    ghost remaining = { λ units. at_most (length units) };

    #[inline(always)]
    fn next(&mut self) -> Option<char> {
        let (first, rest) = self.units.split_first()?;
        self.units = rest;
        Some(char::from_u32(*first).unwrap_or(char::REPLACEMENT_CHARACTER))
    }
}

/// Returns whether an iterator yields exactly the characters that units are.
pub(crate) fn yields<I>(items: I, units: &[u32]) -> Result<bool, NormalizeError>
where
    I: Iterator<Item = Result<char, NormalizeError>> + Drop,
    requires can { I.can_next items }
    requires ends { IsFinite (I.remaining items) }
    ensures same { (x : List ℕ) → SpellsUnless I.next_gives NormalizeError.Memory items x →
        IfOk result (λ same. IsTrue same ↔ (x ≡ units.now)) × IsOkUnless result NormalizeError.Memory }
    ensures room { (x : List ℕ) → SpellsOk I.next_gives items x → IsOk result }
{
    let mut left = units;
    for item in items {
        let character = item?;
        let Some((unit, rest)) = left.split_first() else {
            return Ok(false);
        };
        if *unit != character as u32 {
            return Ok(false);
        }
        left = rest;
    }
    Ok(left.is_empty())
}

/// Whether all units are characters.
fn are_characters(units: &[u32]) -> bool
    ensures { result ≡ list_all scalar units.now }
{
    units.iter().all(|&unit| char::from_u32(unit).is_some())
}

/// Whether each unit is a character that is seen to pass after those before it.
fn is_seen_to_pass<N: Forming>(normalizer: &N, units: &[u32]) -> bool
    ensures characters { IsTrue result → All IsScalar units.now }
    ensures normalized { let m = N.made_form normalizer.now in
        IsTrue result → IsNormalized m.reading m.form units.now }
{
    let bytes = normalizer.bytes();
    let mut least = 1;
    for unit in units {
        let Some(character) = char::from_u32(*unit) else {
            return false;
        };
        let byte = bytes.of(character);
        if byte < least {
            return false;
        }
        least = least_after(byte);
    }
    true
}

impl<F: Forming> NormalizerBorrowed<F> {
    /// Returns whether `units` are characters, as UTF-32 encodes them, and the text of them is already in its normal
    /// form.
    ///
    /// # Errors
    /// `Memory` if an allocation failed. None is made unless more than 17 characters are buffered at a time.
    pub fn is_normalized_utf32(&self, units: &[u32]) -> Result<bool, NormalizeError>
        ensures { ChecksUtf32 (F.made_form self.now.form) units.now result }
    {
        if is_seen_to_pass(&self.form, units) {
            return Ok(true);
        }
        if !are_characters(units) {
            return Ok(false);
        }
        self.form.is_own_by_items(units)
    }
}
