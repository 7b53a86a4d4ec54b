//! A sink over a buffer of a caller.
ghost use Rattle.std.specs.Prelude.{◌≡◌, ◌≤◌, ◌-◌, ◌∷◌, ◌++◌, ◌^◌, [], length, drop, min, take};
ghost use Rattle.std.specs.Char.{encode_utf8};
ghost use Rattle.std.specs.Char.Escape.{encode_utf16};
ghost use Rattle.icu_normalizer_c.specs.Overwriting.{overwritten};

use crate::history::History;
use crate::overwrite::overwrite_after;
use crate::piece::Piece;
use icu_normalizer::sink::{SinkError, Write, Write16};

/// A buffer of a caller, as a sink. It never refuses: what it takes overwrites the buffer from its front on, as far as
/// there is room, and all is counted.
#[derive(Drop)]
pub(crate) struct Buffer<'a, T> {
    pub(crate) units: &'a mut [T],
    count: usize,
    /// What the buffer had at first, and then all that was taken.
    pub(crate) history: History<T>,
    ghost had: { length units.now ≤ length history.units },
    ghost has: { units.now ≡ overwritten (take (length units.now) history.units)
        (drop (length units.now) history.units) },
    ghost counts: { count ≡ min (length history.units - length units.now) (2 ^ 64 - 1) },
}

impl<'a, T: Copy> Buffer<'a, T> {
    /// Returns a sink over the buffer.
    pub(crate) fn new(units: &'a mut [T]) -> Buffer<'a, T>
        ensures same_reference { result.units.ghost_name ≡ units.entry.ghost_name }
        ensures room { length result.units.now ≡ length units.old }
        ensures history { result.history.units ≡ units.old }
    {
        let history = History::of(units);
        Buffer {
            units,
            count: 0,
            history,
        }
    }

    /// Returns how many units were taken, or `usize::MAX` if there were more.
    pub(crate) fn count(&self) -> usize
        ensures { result ≡ min (length self.now.history.units - length self.now.units.now) (2 ^ 64 - 1) }
    {
        self.count
    }

    /// Takes a piece or an array of units.
    #[inline(always)]
    fn take<P: Piece<T>>(&mut self, piece: P)
        ensures same_reference { self.new.units.ghost_name ≡ self.old.units.ghost_name }
        ensures room { length self.new.units.now ≡ length self.old.units.now }
        ensures history { self.new.history.units ≡ self.old.history.units ++ P.items piece }
    {
        let units = piece.as_slice();
        let history = self.history.and(units);
        let count = self.count.saturating_add(units.len());
        overwrite_after(self.units, self.count, piece);
        self.count = count;
        self.history = history;
    }
}

impl<'a> Buffer<'a, u8> {
    /// Takes a character in UTF-8.
    #[inline(always)]
    fn take_in_utf8(&mut self, c: char)
        ensures same_reference { self.new.units.ghost_name ≡ self.old.units.ghost_name }
        ensures room { length self.new.units.now ≡ length self.old.units.now }
        ensures history { self.new.history.units ≡ self.old.history.units ++ encode_utf8 c }
    {
        if (c as u32) < 0x80 {
            self.take([c as u8]);
        } else {
            self.take_sequence(c);
        }
    }

    /// Takes a character that has several bytes in UTF-8. It isn't inlined, so that callers inline the test for one byte.
    #[inline(never)]
    fn take_sequence(&mut self, c: char)
        requires { 0x80 ≤ c }
        ensures same_reference { self.new.units.ghost_name ≡ self.old.units.ghost_name }
        ensures room { length self.new.units.now ≡ length self.old.units.now }
        ensures history { self.new.history.units ≡ self.old.history.units ++ encode_utf8 c }
    {
        let number = c as u32;
        if number < 0x800 {
            self.take([(0xC0 + number / 64) as u8, (0x80 + number % 64) as u8]);
        } else if number < 0x10000 {
            self.take([
                (0xE0 + number / 4096) as u8,
                (0x80 + number / 64 % 64) as u8,
                (0x80 + number % 64) as u8,
            ]);
        } else {
            let mut bytes = [0; 4];
            self.take(c.encode_utf8(&mut bytes).as_bytes());
        }
    }
}

impl<'a> Buffer<'a, u16> {
    /// Takes a character in UTF-16.
    #[inline(always)]
    fn take_in_utf16(&mut self, c: char)
        ensures same_reference { self.new.units.ghost_name ≡ self.old.units.ghost_name }
        ensures room { length self.new.units.now ≡ length self.old.units.now }
        ensures history { self.new.history.units ≡ self.old.history.units ++ encode_utf16 c }
    {
        if (c as u32) < 0x10000 {
            self.take([c as u16]);
        } else {
            self.take_pair(c);
        }
    }

    /// Takes a character that mostly has two units in UTF-16. It isn't inlined, so that the test for one unit is.
    #[inline(never)]
    fn take_pair(&mut self, c: char)
        ensures same_reference { self.new.units.ghost_name ≡ self.old.units.ghost_name }
        ensures room { length self.new.units.now ≡ length self.old.units.now }
        ensures history { self.new.history.units ≡ self.old.history.units ++ encode_utf16 c }
    {
        let Some(rest) = (c as u32).checked_sub(0x10000) else {
            return self.take([c as u16]);
        };
        self.take([
            (0xD800 + rest / 0x400) as u16,
            (0xDC00 + rest % 0x400) as u16,
        ]);
    }
}

impl<'a> Buffer<'a, u32> {
    /// Takes a character in UTF-32.
    #[inline(always)]
    pub(crate) fn take_in_utf32(&mut self, c: char)
        ensures same_reference { self.new.units.ghost_name ≡ self.old.units.ghost_name }
        ensures room { length self.new.units.now ≡ length self.old.units.now }
        ensures history { self.new.history.units ≡ self.old.history.units ++ c ∷ [] }
    {
        self.take([c as u32]);
    }
}

impl<'a> Write for Buffer<'a, u8> {
    ghost use Rattle.icu_normalizer.specs.Sinks.{TakesNothing};
    ghost use Rattle.icu_normalizer_c.specs.Taken.{taken_by};

    ghost text_taken = { taken_by };

    ghost refusal = { λ _ _. ⊥ };

    ghost refusal_effect = { TakesNothing taken_by };

    #[inline(always)]
    fn write_str(&mut self, text: &str) -> Result<(), SinkError> {
        self.take(text.as_bytes());
        Ok(())
    }

    #[inline(always)]
    fn write_char(&mut self, c: char) -> Result<(), SinkError> {
        self.take_in_utf8(c);
        Ok(())
    }
}

impl<'a> Write16 for Buffer<'a, u16> {
    ghost use Rattle.std.specs.Prelude.{⊤};
    ghost use Rattle.icu_normalizer.specs.Sinks.{TakesNothing};
    ghost use Rattle.icu_normalizer_c.specs.Taken.{taken_by};

    ghost text_taken = { taken_by };

    ghost refusal = { λ _ _. ⊥ };

    ghost refusal_effect = { TakesNothing taken_by };

    ghost length_hint = { λ _ _ _ _. ⊤ };

    fn size_hint(&mut self, _len: usize) -> Result<(), SinkError> {
        Ok(())
    }

    #[inline(always)]
    fn write_slice(&mut self, units: &[u16]) -> Result<(), SinkError> {
        self.take(units);
        Ok(())
    }

    #[inline(always)]
    fn write_char(&mut self, c: char) -> Result<(), SinkError> {
        self.take_in_utf16(c);
        Ok(())
    }
}
