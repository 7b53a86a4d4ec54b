//! Iterators over the characters that units decode to.
ghost use Rattle.std.specs.Prelude.{◌≡◌, ℕ, List, length, reverse};
ghost use Rattle.std.specs.Iterator.{at_most};
ghost use Rattle.normalizer_text.specs.DecodingSteps.{TakesFirst, TakesLast, Spells, decoded_text};
ghost use Rattle.normalizer_text.specs.Encodings.{first_in};

use crate::units::Units;
use std::marker::Model;

/// An iterator over the characters that units decode to, from the beginning and from the end. Each maximal ill-formed
/// subpart reads as U+FFFD: the longest beginning of a character that is cut short, or else one unit. It takes no
/// memory.
#[derive(Drop)]
pub struct Chars<U: Units> {
    units: U,
}

/// An iterator over the characters that bytes decode to, as UTF-8.
pub type Utf8Chars<'a> = Chars<&'a [u8]>;

/// An iterator over the characters that 16-bit units decode to, as UTF-16.
pub type Utf16Chars<'a> = Chars<&'a [u16]>;

impl<U: Units> Model for Chars<U> {
    ghost Value = { List ℕ };

    ghost view = { λ it. U.units it.units };
}

impl<U: Units> Chars<U> {
    /// Makes an iterator over the characters that `units` decode to. Calls of `next` and `next_back` may be mixed.
    pub fn new(units: U) -> Chars<U>
        ensures left { result ≡ U.units units }
        ensures spells { let first = first_in U.encoding in
            Spells (TakesFirst first) result (decoded_text first (U.units units)) }
        ensures spells_back { let first = first_in U.encoding in
            Spells (TakesLast first) result (reverse (decoded_text first (U.units units))) }
    {
        Chars { units }
    }

    /// Returns the units that aren't taken yet.
    pub fn as_slice(&self) -> U
        ensures { U.units result ≡ self.now }
    {
        self.units
    }
}

impl<U: Units> Iterator for Chars<U> {
    type Item = char;

    ghost next_gives = { TakesFirst (first_in U.encoding) };

    ghost remaining = { λ units. at_most (length units) };

    #[inline(always)]
    fn next(&mut self) -> Option<char> {
        let step = self.units.first_step()?;
        self.units = self.units.after(step.width);
        Some(step.character)
    }
}

impl<U: Units> DoubleEndedIterator for Chars<U> {
    ghost next_back_gives = { TakesLast (first_in U.encoding) };

    fn next_back(&mut self) -> Option<char> {
        let step = self.units.last_step()?;
        self.units = self.units.before(self.units.len() - step.width);
        Some(step.character)
    }
}
