//! The first mismatch of an input.

/// The first place at which an input differs from its normal form.
#[derive(Clone, Copy, PartialEq, Eq, Debug)]
pub struct Offence {
    /// Its offset in units of the input: bytes, or 16-bit units.
    pub place: usize,
    /// The character found there: U+FFFD if the units are ill-formed.
    pub found: char,
    /// The character expected there, which the form has.
    pub wanted: char,
}
