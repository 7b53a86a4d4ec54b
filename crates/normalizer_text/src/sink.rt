//! Sinks of text, in UTF-8 or in 16-bit units. A sink may refuse a call.
ghost use Rattle.std.specs.Prelude.{
  ◌≡◌,
  ◌++◌,
  ◌+◌,
  ◌<◌,
  ◌≤◌,
  ◌∷◌,
  ℕ,
  List,
  [],
  Result,
  ⊤,
  OnErr,
  OnOk,
  length,
  encode_utf8,
  vec_len,
  vec_capacity,
  string_bytes,
  string_len,
  string_capacity,
};
ghost use Rattle.std.specs.Char.Escape.{encode_utf16};
ghost use Rattle.normalizer_text.specs.Sinks.{AnswersGrowth, AnswersWrite, AnyFault, TakesNothing};
ghost use Rattle.normalizer_text.specs.DecodingSteps.{IsWellFormed};
ghost use Rattle.normalizer_text.specs.Utf16.{first_of_utf16};

use std::alloc::Allocator;

/// The error of a sink that refused a call.
#[derive(Clone, Copy, Debug, PartialEq, Eq)]
pub struct SinkError;

/// A sink of text in UTF-8. It may refuse a call.
pub trait Write {
    /// The bytes that it has taken.
    ghost text_taken: { Self → List ℕ };

    /// The fault relation: it holds from the state before a refused call to the state after it, and also from the
    /// state before any calls that succeeded just before that one.
    ghost refusal: { Self → Self → Type 0 };

    /// What a refused call may leave, from the state before it to the state after it.
    ghost refusal_effect: { Self → Self → Type 0 };

    /// Appends a text.
    ///
    /// # Errors
    /// [`SinkError`] if the sink refuses the text.
    fn write_str(&mut self, text: &str) -> Result<(), SinkError>
        ensures { AnswersWrite text_taken refusal refusal_effect self.old text.now result self.new };

    /// Appends a character.
    ///
    /// # Errors
    /// [`SinkError`] if the sink refuses the character.
    fn write_char(&mut self, c: char) -> Result<(), SinkError>
        ensures { AnswersWrite text_taken refusal refusal_effect self.old (encode_utf8 c) result self.new };
}

/// A sink of text in UTF-16. It may refuse a call.
pub trait Write16 {
    ghost use Rattle.normalizer_text.specs.declared.sink.SinkError.{SinkError};

    /// The 16-bit units that it has taken.
    ghost text_taken: { Self → List ℕ };

    /// The fault relation: it holds from the state before a refused call to the state after it, and also from the
    /// state before any calls that succeeded just before that one.
    ghost refusal: { Self → Self → Type 0 };

    /// What a refused call may leave, from the state before it to the state after it.
    ghost refusal_effect: { Self → Self → Type 0 };

    /// What a hint of this many units may return, from the state before it to the state after it.
    ghost length_hint: { Self → ℕ → Result ⊤ SinkError → Self → Type 0 };

    /// Receives a hint that about `len` 16-bit units will come. It appends none.
    ///
    /// # Errors
    /// [`SinkError`] if the sink refuses the hint.
    fn size_hint(&mut self, len: usize) -> Result<(), SinkError>
        ensures answer { AnswersWrite text_taken refusal refusal_effect self.old [] result self.new }
        ensures none { text_taken self.new ≡ text_taken self.old }
        ensures hint { length_hint self.old len result self.new };

    /// Appends 16-bit units that are well-formed by themselves.
    ///
    /// # Errors
    /// [`SinkError`] if the sink refuses the units.
    fn write_slice(&mut self, units: &[u16]) -> Result<(), SinkError>
        requires { IsWellFormed first_of_utf16 units.now }
        ensures { AnswersWrite text_taken refusal refusal_effect self.old units.now result self.new };

    /// Appends a character.
    ///
    /// # Errors
    /// [`SinkError`] if the sink refuses the character.
    fn write_char(&mut self, c: char) -> Result<(), SinkError>
        ensures { AnswersWrite text_taken refusal refusal_effect self.old (encode_utf16 c) result self.new };
}

/// A string refuses only if a growth failed, and is then unchanged.
impl<A: Allocator> Write for String<A> {
    ghost text_taken = { string_bytes };

    ghost refusal = { AnyFault };

    ghost refusal_effect = { TakesNothing string_bytes };

    fn write_str(&mut self, text: &str) -> Result<(), SinkError>
        ensures answer { AnswersGrowth string_bytes self.old text.now result self.new }
        ensures full { OnErr result (string_capacity self.old < string_len self.old + length text.now) }
    {
        self.push_str(text).map_err(|_| SinkError)
    }

    fn write_char(&mut self, c: char) -> Result<(), SinkError>
        ensures answer { AnswersGrowth string_bytes self.old (encode_utf8 c) result self.new }
        ensures full { OnErr result (string_capacity self.old < string_len self.old + length (encode_utf8 c)) }
    {
        self.push(c).map_err(|_| SinkError)
    }
}

/// A vector refuses only if a growth failed, and is then unchanged. A hint reserves room.
impl<A: Allocator> Write16 for Vec<u16, A> {
    ghost text_taken = { λ v. v.items };

    ghost refusal = { AnyFault };

    ghost refusal_effect = { TakesNothing (λ v. v.items) };

    ghost length_hint = { λ _ _ _ _. ⊤ };

    fn size_hint(&mut self, len: usize) -> Result<(), SinkError>
        ensures answer { AnswersGrowth (λ v. v.items) self.old [] result self.new }
        ensures none { self.new.items ≡ self.old.items }
        ensures room { OnOk result (vec_len self.old + len ≤ vec_capacity self.new) }
        ensures full { OnErr result (vec_capacity self.old < vec_len self.old + len) }
    {
        self.reserve(len).map_err(|_| SinkError)
    }

    fn write_slice(&mut self, units: &[u16]) -> Result<(), SinkError>
        ensures answer { AnswersGrowth (λ v. v.items) self.old units.now result self.new }
        ensures full { OnErr result (vec_capacity self.old < vec_len self.old + length units.now) }
    {
        self.extend_from_slice(units).map_err(|_| SinkError)
    }

    fn write_char(&mut self, c: char) -> Result<(), SinkError>
        ensures answer { AnswersGrowth (λ v. v.items) self.old (encode_utf16 c) result self.new }
        ensures full { OnErr result (vec_capacity self.old < vec_len self.old + length (encode_utf16 c)) }
    {
        if let Ok(unit) = u16::try_from(c as u32) {
            return self.push(unit).map_err(|_| SinkError);
        }
        let mut buffer = [0; 2];
        self.extend_from_slice(c.encode_utf16(&mut buffer))
            .map_err(|_| SinkError)
    }
}
