//! Outputs of text that is made from an input: they take pieces of the input in its own encoding, and characters.
ghost use Rattle.std.specs.Prelude.{◌≡◌, ◌∷◌, ℕ, List, [], Result, ⊤, encode_utf8_all};
ghost use Rattle.normalizer_text.specs.Encodings.{encoded_in, first_in};
ghost use Rattle.normalizer_text.specs.Outputs.{AnswersHint, AnswersUnits, NothingKnown, NoHint, SinkAnswers};
ghost use Rattle.normalizer_text.specs.DecodingSteps.{IsWellFormed};
ghost use Rattle.normalizer_text.specs.Utf16.{encode_utf16_all};

use crate::sink::{SinkError, Write, Write16};
use crate::units::Units;
use crate::utf8::text_of;

/// An output of pieces of an input, and of characters in the encoding of that input.
pub trait Output<U: Units> {
    ghost use Rattle.normalizer_text.specs.declared.sink.SinkError.{SinkError};

    /// The units that it has taken.
    ghost text_taken: { Self → List ℕ };

    /// The fault relation: it holds from the state before a refused call to the state after it, and also from the
    /// state before any calls that succeeded just before that one.
    ghost refusal: { Self → Self → Type 0 };

    /// What a refused call may leave, from the state before it to the state after it.
    ghost refusal_effect: { Self → Self → Type 0 };

    /// What is known of the state before a refused call, and of the units refused.
    ghost refuses: { Self → List ℕ → Type 0 };

    /// What a hint of this many units may return, from the state before it to the state after it.
    ghost length_hint: { Self → ℕ → Result ⊤ SinkError → Self → Type 0 };

    /// Receives the number of units of the input, before any of them.
    ///
    /// # Errors
    /// [`SinkError`] if the output refuses the hint.
    fn begin(&mut self, len: usize) -> Result<(), SinkError>
        ensures { AnswersHint text_taken refusal refusal_effect refuses length_hint self.old len result self.new };

    /// Appends a piece of the input that is well-formed by itself.
    ///
    /// # Errors
    /// [`SinkError`] if the output refuses the piece.
    fn write_piece(&mut self, piece: U) -> Result<(), SinkError>
        requires { IsWellFormed (first_in U.encoding) (U.units piece) }
        ensures { AnswersUnits text_taken refusal refusal_effect refuses self.old (U.units piece) result self.new };

    /// Appends a character.
    ///
    /// # Errors
    /// [`SinkError`] if the output refuses the character.
    fn write_char(&mut self, c: char) -> Result<(), SinkError>
        ensures { AnswersUnits text_taken refusal refusal_effect refuses
            self.old (encoded_in U.encoding (c ∷ [])) result self.new };
}

/// A sink of text takes the pieces of a text.
impl<'a, W: Write> Output<&'a str> for W {
    ghost text_taken = { W.text_taken };

    ghost refusal = { W.refusal };

    ghost refusal_effect = { W.refusal_effect };

    ghost refuses = { NothingKnown };

    ghost length_hint = { NoHint };

    fn begin(&mut self, _len: usize) -> Result<(), SinkError>
        ensures { AnswersHint W.text_taken W.refusal W.refusal_effect NothingKnown NoHint
            self.old _len result self.new }
    {
        Ok(())
    }

    fn write_piece(&mut self, piece: &'a str) -> Result<(), SinkError> {
        self.write_str(piece)
    }

    fn write_char(&mut self, c: char) -> Result<(), SinkError>
        ensures { SinkAnswers W.text_taken W.refusal W.refusal_effect
            self.old (encode_utf8_all (c ∷ [])) result self.new }
    {
        <W as Write>::write_char(self, c)
    }
}

/// A sink of text takes the well-formed pieces of bytes.
impl<'a, W: Write> Output<&'a [u8]> for W {
    ghost text_taken = { W.text_taken };

    ghost refusal = { W.refusal };

    ghost refusal_effect = { W.refusal_effect };

    ghost refuses = { NothingKnown };

    ghost length_hint = { NoHint };

    fn begin(&mut self, _len: usize) -> Result<(), SinkError>
        ensures { AnswersHint W.text_taken W.refusal W.refusal_effect NothingKnown NoHint
            self.old _len result self.new }
    {
        Ok(())
    }

    fn write_piece(&mut self, piece: &'a [u8]) -> Result<(), SinkError> {
        self.write_str(text_of(piece))
    }

    fn write_char(&mut self, c: char) -> Result<(), SinkError>
        ensures { SinkAnswers W.text_taken W.refusal W.refusal_effect
            self.old (encode_utf8_all (c ∷ [])) result self.new }
    {
        <W as Write>::write_char(self, c)
    }
}

/// A sink of 16-bit units takes their well-formed pieces.
impl<'a, W: Write16> Output<&'a [u16]> for W {
    ghost text_taken = { W.text_taken };

    ghost refusal = { W.refusal };

    ghost refusal_effect = { W.refusal_effect };

    ghost refuses = { NothingKnown };

    ghost length_hint = { W.length_hint };

    fn begin(&mut self, len: usize) -> Result<(), SinkError>
        ensures { AnswersHint W.text_taken W.refusal W.refusal_effect NothingKnown W.length_hint
            self.old len result self.new }
    {
        self.size_hint(len)
    }

    fn write_piece(&mut self, piece: &'a [u16]) -> Result<(), SinkError> {
        self.write_slice(piece)
    }

    fn write_char(&mut self, c: char) -> Result<(), SinkError>
        ensures { SinkAnswers W.text_taken W.refusal W.refusal_effect
            self.old (encode_utf16_all (c ∷ [])) result self.new }
    {
        <W as Write16>::write_char(self, c)
    }
}
