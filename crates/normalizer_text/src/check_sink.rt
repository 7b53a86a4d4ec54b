//! Sinks that take only the units that are expected. They compare a form with the input that it is made from.
ghost use Rattle.std.specs.Prelude.{◌≡◌, ◌≤◌, ◌∷◌, [], length, Decides};
ghost use Rattle.normalizer_text.specs.CheckSinks.{
  ChangesNothing,
  ExpectsTheSame,
  IsEndOfPiece,
  IsUnexpected,
};
ghost use Rattle.normalizer_text.specs.Encodings.{encoded_in};
ghost use Rattle.normalizer_text.specs.Outputs.{AnswersUnits, NoHint};

use crate::output::Output;
use crate::sink::SinkError;
use crate::units::Units;
use std::marker::Model;

/// Units that can be compared with others from a position on: their contents, never their addresses.
pub trait Expected: Units {
    /// Returns the end of a piece that begins at the position, if it is there. Positions count units.
    fn end_of_piece(self, position: usize, piece: Self) -> Option<usize>
        requires { position ≤ length (Self.units self) }
        ensures { IsEndOfPiece (Self.units self) position (Self.units piece) result };

    /// Returns the end of a character that begins at the position, if it is there.
    #[inline(always)]
    fn end_of_char(self, position: usize, c: char) -> Option<usize>
        requires { position ≤ length (Self.units self) }
        ensures { IsEndOfPiece (Self.units self) position (encoded_in Self.encoding (c ∷ [])) result }
    {
        if position == self.len() {
            return None;
        }
        let step = self.step_at(position);
        if step.character == c && !step.is_error {
            Some(position + step.width)
        } else {
            None
        }
    }
}

/// Returns the end of a piece that begins at the position, if it is there.
fn end_of<T: Copy + Eq>(expected: &[T], position: usize, piece: &[T]) -> Option<usize>
    requires within { position ≤ length expected.now }
    requires decides { (a b : T) → Decides (T.eq a b) (a ≡ b) }
    ensures { IsEndOfPiece expected.now position piece.now result }
{
    if expected[position..].starts_with(piece) {
        Some(position + piece.len())
    } else {
        None
    }
}

/// A sink that takes units if they are the next ones expected, and refuses all others. If it refuses, it is unchanged.
/// It takes no memory.
#[derive(Drop)]
pub struct IsNormalizedSink<U: Expected> {
    expected: U,
    place: usize,
}

/// A sink that expects a text.
pub type IsNormalizedSinkStr<'a> = IsNormalizedSink<&'a str>;

/// A sink that expects bytes.
pub type IsNormalizedSinkUtf8<'a> = IsNormalizedSink<&'a [u8]>;

/// A sink that expects 16-bit units.
pub type IsNormalizedSinkUtf16<'a> = IsNormalizedSink<&'a [u16]>;

impl<U: Expected> Model for IsNormalizedSink<U> {
    ghost use Rattle.std.specs.Prelude.{◌≤◌, length, take, drop};
    ghost use Rattle.normalizer_text.specs.CheckSinks.{Expectation};

    ghost Value = { Expectation };

    ghost view = { λ sink. let units = U.units sink.expected in
        record { came = take sink.place units; remaining = drop sink.place units } };

    ghost invariant = { λ sink. sink.place ≤ length (U.units sink.expected) };
}

impl<U: Expected> IsNormalizedSink<U> {
    /// Makes a sink that expects these units.
    pub fn new(expected: U) -> Self
        ensures { result ≡ record { came = []; remaining = U.units expected } }
    {
        IsNormalizedSink { expected, place: 0 }
    }

    /// Returns how many of the expected units are still to come.
    pub fn remaining_len(&self) -> usize
        ensures { result ≡ length self.now.remaining }
    {
        self.expected.len() - self.place
    }
}

impl<U: Expected> Output<U> for IsNormalizedSink<U> {
    ghost text_taken = { λ sink. sink.came };

    ghost refusal = { ExpectsTheSame };

    ghost refusal_effect = { ChangesNothing };

    ghost refuses = { IsUnexpected };

    ghost length_hint = { NoHint };

    fn begin(&mut self, _len: usize) -> Result<(), SinkError> {
        Ok(())
    }

    fn write_piece(&mut self, piece: U) -> Result<(), SinkError> {
        match self.expected.end_of_piece(self.place, piece) {
            Some(end) => {
                self.place = end;
                Ok(())
            }
            None => Err(SinkError),
        }
    }

    fn write_char(&mut self, c: char) -> Result<(), SinkError> {
        match self.expected.end_of_char(self.place, c) {
            Some(end) => {
                self.place = end;
                Ok(())
            }
            None => Err(SinkError),
        }
    }
}

impl<'a> Expected for &'a str {
    fn end_of_piece(self, position: usize, piece: &'a str) -> Option<usize> {
        end_of(self.as_bytes(), position, piece.as_bytes())
    }
}

impl<'a> Expected for &'a [u8] {
    fn end_of_piece(self, position: usize, piece: &'a [u8]) -> Option<usize> {
        end_of(self, position, piece)
    }
}

impl<'a> Expected for &'a [u16] {
    fn end_of_piece(self, position: usize, piece: &'a [u16]) -> Option<usize> {
        end_of(self, position, piece)
    }
}
