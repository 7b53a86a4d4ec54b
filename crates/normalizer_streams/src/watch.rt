//! What is kept of the bytes whose form was written: how many ill-formed sequences they had, or where they end.
ghost use Rattle.std.specs.Prelude.{◌≡◌, ◌≤◌, ℕ, List, [], length, IfNone, IfSome};
ghost use Rattle.normalizer_streams.specs.declared.ill_formed.ErrorMode.{ErrorMode};
ghost use Rattle.normalizer_streams.specs.inner.Watches.{IsNoted, Joins, Watches};

use crate::ill_formed::{Ending, ErrorMode, first_ill_formed, ill_formed_in};
use crate::position::{Cursor, Position};

/// What is kept of the bytes whose form was written.
#[derive(Clone, Copy)]
pub(crate) struct Watch {
    mode: ErrorMode,
    found: usize,
    cursor: Cursor,
}

/// A place in a piece at which the text ends.
#[derive(Clone, Copy)]
pub(crate) struct Stop {
    pub(crate) place: usize,
    pub(crate) position: Position,
}

impl Watch {
    pub(crate) fn new(mode: ErrorMode) -> Watch
        ensures { Watches mode result [] }
    {
        Watch {
            mode,
            found: 0,
            cursor: Cursor::new(),
        }
    }

    /// Takes note of a piece that comes next. Returns where the text ends in it, if it does.
    pub(crate) fn note(&mut self, piece: &[u8]) -> Option<Stop>
        ensures within { IfSome result (λ stop. stop.place ≤ length piece.now) }
        ensures noted { (mode : ErrorMode) (passed : List ℕ) → Joins passed piece.now →
            Watches mode self.old passed → IsNoted mode self.new passed piece.now result }
    {
        match self.mode {
            ErrorMode::Replacement => {
                self.found = self.found.saturating_add(ill_formed_in(piece));
                None
            }
            ErrorMode::Fatal => self.advance(piece),
        }
    }

    /// Goes past a piece, up to its first ill-formed sequence.
    fn advance(&mut self, piece: &[u8]) -> Option<Stop>
        requires { self.old.mode ≡ ErrorMode.Fatal }
        ensures within { IfSome result (λ stop. stop.place ≤ length piece.now) }
        ensures noted { (passed : List ℕ) → Joins passed piece.now → Watches ErrorMode.Fatal self.old passed →
            IsNoted ErrorMode.Fatal self.new passed piece.now result }
    {
        match first_ill_formed(piece) {
            None => {
                self.cursor.advance_over(piece);
                None
            }
            Some(place) => {
                self.cursor.advance_over(&piece[..place]);
                let position = self.cursor.position();
                Some(Stop { place, position })
            }
        }
    }

    /// How the stream ended, after its last piece.
    pub(crate) fn ending(self, stop: Option<Stop>) -> Ending
        ensures whole { IfNone stop (result ≡ Ending.Whole self.found) }
        ensures stopped { IfSome stop (λ stop. result ≡ Ending.Stopped stop.position) }
    {
        match stop {
            Some(stop) => Ending::Stopped(stop.position),
            None => Ending::Whole(self.found),
        }
    }
}
