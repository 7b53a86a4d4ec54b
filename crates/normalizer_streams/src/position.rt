//! Lines and bytes in a line, from 1, as reports name them.
ghost use Rattle.std.specs.Prelude.{◌≡◌, ◌≤◌, ◌==◌, ◌++◌, ℕ, List, [], count_by, length};
ghost use Rattle.normalizer_streams.specs.Positions.{bytes_before, IsPositionAfter};
ghost use Rattle.normalizer_streams.specs.inner.Watches.{IsCursorAfter};

/// Where something is in a file: its line, and its first byte in that line, both from 1. Lines end with U+000A. No
/// count passes 2^64 - 1.
#[derive(Clone, Copy, Debug, PartialEq, Eq)]
pub struct Position {
    /// The number of the line.
    pub line: usize,
    /// The number of the byte in the line.
    pub byte: usize,
}

/// The number of a line, and how many bytes of it were passed.
#[derive(Clone, Copy)]
pub(crate) struct Cursor {
    line: usize,
    bytes: usize,
}

impl Cursor {
    /// At the beginning.
    pub(crate) fn new() -> Cursor
        ensures { IsCursorAfter [] result }
    {
        Cursor { line: 1, bytes: 0 }
    }

    /// Goes past bytes, many at a time.
    pub(crate) fn advance_over(&mut self, bytes: &[u8])
        ensures { (front : List ℕ) → IsCursorAfter front self.old → IsCursorAfter (front ++ bytes.now) self.new }
    {
        let last = bytes_before(bytes);
        self.line = self.line.saturating_add(feeds(bytes));
        if last < bytes.len() {
            self.bytes = last;
        } else {
            self.bytes = self.bytes.saturating_add(last);
        }
    }

    /// The position there.
    pub(crate) fn position(self) -> Position
        ensures { (front : List ℕ) → IsCursorAfter front self → IsPositionAfter front result }
    {
        Position {
            line: self.line,
            byte: self.bytes.saturating_add(1),
        }
    }
}

/// How many line feeds bytes have.
fn feeds(bytes: &[u8]) -> usize
    ensures { result ≡ count_by (λ b. b == 0x0A) bytes.now }
{
    bytes.iter().filter(|b| **b == b'\n').count()
}

/// How many bytes come after the last line feed.
fn bytes_before(bytes: &[u8]) -> usize
    ensures value { result ≡ bytes_before bytes.now }
    ensures within { result ≤ length bytes.now }
{
    bytes.iter().rev().take_while(|b| **b != b'\n').count()
}
