//! Normalizing into sinks that have little room, note or refuse a hint, and count the writes.
ghost use Rattle.std.specs.Prelude.{◌≡◌, ⊤, string_bytes};
ghost use Rattle.icu_normalizer.specs.Sinks.{AnyFault};

use crate::over_rows::{nfd, normalizer};
use icu_normalizer::sink::{SinkError, Write, Write16};
use icu_normalizer::{NormalForm, NormalizeError};
use std::alloc::Global;

/// Takes this many bytes, and refuses the whole of a text that would exceed them. It counts the writes.
#[derive(Drop)]
struct Narrow {
    text: String,
    room: usize,
    writes: usize,
}

impl Write for Narrow {
    ghost text_taken = { λ s. string_bytes s.text };

    ghost refusal = { AnyFault };

    ghost refusal_effect = { λ old new. string_bytes new.text ≡ string_bytes old.text };

    fn write_str(&mut self, text: &str) -> Result<(), SinkError> {
        self.writes = self.writes.saturating_add(1);
        match self.room.checked_sub(text.len()) {
            Some(room) => {
                self.text.push_str(text).map_err(|_| SinkError)?;
                self.room = room;
                Ok(())
            }
            None => Err(SinkError),
        }
    }

    fn write_char(&mut self, c: char) -> Result<(), SinkError> {
        self.writes = self.writes.saturating_add(1);
        match self.room.checked_sub(c.len_utf8()) {
            Some(room) => {
                self.text.push(c).map_err(|_| SinkError)?;
                self.room = room;
                Ok(())
            }
            None => Err(SinkError),
        }
    }
}

fn narrow_sink(alloc: Global, room: usize) -> Narrow {
    Narrow {
        text: String::new(alloc),
        room,
        writes: 0,
    }
}

/// Notes each hint beside the number of units that were taken before it, and counts the writes.
#[derive(Drop)]
struct Noting {
    units: Vec<u16>,
    hints: Vec<(usize, usize)>,
    refuses_hints: bool,
    writes: usize,
}

impl Write16 for Noting {
    ghost text_taken = { λ s. s.units.items };

    ghost refusal = { AnyFault };

    ghost refusal_effect = { λ old new. new.units.items ≡ old.units.items };

    ghost length_hint = { λ _ _ _ _. ⊤ };

    fn size_hint(&mut self, len: usize) -> Result<(), SinkError> {
        if self.refuses_hints {
            return Err(SinkError);
        }
        self.hints
            .push((len, self.units.len()))
            .map_err(|_| SinkError)
    }

    fn write_slice(&mut self, units: &[u16]) -> Result<(), SinkError> {
        self.writes = self.writes.saturating_add(1);
        self.units.write_slice(units)
    }

    fn write_char(&mut self, c: char) -> Result<(), SinkError> {
        self.writes = self.writes.saturating_add(1);
        self.units.write_char(c)
    }
}

fn noting_sink(alloc: Global, refuses_hints: bool) -> Noting {
    Noting {
        units: Vec::new(alloc),
        hints: Vec::new(alloc),
        refuses_hints,
        writes: 0,
    }
}

/// Whether the NFD of U+1EC7 and `a` is written as far as there is room, and refused then.
fn is_cut_short(alloc: Global, room: usize, want: &str) -> Option<bool> {
    let normalizer = nfd(alloc)?;
    let mut sink = narrow_sink(alloc, room);
    let is_answered = match normalizer
        .as_borrowed()
        .normalize_to("\u{1EC7}a", &mut sink)
    {
        Ok(()) => room == 6,
        Err(NormalizeError::Sink) => room < 6,
        Err(NormalizeError::Memory) => false,
    };
    Some(is_answered && sink.text.as_str() == want)
}

/// What is written at each room.
const BEGINNINGS: [&str; 7] = [
    "",
    "e",
    "e",
    "e\u{323}",
    "e\u{323}",
    "e\u{323}\u{302}",
    "e\u{323}\u{302}a",
];

/// The first room at which something else is written.
fn wrong_room(alloc: Global) -> Option<usize> {
    (0..BEGINNINGS.len()).position(|room| is_cut_short(alloc, room, BEGINNINGS[room]) != Some(true))
}

#[test]
fn a_sink_with_little_room_holds_a_beginning(rt: HostRuntime) {
    assert_eq!(rt; wrong_room(rt.alloc()), None);
}

/// Whether the only hint is the number of units, and comes before any unit, and one that is refused ends the call with
/// nothing written.
fn hints_first(alloc: Global, form: NormalForm, units: &[u16], want: &[u16]) -> Option<bool> {
    let owned = normalizer(alloc, form)?;
    let normalizer = owned.as_borrowed();
    let mut sink = noting_sink(alloc, false);
    let mut refusing = noting_sink(alloc, true);
    let answer = normalizer.normalize_utf16_to(units, &mut refusing);
    normalizer.normalize_utf16_to(units, &mut sink).ok()?;
    Some(
        sink.hints.as_slice() == [(units.len(), 0)].as_slice()
            && sink.units.as_slice() == want
            && matches!(answer, Err(NormalizeError::Sink))
            && refusing.units.is_empty(),
    )
}

const APART: [u16; 4] = [0x65, 0x323, 0x302, 0x61];

const TOGETHER: [u16; 2] = [0x1EC7, 0x61];

#[test]
fn a_sink_is_told_the_length_first(rt: HostRuntime) {
    assert!(rt; hints_first(rt.alloc(), NormalForm::Nfd, &[], &[]) == Some(true));
    assert!(rt; hints_first(rt.alloc(), NormalForm::Nfd, &TOGETHER, &APART) == Some(true));
    assert!(rt; hints_first(rt.alloc(), NormalForm::Nfc, &[], &[]) == Some(true));
    assert!(rt; hints_first(rt.alloc(), NormalForm::Nfc, &APART, &TOGETHER) == Some(true));
}

/// Whether a normalizer takes a text as it is in each encoding, in two writes at most.
fn is_in_two_writes(alloc: Global, form: NormalForm, text: &str, units: &[u16]) -> Option<bool> {
    let owned = normalizer(alloc, form)?;
    let normalizer = owned.as_borrowed();
    let mut of_text = narrow_sink(alloc, text.len());
    let mut of_bytes = narrow_sink(alloc, text.len());
    let mut of_units = noting_sink(alloc, false);
    normalizer.normalize_to(text, &mut of_text).ok()?;
    normalizer
        .normalize_utf8_to(text.as_bytes(), &mut of_bytes)
        .ok()?;
    normalizer.normalize_utf16_to(units, &mut of_units).ok()?;
    Some(
        (of_text.writes <= 2 && of_text.text.as_str() == text)
            && (of_bytes.writes <= 2 && of_bytes.text.as_str() == text)
            && (of_units.writes <= 2 && of_units.units.as_slice() == units),
    )
}

/// Whether both forms of a thousand letters are written in two pieces at most.
fn are_letters_passed(alloc: Global) -> Option<bool> {
    let mut text = String::new(alloc);
    for _ in 0..1000 {
        text.push('a').ok()?;
    }
    let units: Vec<u16> = text.encode_utf16().collect(alloc).ok()?;
    Some(
        is_in_two_writes(alloc, NormalForm::Nfd, &text, &units)?
            && is_in_two_writes(alloc, NormalForm::Nfc, &text, &units)?,
    )
}

#[test]
fn a_text_that_nothing_changes_is_passed_in_pieces(rt: HostRuntime) {
    assert_eq!(rt; are_letters_passed(rt.alloc()), Some(true));
}
