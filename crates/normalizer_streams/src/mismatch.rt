//! The first place at which a source isn't already normalized.
ghost use Rattle.std.specs.Prelude.{◌≡◌, ◌⊎◌, ◌≤◌, ◌++◌, ℕ, List, length, take, unwrap_or, IfErr, IfNone, IfOk};
ghost use Rattle.std.specs.Prelude.{IfSome, IsErrOf, MatchOption};
ghost use Rattle.icu_normalizer.specs.AnyNormalizers.{kind_by, made_by, reading_of};
ghost use Rattle.normalizer_io.specs.Transfer.{IsUnrefused};
ghost use Rattle.normalizer_streams.specs.IllFormed.{Ends, IsFirstIllFormed};
ghost use Rattle.normalizer_streams.specs.Mismatches.{Compares, IsComparison, IsTextOf};
ghost use Rattle.normalizer_streams.specs.Streams.{IsEndless};
ghost use Rattle.normalizer_streams.specs.declared.ill_formed.ErrorMode.{ErrorMode};
ghost use Rattle.normalizer_streams.specs.inner.Agreements.{Agrees, AgreesFurther, IsPieceCompared};
ghost use Rattle.normalizer_streams.specs.inner.Watches.{IsCursorAfter};

use crate::carried::Carried;
use crate::ill_formed::{ErrorMode, first_ill_formed};
use crate::position::{Cursor, Position};
use crate::settled::last_settled;
use icu_normalizer::AnyNormalizer;
use normalizer_io::{Source, TransferError};
use std::alloc::Global;

/// What is cut short of a character has fewer bytes.
const LONGEST_SEQUENCE: usize = 4;

/// The first place at which a text differs from its form.
#[derive(Clone, Copy, Debug, PartialEq, Eq)]
pub struct Mismatch {
    /// Its place.
    pub position: Position,
    /// The character there: U+FFFD if it is an ill-formed sequence.
    pub found: char,
    /// The character of the form that is wanted there.
    pub wanted: char,
}

/// How a text compares with its form.
#[derive(Clone, Copy, Debug, PartialEq, Eq)]
pub enum Comparison {
    /// It is well-formed and already normalized.
    Normalized,
    /// It isn't, from here on.
    Differs(Mismatch),
    /// An ill-formed sequence, which is fatal, begins there. What comes before it is already normalized.
    Stopped(Position),
}

/// Reads up to the first block that isn't well-formed and already normalized, and returns the first mismatch. If
/// ill-formed input is fatal, the text ends before the first ill-formed sequence. Only a run of characters without a
/// boundary between them takes more memory than a block of 32 KiB.
///
/// # Errors
/// - `Read` if a read failed, or the source has no end: after 2^64 - 1 blocks.
/// - `Memory` if an allocation failed.
pub fn first_mismatch<R: Source>(
    alloc: Global,
    mode: ErrorMode,
    normalizer: &AnyNormalizer,
    reader: &mut R,
) -> Result<Comparison, TransferError>
    ensures compared { IfOk result (IsComparison mode (reading_of normalizer.now) (kind_by normalizer.now)
        (R.bytes_left reader.old)) }
    ensures errors { IfErr result (λ error. (error ≡ TransferError.Read) ⊎ (error ≡ TransferError.Memory)) }
    ensures read { IsErrOf result TransferError.Read →
        R.refusal reader.old reader.new ⊎ IsEndless (R.bytes_left reader.old) }
    ensures read_ahead { ¬ IsErrOf result TransferError.Read → IsUnrefused R.refusal reader.old reader.new }
{
    let mut carried = Carried::new(alloc);
    let mut cursor = Cursor::new();
    // A loop is proved to end, so this one counts its blocks.
    for _ in 0..u64::MAX {
        let searched = carried.bytes().len();
        if !carried.read_block(reader)? {
            let last = compare_piece(mode, normalizer, carried.bytes(), &mut cursor)?;
            return Ok(last.unwrap_or(Comparison::Normalized));
        }
        let found = compare_settled(mode, normalizer, &mut carried, searched, &mut cursor)?;
        if let Some(found) = found {
            return Ok(found);
        }
    }
    Err(TransferError::Read)
}

/// Compares what is settled of the bytes that are carried with its form, and keeps the rest. All places up to
/// `searched` but for the last few have been searched.
fn compare_settled(
    mode: ErrorMode,
    normalizer: &AnyNormalizer,
    carried: &mut Carried,
    searched: usize,
    cursor: &mut Cursor,
) -> Result<Option<Comparison>, TransferError>
    ensures compared { IfOk result (λ found. (passed : List ℕ) →
        Agrees (made_by normalizer.now) passed carried.old cursor.old → MatchOption found
        (AgreesFurther (made_by normalizer.now) passed carried.old carried.new cursor.new)
        (λ found. (next : List ℕ) → Compares mode (reading_of normalizer.now) (kind_by normalizer.now)
        (passed ++ (carried.old ++ next)) found)) }
    ensures errors { IfErr result (λ error. error ≡ TransferError.Memory) }
{
    let from = searched.saturating_sub(LONGEST_SEQUENCE);
    let bytes = carried.bytes();
    let Some(place) = last_settled(normalizer, bytes, from) else {
        return Ok(None);
    };
    let found = compare_piece(mode, normalizer, &bytes[..place], cursor)?;
    carried.remove_front(place);
    Ok(found)
}

/// Compares a piece with its form, and goes past it. Returns where it differs, or where its text ends.
fn compare_piece(
    mode: ErrorMode,
    normalizer: &AnyNormalizer,
    piece: &[u8],
    cursor: &mut Cursor,
) -> Result<Option<Comparison>, TransferError>
    ensures compared { IfOk result (λ found. (passed : List ℕ) → IsCursorAfter passed cursor.old →
        IsPieceCompared mode (made_by normalizer.now) passed piece.now found cursor.new) }
    ensures errors { IfErr result (λ error. error ≡ TransferError.Memory) }
{
    let end = end_of_text(mode, piece);
    let text = &piece[..end.unwrap_or(piece.len())];
    let Ok(offence) = normalizer.as_borrowed().first_offence_utf8(text) else {
        return Err(TransferError::Memory);
    };
    match (offence, end) {
        (Some(offence), _) => {
            cursor.advance_over(&text[..offence.place]);
            Ok(Some(Comparison::Differs(Mismatch {
                position: cursor.position(),
                found: offence.found,
                wanted: offence.wanted,
            })))
        }
        (None, Some(_)) => {
            cursor.advance_over(text);
            Ok(Some(Comparison::Stopped(cursor.position())))
        }
        (None, None) => {
            cursor.advance_over(text);
            Ok(None)
        }
    }
}

/// Where the text of a piece ends, if an ill-formed sequence is in it and is fatal.
fn end_of_text(mode: ErrorMode, piece: &[u8]) -> Option<usize>
    ensures within { IfSome result (λ end. end ≤ length piece.now) }
    ensures text { IsTextOf mode piece.now (take (unwrap_or result (length piece.now)) piece.now) }
    ensures fatal { IfSome result (λ end. mode ≡ ErrorMode.Fatal) }
    ensures first { IfSome result (λ end. IsFirstIllFormed piece.now (take end piece.now)) }
{
    match mode {
        ErrorMode::Replacement => None,
        ErrorMode::Fatal => first_ill_formed(piece),
    }
}
