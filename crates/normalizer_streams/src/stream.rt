//! A source read block by block, and the form of all its bytes.
ghost use Rattle.std.specs.Prelude.{◌≡◌, ◌⊎◌, ◌<◌, ◌≤◌, ◌++◌, true, false, ℕ, List, Option, [], drop, length, take};
ghost use Rattle.std.specs.Prelude.{vec_len, IfErr, IfOk, IfSome, IsErrOf, MatchOption, OnErr, OnOk};
ghost use Rattle.std.specs.Io.KnownBytes.{Appends, IsAtEnd, Keeps};
ghost use Rattle.normalizer_io.specs.Transfer.{AppendsFront, IsUnrefused};
ghost use Rattle.normalizer_streams.specs.declared.ill_formed.ErrorMode.{ErrorMode};
ghost use Rattle.normalizer_streams.specs.declared.watch.Stop.{Stop};
ghost use Rattle.normalizer_streams.specs.declared.watch.Watch.{Watch};
ghost use Rattle.normalizer_streams.specs.Streams.{form_by, may_continue, IsEndless, IsFormCutOff, IsFormWritten};
ghost use Rattle.normalizer_streams.specs.Streams.{IsRun, IsWrittenToRun};
ghost use Rattle.normalizer_streams.specs.inner.Moves.{IsCut, IsPassed, Passes, Stops};
ghost use Rattle.normalizer_streams.specs.inner.Watches.{text_in, IsNoted, Joins, Watches};

use crate::carried::Carried;
use crate::ill_formed::{Ending, ErrorMode};
use crate::settled::last_settled;
use crate::watch::{Stop, Watch};
use icu_normalizer::AnyNormalizer;
use normalizer_io::{Source, Target, TransferError, write_all};
use std::alloc::Global;

/// What is cut short of a character has fewer bytes.
const LONGEST_SEQUENCE: usize = 4;

/// Reads to the end, and writes the form of the text that all the bytes decode to. Each maximal ill-formed subpart is written
/// as U+FFFD, and counted. If ill-formed input is fatal, the text ends before the first such sequence, whose position is
/// returned, and nothing more is read. What no later byte can change is written after each block of 32 KiB at most, so
/// that only a run of characters without a boundary between them takes more memory.
///
/// # Errors
/// - `Read` if a read failed, or the source has no end: after 2^64 - 1 blocks.
/// - `Write` if a write failed.
/// - `Memory` if an allocation failed.
///
/// After each, a beginning of the form was written, and nothing more is read or written. After `Read` that is the form
/// of all that was read but the last run of characters that may continue one another.
pub fn write_form<R: Source, W: Target>(
    alloc: Global,
    mode: ErrorMode,
    normalizer: &AnyNormalizer,
    reader: &mut R,
    writer: &mut W,
) -> Result<Ending, TransferError>
    ensures form { IfOk result (IsFormWritten mode (form_by normalizer.now)
        (R.bytes_left reader.old) (W.bytes_taken writer.old) (W.bytes_taken writer.new)) }
    ensures end { IfOk result (λ ending. (count : ℕ) →
        ending ≡ Ending.Whole count → IsAtEnd (R.bytes_left reader.new)) }
    ensures front { OnErr result (IsFormCutOff mode (form_by normalizer.now)
        (R.bytes_left reader.old) (W.bytes_taken writer.old) (W.bytes_taken writer.new)) }
    ensures read { IsErrOf result TransferError.Read →
        R.refusal reader.old reader.new ⊎ IsEndless (R.bytes_left reader.old) }
    ensures so_far { IsErrOf result TransferError.Read →
        IsWrittenToRun (form_by normalizer.now) (may_continue normalizer.now)
        (R.bytes_left reader.old) (R.bytes_left reader.new) (W.bytes_taken writer.old) (W.bytes_taken writer.new) }
    ensures write { IsErrOf result TransferError.Write → W.refusal writer.old writer.new }
    ensures read_ahead { ¬ IsErrOf result TransferError.Read → IsUnrefused R.refusal reader.old reader.new }
    ensures ahead { ¬ IsErrOf result TransferError.Write → IsUnrefused W.refusal writer.old writer.new }
{
    let mut carried = Carried::new(alloc);
    let mut form = String::new(alloc);
    let mut watch = Watch::new(mode);
    // A loop is proved to end, so this one counts its blocks.
    for _ in 0..u64::MAX {
        let searched = carried.bytes().len();
        if !carried.read_block(reader)? {
            let stop = write_piece(normalizer, carried.bytes(), &mut watch, &mut form, writer)?;
            return Ok(watch.ending(stop));
        }
        let stop = write_settled(
            normalizer,
            &mut carried,
            searched,
            &mut watch,
            &mut form,
            writer,
        )?;
        if let Some(stop) = stop {
            return Ok(Ending::Stopped(stop.position));
        }
    }
    Err(TransferError::Read)
}

/// Writes the form of what is settled of the bytes that are carried, and keeps the rest. All places up to `searched`
/// but for the last few have been searched. Returns the place at which the text ends, if it does.
fn write_settled<W: Target>(
    normalizer: &AnyNormalizer,
    carried: &mut Carried,
    searched: usize,
    watch: &mut Watch,
    form: &mut String,
    writer: &mut W,
) -> Result<Option<Stop>, TransferError>
    ensures moved { IfOk result (λ stop. (mode : ErrorMode) (passed written : List ℕ) →
        IsPassed (form_by normalizer.now) passed written carried.old →
        Watches mode watch.old passed → MatchOption stop
        (Passes mode (form_by normalizer.now) watch.new
        (W.bytes_taken writer.old) (W.bytes_taken writer.new) passed written carried.old carried.new)
        (λ stop. (next : List ℕ) → Stops mode (form_by normalizer.now) stop.position
        (W.bytes_taken writer.old) (W.bytes_taken writer.new) passed written carried.old next)) }
    ensures run { IsRun (may_continue normalizer.now) (take searched carried.old) →
        OnOk result (IsRun (may_continue normalizer.now) carried.new) }
    ensures front { OnErr result ((mode : ErrorMode) (passed written next : List ℕ) →
        IsPassed (form_by normalizer.now) passed written carried.old →
        Watches mode watch.old passed → IsCut mode (form_by normalizer.now)
        (W.bytes_taken writer.old) (W.bytes_taken writer.new) passed written (carried.old ++ next)) }
    ensures errors { IfErr result (λ error. (error ≡ TransferError.Write) ⊎ (error ≡ TransferError.Memory)) }
    ensures write { IsErrOf result TransferError.Write → W.refusal writer.old writer.new }
    ensures memory { IsErrOf result TransferError.Memory → writer.new ≡ writer.old }
    ensures ahead { OnOk result (IsUnrefused W.refusal writer.old writer.new) }
{
    let from = searched.saturating_sub(LONGEST_SEQUENCE);
    let bytes = carried.bytes();
    let Some(place) = last_settled(normalizer, bytes, from) else {
        return Ok(None);
    };
    let stop = write_piece(normalizer, &bytes[..place], watch, form, writer)?;
    carried.remove_front(place);
    Ok(stop)
}

/// Writes the form of a piece, up to where the text ends, which it returns. The form is made in a buffer.
fn write_piece<W: Target>(
    normalizer: &AnyNormalizer,
    piece: &[u8],
    watch: &mut Watch,
    form: &mut String,
    writer: &mut W,
) -> Result<Option<Stop>, TransferError>
    ensures noted { IfOk result (λ stop. (mode : ErrorMode) (passed : List ℕ) → Joins passed piece.now →
        Watches mode watch.old passed → IsNoted mode watch.new passed piece.now stop) }
    ensures form { IfOk result (λ stop. Appends (W.bytes_taken writer.old) (W.bytes_taken writer.new)
        (form_by normalizer.now (text_in piece.now stop))) }
    ensures front { IsErrOf result TransferError.Write → (stop : Option Stop) × (noted : Watch)
        × ((mode : ErrorMode) (passed : List ℕ) → Joins passed piece.now → Watches mode watch.old passed →
        IsNoted mode noted passed piece.now stop)
        × AppendsFront (W.bytes_taken writer.old) (W.bytes_taken writer.new)
        (form_by normalizer.now (text_in piece.now stop)) }
    ensures errors { IfErr result (λ error. (error ≡ TransferError.Write) ⊎ (error ≡ TransferError.Memory)) }
    ensures write { IsErrOf result TransferError.Write → W.refusal writer.old writer.new }
    ensures memory { IsErrOf result TransferError.Memory → writer.new ≡ writer.old }
    ensures ahead { OnOk result (IsUnrefused W.refusal writer.old writer.new) }
{
    let stop = watch.note(piece);
    form.clear();
    let Ok(()) = normalizer.append_form(text_in(piece, stop), form) else {
        return Err(TransferError::Memory);
    };
    write_all(writer, form.as_bytes())?;
    Ok(stop)
}

/// The part of a piece whose form is written.
pub(crate) fn text_in(piece: &[u8], stop: Option<Stop>) -> &[u8]
    requires { IfSome stop (λ stop. stop.place ≤ length piece.now) }
    ensures { result.now ≡ text_in piece.now stop }
{
    match stop {
        None => piece,
        Some(stop) => &piece[..stop.place],
    }
}
