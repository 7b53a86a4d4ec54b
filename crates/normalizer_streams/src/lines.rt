//! What is replied to the lines of a source, which is read block by block.
ghost use Rattle.std.specs.Prelude.{◌≡◌, ◌⊎◌, ◌+◌, ◌-◌, ◌^◌, ◌<◌, ◌≤◌, ◌∷◌, ◌++◌, true, false, ℕ, List, [], length};
ghost use Rattle.std.specs.Prelude.{take, IfErr, IfNone, IfOk, IfSome, IsErrOf, None, OnErr, OnOk};
ghost use Rattle.std.specs.Io.KnownBytes.{Appends, IsAtEnd};
ghost use Rattle.normalizer_io.specs.Transfer.{AppendsFront, IsUnrefused};
ghost use Rattle.normalizer_streams.specs.Replies.{feeds, is_nothing, IsReplyWritten};
ghost use Rattle.normalizer_streams.specs.IllFormed.{decoded};
ghost use Rattle.normalizer_streams.specs.Streams.{IsEndless, IsFormCutOff};
ghost use Rattle.normalizer_streams.specs.declared.ill_formed.ErrorMode.{ErrorMode};
ghost use Rattle.normalizer_streams.specs.declared.watch.Stop.{Stop};
ghost use Rattle.normalizer_streams.specs.inner.LineMoves.{EndsLine, IsPieceCutOff, IsPieceReplied};
ghost use Rattle.normalizer_streams.specs.inner.Watches.{Joins, Watches};

use crate::carried::Carried;
use crate::ill_formed::{Ending, ErrorMode};
use crate::stream::text_in;
use crate::watch::{Stop, Watch};
use icu_normalizer::Chars;
use normalizer_io::{Source, Target, TransferError, write_all};
use std::alloc::{AllocError, Global};

/// What replies to the lines of a text.
pub trait LineTask {
    /// The reply to a text that comes after so many lines.
    ghost reply: { Self → ℕ → List ℕ → List ℕ };

    /// Appends the reply to a text that comes after so many lines.
    ///
    /// # Errors
    /// If an allocation failed.
    fn append_reply(
        &self,
        alloc: Global,
        lines: usize,
        text: &[char],
        output: &mut Vec<u8>,
    ) -> Result<(), AllocError>
        requires { lines + length text.now < 2 ^ 64 - 1 }
        ensures { OnOk result (output.new.items ≡ output.old.items ++ reply self.now lines text.now) };

    /// Nothing is replied to nothing, and after a line feed the reply may be divided. This states that, and does nothing.
    fn reply_is_divided(&self)
        ensures silent { (lines : ℕ) → reply self.now lines [] ≡ [] }
        ensures divided { (lines : ℕ) (front rest : List ℕ) → reply self.now lines ((front ++ 0x0A ∷ []) ++ rest)
            ≡ reply self.now lines (front ++ 0x0A ∷ []) ++ reply self.now (lines + feeds (front ++ 0x0A ∷ [])) rest };
}

/// How a text ended, and whether anything was replied to it.
#[derive(Clone, Copy, Debug, PartialEq, Eq)]
pub struct Replied {
    /// How the text ended.
    pub ending: Ending,
    /// Whether the reply is empty.
    pub is_silent: bool,
}

/// What is kept of the bytes that were replied to.
#[derive(Clone, Copy)]
struct Progress {
    watch: Watch,
    /// How many lines they end.
    lines: usize,
    /// Whether the reply is empty so far.
    is_silent: bool,
}

/// Reads to the end, and writes the reply to the text that all the bytes decode to. Each maximal ill-formed subpart
/// reads as U+FFFD, and is counted. If ill-formed input is fatal, the text ends before the first such sequence, whose
/// position is returned, and nothing more is read. The reply to whole lines is written after each block of 32 KiB at
/// most, so that only a longer line takes more memory.
///
/// # Errors
/// - `Read` if a read failed, or the source has no end: after 2^64 - 1 blocks or bytes.
/// - `Write` if a write failed.
/// - `Memory` if an allocation failed.
///
/// After each, a beginning of the reply was written, and nothing more is read or written.
pub fn write_replies<R: Source, W: Target, T: LineTask>(
    alloc: Global,
    mode: ErrorMode,
    task: &T,
    reader: &mut R,
    writer: &mut W,
) -> Result<Replied, TransferError>
    ensures reply { IfOk result (IsReplyWritten mode (λ bytes. T.reply task.now 0 (decoded bytes))
        (R.bytes_left reader.old) (W.bytes_taken writer.old) (W.bytes_taken writer.new)) }
    ensures end { IfOk result (λ r. (count : ℕ) → r.ending ≡ Ending.Whole count → IsAtEnd (R.bytes_left reader.new)) }
    ensures front { OnErr result (IsFormCutOff mode (λ bytes. T.reply task.now 0 (decoded bytes))
        (R.bytes_left reader.old) (W.bytes_taken writer.old) (W.bytes_taken writer.new)) }
    ensures read { IsErrOf result TransferError.Read →
        R.refusal reader.old reader.new ⊎ IsEndless (R.bytes_left reader.old) }
    ensures write { IsErrOf result TransferError.Write → W.refusal writer.old writer.new }
    ensures read_ahead { ¬ IsErrOf result TransferError.Read → IsUnrefused R.refusal reader.old reader.new }
    ensures ahead { ¬ IsErrOf result TransferError.Write → IsUnrefused W.refusal writer.old writer.new }
{
    task.reply_is_divided();
    let mut carried = Carried::new(alloc);
    let mut output = Vec::new(alloc);
    let mut progress = Progress::new(mode);
    // A loop is proved to end, so this one counts its blocks.
    for _ in 0..u64::MAX {
        let searched = carried.bytes().len();
        let is_last = !carried.read_block(reader)?;
        let bytes = carried.bytes();
        let end = end_of_piece(bytes, searched, is_last);
        let piece = &bytes[..end];
        let stop = reply_to_piece(alloc, piece, task, &mut progress, &mut output, writer)?;
        if let Some(replied) = progress.replied(stop, is_last) {
            return Ok(replied);
        }
        carried.remove_front(end);
    }
    Err(TransferError::Read)
}

impl Progress {
    fn new(mode: ErrorMode) -> Progress
        ensures watch { Watches mode result.watch [] }
        ensures lines { result.lines ≡ 0 }
        ensures silent { result.is_silent ≡ true }
    {
        Progress {
            watch: Watch::new(mode),
            lines: 0,
            is_silent: true,
        }
    }

    /// What came of the text, if it ended with a piece.
    fn replied(self, stop: Option<Stop>, is_last: bool) -> Option<Replied>
        ensures stopped { IfSome result (λ r. IfSome stop (λ stop. r.ending ≡ Ending.Stopped stop.position)) }
        ensures whole { IfSome result (λ r.
            IfNone stop ((is_last ≡ true) × (r.ending ≡ Ending.Whole self.watch.found))) }
        ensures silent { IfSome result (λ r. r.is_silent ≡ self.is_silent) }
        ensures none { IfNone result ((is_last ≡ false) × (stop ≡ None)) }
    {
        if !is_last && stop.is_none() {
            return None;
        }
        Some(Replied {
            ending: self.watch.ending(stop),
            is_silent: self.is_silent,
        })
    }
}

/// Replies to a piece, up to where the text ends in it, which is returned.
fn reply_to_piece<W: Target, T: LineTask>(
    alloc: Global,
    piece: &[u8],
    task: &T,
    progress: &mut Progress,
    output: &mut Vec<u8>,
    writer: &mut W,
) -> Result<Option<Stop>, TransferError>
    ensures replied { IfOk result (λ stop. (mode : ErrorMode) (passed written : List ℕ) →
        Joins passed piece.now → Watches mode progress.old.watch passed →
        progress.old.is_silent ≡ is_nothing written → IsPieceReplied mode (T.reply task.now) progress.old
        progress.new passed written piece.now output.new.items stop) }
    ensures written { OnOk result (Appends (W.bytes_taken writer.old) (W.bytes_taken writer.new) output.new.items) }
    ensures front { IsErrOf result TransferError.Write → (mode : ErrorMode) (passed : List ℕ) →
        Joins passed piece.now → Watches mode progress.old.watch passed →
        IsPieceCutOff mode (T.reply task.now) progress.old passed piece.now
        (W.bytes_taken writer.old) (W.bytes_taken writer.new) }
    ensures write { IsErrOf result TransferError.Write → W.refusal writer.old writer.new }
    ensures unwritten { IfErr result (λ error. (error ≡ TransferError.Write) ⊎ (writer.new ≡ writer.old)) }
    ensures read { IsErrOf result TransferError.Read → 2 ^ 64 - 1 ≤ progress.old.lines + length piece.now }
    ensures ahead { OnOk result (IsUnrefused W.refusal writer.old writer.new) }
{
    let stop = progress.watch.note(piece);
    let text = decoded(alloc, text_in(piece, stop))?;
    let Some(lines) = lines_after(progress.lines, &text) else {
        return Err(TransferError::Read);
    };
    output.clear();
    task.append_reply(alloc, progress.lines, &text, output)?;
    write_all(writer, output)?;
    progress.lines = lines;
    progress.is_silent &= output.is_empty();
    Ok(stop)
}

/// How many lines end, if that can be counted.
fn lines_after(lines: usize, text: &[char]) -> Option<usize>
    ensures lines { IfSome result (λ after. after ≡ lines + feeds text.now) }
    ensures room { IfSome result (λ after. lines + length text.now < 2 ^ 64 - 1) }
    ensures none { IfNone result (2 ^ 64 - 1 ≤ lines + length text.now) }
{
    if lines.saturating_add(text.len()) == usize::MAX {
        return None;
    }
    Some(lines + feeds(text))
}

fn feeds(text: &[char]) -> usize
    ensures value { result ≡ feeds text.now }
    ensures within { result ≤ length text.now }
{
    text.iter().filter(|c| **c == '\n').count()
}

/// The end of what can be replied to: of all bytes, if they are the last ones, or of the last whole line. All places
/// up to `searched` have been searched.
fn end_of_piece(bytes: &[u8], searched: usize, is_last: bool) -> usize
    ensures within { result ≤ length bytes.now }
    ensures last { is_last ≡ true → result ≡ length bytes.now }
    ensures lines { is_last ≡ false → (result ≡ 0) ⊎ EndsLine (take result bytes.now) }
{
    if is_last {
        return bytes.len();
    }
    let mut end = bytes.len();
    while end > searched {
        if bytes[end - 1] == b'\n' {
            return end;
        }
        end -= 1;
    }
    0
}

/// The text that bytes decode to.
fn decoded(alloc: Global, bytes: &[u8]) -> Result<Vec<char>, AllocError>
    ensures { IfOk result (λ text. text.items ≡ decoded bytes.now) }
{
    Chars::new(bytes).collect(alloc)
}
