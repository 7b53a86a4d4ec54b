//! What comes of a file, and what is written of it.
ghost use Rattle.std.specs.Prelude.{◌≡◌, ◌⊎◌, IfErr, IfOk, IsErrOf, [], string_bytes};
ghost use Rattle.normalizer_io.specs.Transfer.{IsUnrefused};
ghost use Rattle.normalizer_streams.specs.Streams.{IsEndless};
ghost use Rattle.normalizer_command.specs.Listings.{listed};
ghost use Rattle.normalizer_command.specs.Making.{Makes, Making};
ghost use Rattle.normalizer_command.specs.Mismatches.{mismatch_in_words, mismatch_line, position};
ghost use Rattle.normalizer_command.specs.Mismatches.{TellsComparison};
ghost use Rattle.normalizer_command.specs.Works.{OfForm};
ghost use Rattle.normalizer_command.specs.Written.{Replies};
ghost use Rattle.normalizer_command.specs.declared.command.Task.TheVariants.{Compare};
ghost use Rattle.normalizer_command.specs.inner.Known.{IsKnownWritten};

use crate::command::{LineEnd, Listing};
use crate::fault::{CodePoint, Fault};
use icu_normalizer::AnyNormalizer;
use normalizer_io::{Source, Target, TransferError, write_all};
use normalizer_streams::{Comparison, Ending, ErrorMode, Mismatch, Position, first_mismatch};
use std::alloc::{AllocError, Global};

/// What comes of a file.
#[derive(Clone, Copy, Debug, PartialEq, Eq)]
pub enum Answer {
    /// All is as it is to be.
    Done,
    /// It isn't.
    No,
    /// Its text was written, or was as it is to be, up to this ending.
    Ended(Ending),
}

/// What comes of a file, with the bytes that are written of it.
#[derive(Drop)]
pub(crate) struct Reply {
    pub(crate) answer: Answer,
    pub(crate) output: Vec<u8>,
}

/// Writes a reply, unless there is none.
pub(crate) fn write_known<W: Target>(
    reply: Result<Reply, TransferError>,
    writer: &mut W,
) -> Result<Answer, Fault>
    ensures { IsKnownWritten reply (W.bytes_taken writer.old) (W.bytes_taken writer.new)
        (W.refusal writer.old writer.new) (IsUnrefused W.refusal writer.old writer.new) (writer.new ≡ writer.old) result }
{
    let reply = reply?;
    write_all(writer, &reply.output)?;
    Ok(reply.answer)
}

/// Compares a source with its form, and returns what is to be written of that.
pub(crate) fn compared<R: Source>(
    alloc: Global,
    listing: Listing,
    mode: ErrorMode,
    normalizer: &AnyNormalizer,
    name: &str,
    reader: &mut R,
) -> Result<Reply, TransferError>
    ensures replies { (m : Making) → Makes normalizer.now m → IfOk result (λ r.
        Replies (OfForm (Compare listing) mode m) name.now (R.bytes_left reader.old) r.answer r.output.items) }
    ensures errors { IfErr result (λ error. (error ≡ TransferError.Read) ⊎ (error ≡ TransferError.Memory)) }
    ensures read { IsErrOf result TransferError.Read →
        R.refusal reader.old reader.new ⊎ IsEndless (R.bytes_left reader.old) }
    ensures read_ahead { ¬ IsErrOf result TransferError.Read → IsUnrefused R.refusal reader.old reader.new }
{
    let comparison = first_mismatch(alloc, mode, normalizer, reader)?;
    Ok(reply_to(alloc, listing, name, comparison)?)
}

/// The reply to a comparison.
fn reply_to(
    alloc: Global,
    listing: Listing,
    name: &str,
    comparison: Comparison,
) -> Result<Reply, AllocError>
    ensures { IfOk result (λ r. TellsComparison listing name.now comparison r.answer r.output.items) }
{
    match comparison {
        Comparison::Normalized => Ok(Reply {
            answer: Answer::Done,
            output: Vec::new(alloc),
        }),
        Comparison::Differs(mismatch) => Ok(Reply {
            answer: Answer::No,
            output: told_of(alloc, listing, name, mismatch)?,
        }),
        Comparison::Stopped(position) => Ok(Reply {
            answer: Answer::Ended(Ending::Stopped(position)),
            output: Vec::new(alloc),
        }),
    }
}

/// What is listed of a mismatch.
fn told_of(
    alloc: Global,
    listing: Listing,
    name: &str,
    mismatch: Mismatch,
) -> Result<Vec<u8>, AllocError>
    ensures { IfOk result (λ told. told.items ≡ listed listing name.now (mismatch_line name.now mismatch)) }
{
    match listing {
        Listing::Places => Ok(mismatch_line(alloc, name, mismatch)?.into_bytes()),
        Listing::Names(_) | Listing::Nothing => name_of(alloc, listing, name),
    }
}

/// What is listed of a file but for its places: its name, or nothing.
pub(crate) fn name_of(alloc: Global, listing: Listing, name: &str) -> Result<Vec<u8>, AllocError>
    ensures { IfOk result (λ told. told.items ≡ listed listing name.now []) }
{
    match listing {
        Listing::Names(LineEnd::LineFeed) => Ok(format!(in alloc; "{name}\n")?.into_bytes()),
        Listing::Names(LineEnd::Nul) => Ok(format!(in alloc; "{name}\0")?.into_bytes()),
        Listing::Places | Listing::Nothing => Ok(Vec::new(alloc)),
    }
}

/// The line of a mismatch.
fn mismatch_line(alloc: Global, name: &str, mismatch: Mismatch) -> Result<String, AllocError>
    ensures { IfOk result (λ line. string_bytes line ≡ mismatch_line name.now mismatch) }
{
    let position = position(alloc, name, mismatch.position)?;
    let words = mismatch_in_words(alloc, mismatch.found, mismatch.wanted)?;
    format!(in alloc; "{position}: {words}\n")
}

/// The name, and the line and the byte.
fn position(alloc: Global, name: &str, at: Position) -> Result<String, AllocError>
    ensures { IfOk result (λ text. string_bytes text ≡ position name.now at) }
{
    let (line, byte) = (at.line, at.byte);
    format!(in alloc; "{name}:{line}:{byte}")
}

/// The characters that are found and wanted, which are the same only at an ill-formed sequence.
fn mismatch_in_words(alloc: Global, found: char, wanted: char) -> Result<String, AllocError>
    ensures { IfOk result (λ words. string_bytes words ≡ mismatch_in_words found wanted) }
{
    if found == wanted {
        return String::from_str(alloc, "ill-formed UTF-8");
    }
    let (found, wanted) = (CodePoint(found as u32), CodePoint(wanted as u32));
    format!(in alloc; "found U+{found}, wanted U+{wanted}")
}
