//! What is done with a file by the mapper.
ghost use Rattle.std.specs.Prelude.{◌≡◌, ◌≢◌, ◌⊎◌, ◌<◌, ◌≤◌, ◌+◌, ◌-◌, ◌^◌, ◌++◌, length, map, string_bytes};
ghost use Rattle.std.specs.Prelude.{encode_utf8_all, false, if◌then◌else◌, ℕ, List, [], IfErr, IfOk, IsErrOf, IsOkUnless, OnOk};
ghost use Rattle.std.specs.Iterator.{IsFinite};
ghost use Rattle.icu_normalizer.specs.Items.{SpellsUnless};
ghost use Rattle.icu_normalizer.specs.Mappers.{mapper_data_of, mapper_data_of_borrowed};
ghost use Rattle.normalizer_io.specs.Transfer.{IsUnrefused};
ghost use Rattle.normalizer_streams.specs.Streams.{IsEndless};
ghost use Rattle.normalizer_command.specs.FileFaults.{IsTransferFault};
ghost use Rattle.normalizer_command.specs.Lines.{invalid_line, lines_of, told_unless};
ghost use Rattle.normalizer_command.specs.Listings.{listed};
ghost use Rattle.normalizer_command.specs.Making.{mapping_of, Mapping, Maps};
ghost use Rattle.normalizer_command.specs.Replies.{validity};
ghost use Rattle.normalizer_command.specs.Works.{OfMapper};
ghost use Rattle.normalizer_command.specs.Written.{is_known_first, IsOutcome, Replies};
ghost use Rattle.normalizer_command.specs.declared.command.Listing.TheVariants.{Places};
ghost use Rattle.normalizer_command.specs.declared.command.MapperTask.TheVariants.{Validate};
ghost use Rattle.normalizer_command.specs.inner.EachLine.{feed_unless, number_before, replies_to, reply_after, reply_to};
ghost use Rattle.normalizer_command.specs.inner.Known.{lines_answered_by};

use crate::command::{Listing, MapperTask};
use crate::fault::Fault;
use crate::first_byte::FirstByte;
use crate::reply::{Answer, Reply, name_of, write_known};
use icu_normalizer::iterator_laws::text_comes_unless_a_fault_does;
use icu_normalizer::uts46::{Uts46Mapper, Uts46MapperBorrowed};
use icu_normalizer::{NormalizeError, is_valid};
use normalizer_io::{Source, Target, TransferError};
use normalizer_streams::{Ending, ErrorMode, LineTask, write_replies};
use std::alloc::{AllocError, Global};

impl MapperTask {
    /// Does its work with what an open file has, and writes the reply.
    pub(crate) fn handle<S: Source, W: Target>(
        self,
        alloc: Global,
        mode: ErrorMode,
        mapper: &Uts46Mapper,
        name: &str,
        input: &mut S,
        writer: &mut W,
    ) -> Result<Answer, Fault>
        ensures { (m : Mapping) → Maps (mapper_data_of mapper.now) m → IsOutcome (OfMapper self mode m) name.now
            (S.bytes_left input.old) (W.bytes_taken writer.old) (W.bytes_taken writer.new)
            (IsTransferFault S.bytes_left S.refusal W.refusal (input.old, writer.old) (input.new, writer.new))
            (writer.new ≡ writer.old) result }
    {
        let lines = MapperLines {
            task: self,
            mapper: mapper.as_borrowed(),
            name,
        };
        match self {
            MapperTask::Validate(listing) if listing != Listing::Places => {
                write_known(lines.validated(alloc, listing, mode, input), writer)
            }
            _ => lines.write(alloc, mode, input, writer),
        }
    }

    /// What comes of a text by its lines, whose reply is empty or not.
    fn answer(self, is_silent: bool, ending: Ending) -> Answer
        ensures { result ≡ lines_answered_by self is_silent ending }
    {
        match self {
            MapperTask::Map => Answer::Ended(ending),
            MapperTask::Validate(listing) => validity(listing, is_silent, ending),
        }
    }

    /// The number before that of a line after so many others: lines that are mapped have none.
    fn number_before(self, lines: usize) -> usize
        ensures value { result ≡ number_before self lines }
        ensures within { result ≤ lines }
    {
        match self {
            MapperTask::Map => 0,
            MapperTask::Validate(_) => lines,
        }
    }
}

/// What comes of lines that are validated.
fn validity(listing: Listing, all_valid: bool, ending: Ending) -> Answer
    ensures { result ≡ validity listing all_valid ending }
{
    match (listing, ending) {
        (Listing::Places, Ending::Stopped(_)) => Answer::Ended(ending),
        _ if !all_valid => Answer::No,
        (_, Ending::Whole(_)) => Answer::Done,
        (_, Ending::Stopped(_)) => Answer::Ended(ending),
    }
}

/// What a task of the mapper replies to the lines of a text.
#[derive(Drop)]
struct MapperLines<'a> {
    task: MapperTask,
    mapper: Uts46MapperBorrowed<'a>,
    name: &'a str,
}

impl<'a> LineTask for MapperLines<'a> {
    ghost reply = { λ t lines text. reply_after t.task (mapper_data_of_borrowed t.mapper) t.name.now lines text };

    fn append_reply(
        &self,
        alloc: Global,
        lines: usize,
        text: &[char],
        output: &mut Vec<u8>,
    ) -> Result<(), AllocError> {
        match self.reply(alloc, lines, text) {
            Ok(reply) => output.extend_from_slice(reply.as_bytes()),
            Err(_) => Err(AllocError),
        }
    }

    fn reply_is_divided(&self) {}
}

impl<'a> MapperLines<'a> {
    /// Writes the reply to the lines of a source, while it reads.
    fn write<S: Source, W: Target>(
        &self,
        alloc: Global,
        mode: ErrorMode,
        input: &mut S,
        writer: &mut W,
    ) -> Result<Answer, Fault>
        requires { (m : Mapping) → is_known_first (OfMapper self.now.task mode m) ≡ false }
        ensures { (m : Mapping) → Maps (mapper_data_of_borrowed self.now.mapper) m →
            IsOutcome (OfMapper self.now.task mode m) self.now.name.now
            (S.bytes_left input.old) (W.bytes_taken writer.old) (W.bytes_taken writer.new)
            (IsTransferFault S.bytes_left S.refusal W.refusal (input.old, writer.old) (input.new, writer.new))
            (writer.new ≡ writer.old) result }
    {
        let replied = write_replies(alloc, mode, self, input, writer)?;
        Ok(self.task.answer(replied.is_silent, replied.ending))
    }

    /// Reads up to the first line that isn't valid, and returns what is to be written of that.
    fn validated<R: Source>(
        &self,
        alloc: Global,
        listing: Listing,
        mode: ErrorMode,
        reader: &mut R,
    ) -> Result<Reply, TransferError>
        requires task { self.now.task ≡ Validate listing }
        requires names { listing ≢ Places }
        ensures replies { (m : Mapping) → Maps (mapper_data_of_borrowed self.now.mapper) m → IfOk result (λ r.
            Replies (OfMapper (Validate listing) mode m) self.now.name.now (R.bytes_left reader.old)
            r.answer r.output.items) }
        ensures errors { IfErr result (λ error. (error ≡ TransferError.Read) ⊎ (error ≡ TransferError.Memory)) }
        ensures read { IsErrOf result TransferError.Read →
            R.refusal reader.old reader.new ⊎ IsEndless (R.bytes_left reader.old) }
        ensures read_ahead { ¬ IsErrOf result TransferError.Read → IsUnrefused R.refusal reader.old reader.new }
    {
        let mut first = FirstByte { byte: None };
        match write_replies(alloc, mode, self, reader, &mut first) {
            Ok(replied) => Ok(self.reply_by(alloc, listing, replied.is_silent, replied.ending)?),
            Err(TransferError::Write) => Ok(Reply {
                answer: Answer::No,
                output: name_of(alloc, listing, self.name)?,
            }),
            Err(error) => Err(error),
        }
    }

    /// The reply to a text of lines that are valid or not.
    fn reply_by(
        &self,
        alloc: Global,
        listing: Listing,
        all_valid: bool,
        ending: Ending,
    ) -> Result<Reply, AllocError>
        ensures answer { IfOk result (λ r. r.answer ≡ validity listing all_valid ending) }
        ensures output { IfOk result (λ r. r.output.items
            ≡ (if all_valid then [] else listed listing self.now.name.now [])) }
    {
        Ok(Reply {
            answer: validity(listing, all_valid, ending),
            output: if all_valid {
                Vec::new(alloc)
            } else {
                name_of(alloc, listing, self.name)?
            },
        })
    }

    /// The reply to a text that comes after so many lines.
    fn reply(&self, alloc: Global, lines: usize, text: &[char]) -> Result<String, NormalizeError>
        requires { lines + length text.now < 2 ^ 64 - 1 }
        ensures written { IfOk result (λ output. string_bytes output ≡ reply_after self.now.task
            (mapper_data_of_borrowed self.now.mapper) self.now.name.now lines text.now) }
        ensures refused { IsOkUnless result NormalizeError.Memory }
    {
        let before = self.task.number_before(lines);
        let lines = lines_of(alloc, text)?;
        let mut output = String::new(alloc);
        for (index, line) in lines.iter().enumerate() {
            self.append_reply_to(alloc, before + index, line, &mut output)?;
        }
        Ok(output)
    }

    /// Appends what is written of a line.
    fn append_reply_to(
        &self,
        alloc: Global,
        index: usize,
        line: &[char],
        output: &mut String,
    ) -> Result<(), NormalizeError>
        requires { index + 1 < 2 ^ 64 }
        ensures written { OnOk result (string_bytes output.new ≡ string_bytes output.old ++ reply_to self.now.task
            (mapping_of (mapper_data_of_borrowed self.now.mapper)) self.now.name.now index line.now) }
        ensures refused { IsOkUnless result NormalizeError.Memory }
    {
        match self.task {
            MapperTask::Map => append_line(&self.mapper, index == 0, line, output),
            MapperTask::Validate(_) => {
                let valid = is_valid(alloc, &self.mapper, line)?;
                let told = told_unless(alloc, valid, self.name, index + 1)?;
                Ok(output.push_str(&told)?)
            }
        }
    }
}

/// What is between line feeds.
fn lines_of(alloc: Global, text: &[char]) -> Result<Vec<&[char]>, AllocError>
    ensures lines { IfOk result (λ lines. map (λ line. line.now) lines.items ≡ lines_of text.now) }
    ensures few { IfOk result (λ lines. length lines.items ≤ length text.now + 1) }
{
    text.split(|c| *c == '\n').collect(alloc)
}

/// Appends a line, mapped; but for the first, after a line feed.
fn append_line(
    mapper: &Uts46MapperBorrowed<'_>,
    is_first: bool,
    line: &[char],
    output: &mut String,
) -> Result<(), NormalizeError>
    ensures mapped { OnOk result (string_bytes output.new ≡ string_bytes output.old ++ encode_utf8_all
        (feed_unless is_first ++ (mapping_of (mapper_data_of_borrowed mapper.now)).map line.now)) }
    ensures refused { IsOkUnless result NormalizeError.Memory }
{
    output.push_str(feed_unless(is_first))?;
    append_items(mapper.map_normalize(line.iter().copied())?, output)
}

/// A line feed, or nothing.
fn feed_unless(is_first: bool) -> &'static str
    ensures { result.now ≡ encode_utf8_all (feed_unless is_first) }
{
    if is_first { "" } else { "\n" }
}

/// Appends what an iterator yields.
fn append_items<I: Iterator<Item = Result<char, NormalizeError>> + Drop>(
    items: I,
    output: &mut String,
) -> Result<(), NormalizeError>
    requires can { I.can_next items }
    requires ends { IsFinite (I.remaining items) }
    ensures { (x : List ℕ) → SpellsUnless I.next_gives NormalizeError.Memory items x →
        OnOk result (string_bytes output.new ≡ string_bytes output.old ++ encode_utf8_all x)
        × IsOkUnless result NormalizeError.Memory }
{
    text_comes_unless_a_fault_does::<NormalizeError, I>();
    for item in items {
        match output.push(item?) {
            Ok(()) => {}
            Err(_) => return Err(NormalizeError::Memory),
        }
    }
    Ok(())
}

/// The report of a line, unless it is valid.
fn told_unless(
    alloc: Global,
    is_valid: bool,
    name: &str,
    number: usize,
) -> Result<String, AllocError>
    ensures { IfOk result (λ report. string_bytes report ≡ told_unless is_valid name.now number) }
{
    if is_valid {
        return Ok(String::new(alloc));
    }
    invalid_line(alloc, name, number)
}

/// The name of the file, and the number of a line.
fn invalid_line(alloc: Global, name: &str, number: usize) -> Result<String, AllocError>
    ensures { IfOk result (λ line. string_bytes line ≡ invalid_line name.now number) }
{
    format!(in alloc; "{name}:{number}: invalid\n")
}
