//! What a command is done by, and its reply to the input.
ghost use Rattle.std.specs.Prelude.{◌≡◌, ◌⊎◌, IfErr, IfOk, encode_utf8_all, map, string_bytes};
ghost use Rattle.icu_normalizer.specs.Mappers.{mapper_data_of, mapper_data_of_borrowed};
ghost use Rattle.icu_normalizer.specs.Utf8.{decoded_utf8};
ghost use Rattle.icu_normalizer.specs.Mapping.{mapped_in};
ghost use Rattle.normtool_command.specs.Labels.{fields};
ghost use Rattle.normtool_command.specs.Needs.{held, IsServed, Refuses};
ghost use Rattle.normtool_command.specs.OffenceLines.{offence_line};
ghost use Rattle.normtool_command.specs.Replies.{IsReply};
ghost use Rattle.normtool_command.specs.Tasks.{Label, task_of};
ghost use Rattle.normtool_command.specs.Workers.{work_by};

use crate::arguments::Command;
use icu_normalizer::IgnoredCharacters::{self, Dropped, Replaced};
use icu_normalizer::uts46::{Uts46Mapper, Uts46MapperBorrowed};
use icu_normalizer::{
    AnyNormalizer, DataError, FormData, MappingData, NormalizeError, Offence, Utf8Chars, is_valid,
    mapped,
};
use normalizer_io::Answer::{self, Done, No};
use std::alloc::{AllocError, Global};

/// What a command does, with what it is done by.
#[derive(Drop)]
pub(crate) enum Worker {
    Write(AnyNormalizer),
    Check(AnyNormalizer),
    Locate(AnyNormalizer),
    Map(Uts46Mapper),
    Validate(Uts46Mapper),
    Label(Uts46Mapper),
}

impl Worker {
    /// Returns what a command is done by, over what a provider holds.
    pub fn new<P: FormData + MappingData>(provider: &P, command: Command) -> Result<Self, DataError>
        ensures served { IfOk result (λ w. IsServed (task_of command)
            (held (P.held_for_forms provider.now) (P.held_for_mapper provider.now)) (work_by w)) }
        ensures errors { IfErr result (λ e. (e ≡ DataError.Memory) ⊎ Refuses (task_of command)
            (held (P.held_for_forms provider.now) (P.held_for_mapper provider.now)) e) }
    {
        match command {
            Command::Write(form) => Ok(Worker::Write(provider.normalizer(form)?)),
            Command::Check(form) => Ok(Worker::Check(provider.normalizer(form)?)),
            Command::Locate(form) => Ok(Worker::Locate(provider.normalizer(form)?)),
            Command::Map => Ok(Worker::Map(provider.mapper()?)),
            Command::Validate => Ok(Worker::Validate(provider.mapper()?)),
            Command::Label => Ok(Worker::Label(provider.mapper()?)),
        }
    }

    /// Returns the reply to bytes: the result, and the text that is written before it is returned.
    pub fn reply(&self, alloc: Global, input: &[u8]) -> Result<(Answer, String), NormalizeError>
        ensures { IfOk result (λ r. IsReply (work_by self.now) input.now r.0 (string_bytes r.1)) }
    {
        match self {
            Worker::Write(normalizer) => Ok((Done, normalizer.form_of(alloc, input)?)),
            Worker::Check(normalizer) => {
                let normalized = normalizer.is_normalized(input)?;
                Ok((if normalized { Done } else { No }, String::new(alloc)))
            }
            Worker::Locate(normalizer) => match normalizer.first_offence(input)? {
                Some(offence) => Ok((No, offence_line(alloc, offence)?)),
                None => Ok((Done, String::new(alloc))),
            },
            Worker::Map(mapper) => Ok((Done, mapped_text(alloc, mapper, Dropped, input)?)),
            Worker::Validate(mapper) => Ok((Done, mapped_text(alloc, mapper, Replaced, input)?)),
            Worker::Label(mapper) => labels(alloc, &mapper.as_borrowed(), input),
        }
    }
}

/// The place, the character found and the one wanted, on one line.
fn offence_line(alloc: Global, offence: Offence) -> Result<String, AllocError>
    ensures { IfOk result (λ line. string_bytes line ≡ offence_line offence) }
{
    let place = offence.place;
    let (found, wanted) = (offence.found as u32, offence.wanted as u32);
    format!(in alloc; "{place} {found:04x} {wanted:04x}\n")
}

/// The text that bytes decode to, mapped, in UTF-8.
fn mapped_text(
    alloc: Global,
    mapper: &Uts46Mapper,
    ignored: IgnoredCharacters,
    input: &[u8],
) -> Result<String, NormalizeError>
    ensures { IfOk result (λ text. string_bytes text
        ≡ encode_utf8_all (mapped_in (mapper_data_of mapper.now) ignored (decoded_utf8 input.now))) }
{
    let text = mapped(alloc, &mapper.as_borrowed(), ignored, Utf8Chars::new(input))?;
    Ok(encoded(alloc, &text)?)
}

/// The UTF-8 of characters.
fn encoded(alloc: Global, characters: &[char]) -> Result<String, AllocError>
    ensures { IfOk result (λ text. string_bytes text ≡ encode_utf8_all characters.now) }
{
    characters.iter().copied().collect(alloc)
}

/// Whether all fields of the text that bytes decode to are valid once it is mapped, and those that are, each on a line.
fn labels(
    alloc: Global,
    mapper: &Uts46MapperBorrowed<'_>,
    input: &[u8],
) -> Result<(Answer, String), NormalizeError>
    ensures { IfOk result (λ r. IsReply (Label (mapper_data_of_borrowed mapper.now)) input.now r.0 (string_bytes r.1)) }
{
    let text = mapped(alloc, mapper, Dropped, Utf8Chars::new(input))?;
    let fields = fields(alloc, &text)?;
    let mut answer = Done;
    let mut lines = Vec::new(alloc);
    for field in &fields {
        if is_valid(alloc, mapper, field)? {
            lines.extend_from_slice(field)?;
            lines.extend_from_slice(&['\n'])?;
        } else {
            answer = No;
        }
    }
    Ok((answer, encoded(alloc, &lines)?))
}

/// What is between the full stops of a text.
fn fields(alloc: Global, text: &[char]) -> Result<Vec<&[char]>, AllocError>
    ensures { IfOk result (λ parts. map (λ part. part.now) parts.items ≡ fields text.now) }
{
    text.split(|c| *c == '.').collect(alloc)
}
