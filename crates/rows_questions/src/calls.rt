//! Questions about texts: what the calls of a normalizer return, which must agree, of characters in all three
//! encodings; the NFD over data that are checked once and then used unchecked; and what the mapper makes.
use crate::encoded::{Results, results_of_input};
use crate::language::fault::{Answer, Fault, agreed};
use crate::language::held::Held;
use crate::language::input::{Input, text};
use crate::language::items::are;
use crate::language::printing::spelled_bool;
use crate::language::words::{Spelled, spelled_all};
use icu_normalizer::IgnoredCharacters::{self, Dropped, Replaced};
use icu_normalizer::uts46::Uts46Mapper;
use icu_normalizer::{
    AnyNormalizer, DecomposingNormalizerBorrowed, Decomposition, MappingData, Offence, Utf8Chars,
    check_nfd_data, collected, mapped,
};
use std::alloc::Global;

/// What the calls of a normalizer return for an input.
pub fn asked(alloc: Global, normalizer: &AnyNormalizer, name: &str, input: &[&str]) -> Answer {
    let input = Input::read(alloc, input)?;
    let results = results_of_input(alloc, &normalizer.as_borrowed(), &input)?;
    spelled(alloc, name, &input, &results)
}

fn spelled(alloc: Global, name: &str, input: &Input, results: &Results) -> Answer {
    match name {
        "is" => spelled_bool(alloc, results.is_own),
        "split" => input.spelled_parts(alloc, results.cut),
        "offence" => spelled_offence(alloc, results.offence),
        "owned" => spelled_owned(alloc, results.is_own, &spelled_all(alloc, &results.form)?),
        _ => spelled_all(alloc, &results.form),
    }
}

fn spelled_offence(alloc: Global, offence: Option<Offence>) -> Answer {
    let Some(offence) = offence else {
        return Ok(String::from_str(alloc, "none")?);
    };
    let place = offence.place;
    let found = offence.found.spelled(alloc)?;
    let wanted = offence.wanted.spelled(alloc)?;
    Ok(format!(in alloc; "{place} {found} {wanted}")?)
}

fn spelled_owned(alloc: Global, is_borrowed: bool, form: &str) -> Answer {
    let kind = if is_borrowed { "borrowed" } else { "owned" };
    Ok(format!(in alloc; "{kind} {form}")?)
}

/// The NFD of a text over data that are checked once and then used unchecked.
pub fn unchecked(alloc: Global, held: &Held, characters: &[&str]) -> Answer {
    let text = text(alloc, characters)?;
    let form = unchecked_form(alloc, held, text.as_bytes())?;
    agreed(is_unchecked_form(held, &text, &form)?)?;
    spelled_all(alloc, &form)
}

fn unchecked_form(alloc: Global, held: &Held, text: &[u8]) -> Result<Vec<char>, Fault> {
    let (Some(words), Some(tables)) = (&held.canonical, &held.tables) else {
        return Err(Fault::Refused);
    };
    check_nfd_data(words, tables)?;
    let normalizer = DecomposingNormalizerBorrowed::new_with_data(words, tables);
    Ok(collected(alloc, normalizer.normalize_iter(Utf8Chars::new(text))?)?)
}

/// Whether the iterator over data that are checked once yields this form.
pub fn is_unchecked_form(held: &Held, text: &str, form: &[char]) -> Result<bool, Fault> {
    let (Some(words), Some(tables)) = (&held.canonical, &held.tables) else {
        return Err(Fault::Refused);
    };
    check_nfd_data(words, tables)?;
    are(Decomposition::new(text.chars(), words, tables)?, form)
}

/// What becomes of ignored characters in `map` and `validate`.
fn ignored_by(name: &str) -> Result<IgnoredCharacters, Fault> {
    match name {
        "map" => Ok(Dropped),
        "validate" => Ok(Replaced),
        _ => Err(Fault::Unreadable),
    }
}

/// A text as the mapper maps it, or validates it.
pub fn mapping(alloc: Global, held: &Held, name: &str, characters: &[&str]) -> Answer {
    let ignored = ignored_by(name)?;
    let mapper = held.mapper()?;
    let text = text(alloc, characters)?;
    spelled_all(
        alloc,
        &mapped(alloc, &mapper.as_borrowed(), ignored, text.chars())?,
    )
}

/// Whether the iterator of `map` or `validate` over a text yields these characters.
pub fn are_mapped(
    mapper: &Uts46Mapper,
    name: &str,
    text: &str,
    wanted: &[char],
) -> Result<bool, Fault> {
    let mapper = mapper.as_borrowed();
    match ignored_by(name)? {
        Dropped => are(mapper.map_normalize(text.chars())?, wanted),
        Replaced => are(mapper.normalize_validate(text.chars())?, wanted),
    }
}
