//! Mapped text, and which text is valid.
ghost use Rattle.std.specs.Prelude.{◌≡◌, ◌==◌, ℕ, List, IfOk, IsOkUnless, bytes_eq};
ghost use Rattle.std.specs.List.{list_any};
ghost use Rattle.std.specs.Iterator.{IsFinite};
ghost use Rattle.normalizer_text.specs.DecodingSteps.{Spells};
ghost use Rattle.icu_normalizer.specs.Mappers.{mapper_data_of_borrowed};
ghost use Rattle.icu_normalizer.specs.Mapping.{is_valid, mapped_in};

use crate::uts46::Uts46MapperBorrowed;
use normalizer_iterators::{NormalizeError, collected};
use normalizer_tables::characters::IgnoredCharacters;
use std::alloc::Global;

/// Returns the text that an iterator yields, mapped and in NFC: ignored characters are dropped, or replaced by U+FFFD
/// to validate it.
///
/// # Errors
/// `Memory` if an allocation failed.
pub fn mapped<I: Iterator<Item = char> + Drop>(
    alloc: Global,
    mapper: &Uts46MapperBorrowed<'_>,
    ignored: IgnoredCharacters,
    characters: I,
) -> Result<Vec<char>, NormalizeError>
    requires can { I.can_next characters }
    requires ends { IsFinite (I.remaining characters) }
    ensures text { (x : List ℕ) → Spells I.next_gives characters x →
        IfOk result (λ text. text.items ≡ mapped_in (mapper_data_of_borrowed mapper.now) ignored x) }
    ensures refused { IsOkUnless result NormalizeError.Memory }
{
    match ignored {
        IgnoredCharacters::Dropped => collected(alloc, mapper.map_normalize(characters)?),
        IgnoredCharacters::Replaced => collected(alloc, mapper.normalize_validate(characters)?),
    }
}

/// Returns whether validation leaves a text as it is, and the text has no U+FFFD.
///
/// # Errors
/// `Memory` if an allocation failed.
pub fn is_valid(
    alloc: Global,
    mapper: &Uts46MapperBorrowed<'_>,
    text: &[char],
) -> Result<bool, NormalizeError>
    ensures valid { IfOk result (λ valid. valid ≡ is_valid (mapper_data_of_borrowed mapper.now) text.now) }
    ensures refused { IsOkUnless result NormalizeError.Memory }
{
    let valid = mapped(
        alloc,
        mapper,
        IgnoredCharacters::Replaced,
        text.iter().copied(),
    )?;
    Ok(!holds_replacement(text) && is_same(&valid, text))
}

/// Whether a text has U+FFFD.
fn holds_replacement(text: &[char]) -> bool
    ensures { result ≡ list_any (λ c. c == 0xFFFD) text.now }
{
    text.iter().any(|c| *c == char::REPLACEMENT_CHARACTER)
}

fn is_same(a: &[char], b: &[char]) -> bool
    ensures { result ≡ bytes_eq a.now b.now }
{
    a == b
}
