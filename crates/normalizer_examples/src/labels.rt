//! Labels of domain names, mapped and then validated (UTS #46, section 4).
ghost use Rattle.std.specs.Prelude.{◌≡◌, chars, false, true, IfOk, IsOkUnless, MatchOption};
ghost use Rattle.icu_normalizer.specs.IgnoredCharacters.TheVariants.{Dropped};
ghost use Rattle.icu_normalizer.specs.Mappers.{mapper_data_of_borrowed};
ghost use Rattle.icu_normalizer.specs.Mapping.{is_valid, mapped_in};

use icu_normalizer::uts46::Uts46MapperBorrowed;
use icu_normalizer::{IgnoredCharacters, NormalizeError, is_valid, mapped};
use std::alloc::Global;

/// Returns the mapped text, if that is a label: it has no U+FFFD, and validation leaves it unchanged.
///
/// # Errors
/// `Memory` if an allocation failed.
pub fn label(
    alloc: Global,
    mapper: &Uts46MapperBorrowed<'_>,
    text: &str,
) -> Result<Option<Vec<char>>, NormalizeError>
    ensures kept { let h = mapper_data_of_borrowed mapper.now in let x = mapped_in h Dropped (chars text.now) in
        IfOk result (λ label. MatchOption label (is_valid h x ≡ false)
        (λ v. (v.items ≡ x) × (is_valid h x ≡ true))) }
    ensures refused { IsOkUnless result NormalizeError.Memory }
{
    let label = mapped(alloc, mapper, IgnoredCharacters::Dropped, text.chars())?;
    if is_valid(alloc, mapper, &label)? {
        Ok(Some(label))
    } else {
        Ok(None)
    }
}
