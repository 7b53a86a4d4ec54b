//! Normalizers and the mapper over data that records built. They make of every text what the records mean, and nothing
//! is refused but memory.
ghost use Rattle.std.specs.Prelude.{◌≡◌, IfOk, IsOkUnless, List};
ghost use Rattle.normalizer_builder.specs.Building.{Builds};
ghost use Rattle.normalizer_builder.specs.Built.{AreBuilt, data_in};
ghost use Rattle.normalizer_packing.specs.ReadBack.{characters_of};
ghost use Rattle.normalizer_records.specs.RecordValue.{RecordValue, Uts46RecordValue};
ghost use Rattle.normalizer_tables.specs.declared.entry.Kind.TheVariants.{Canonical, Mapper};
ghost use Rattle.icu_normalizer.specs.AllNormalizers.{canonical_data_of, made_to};
ghost use Rattle.icu_normalizer.specs.AnyNormalizers.{made_by};
ghost use Rattle.icu_normalizer.specs.Mappers.{mapper_data_of};
ghost use Rattle.icu_normalizer.specs.ByRecords.{packed_form, IsRecordedForm, MapsByRecords};

use crate::all_normalizers::AllNormalizers;
use crate::any_normalizer::{AnyNormalizer, NormalForm};
use crate::held_forms::FormData;
use crate::uts46::Uts46Mapper;
use normalizer_builder::Built;
use normalizer_builder::laws::{data_that_meet_conditions_are_accepted, what_is_built_is_accepted};
use normalizer_iterators::NormalizeError;
use normalizer_tables::DataError;

/// Returns the normalizer to a form over built data. It makes the form that the records mean.
///
/// # Errors
/// `Memory` if an allocation failed.
///
/// # Examples
/// ```rust
/// let normalizer = normalizer_to(&built, NormalForm::Nfc)?;
/// let form = normalizer.as_borrowed().normalize("\u{1100}\u{1161}")?;
/// assert!(rt; *form == *"\u{AC00}");
/// ```
pub fn normalizer_to(built: &Built, form: NormalForm) -> Result<AnyNormalizer, NormalizeError>
    requires { AreBuilt (data_in built.now) }
    ensures data { IfOk result (λ n. made_by n ≡ packed_form (data_in built.now) form) }
    ensures form { (records : List RecordValue) (uts46 : List Uts46RecordValue) →
        Builds records uts46 (data_in built.now) → IfOk result (λ n. IsRecordedForm records form (made_by n)) }
    ensures refused { IsOkUnless result NormalizeError.Memory }
{
    what_is_built_is_accepted();
    data_that_meet_conditions_are_accepted();
    match built.normalizer(form) {
        Ok(normalizer) => Ok(normalizer),
        Err(error) => Err(want_of_memory(error)),
    }
}

/// Returns the normalizers to all forms over built data. They make the forms that the records mean.
///
/// # Errors
/// `Memory` if an allocation failed.
pub fn normalizers_over(built: &Built) -> Result<AllNormalizers, NormalizeError>
    requires { AreBuilt (data_in built.now) }
    ensures data { IfOk result (λ n. (form : NormalForm) → made_to n form ≡ packed_form (data_in built.now) form) }
    ensures canonical { IfOk result (λ n. canonical_data_of n ≡
        (characters_of (data_in built.now) Canonical, (data_in built.now).compositions)) }
    ensures form { (records : List RecordValue) (uts46 : List Uts46RecordValue) →
        Builds records uts46 (data_in built.now) →
        IfOk result (λ n. (form : NormalForm) → IsRecordedForm records form (made_to n form)) }
    ensures refused { IsOkUnless result NormalizeError.Memory }
{
    what_is_built_is_accepted();
    data_that_meet_conditions_are_accepted();
    match built.normalizers() {
        Ok(normalizers) => Ok(normalizers),
        Err(error) => Err(want_of_memory(error)),
    }
}

/// The error of a constructor that refuses nothing but memory.
fn want_of_memory(error: DataError) -> NormalizeError
    requires { error ≡ DataError.Memory }
    ensures { result ≡ NormalizeError.Memory }
{
    match error {
        DataError::Memory => NormalizeError::Memory,
        DataError::Provider(_) | DataError::FutureExtension(_) | DataError::Invalid { .. } => {
            unreachable!()
        }
    }
}

/// Returns the mapper over built data. It maps and validates as the records mean.
///
/// # Errors
/// `Memory` if an allocation failed.
pub fn built_mapper(built: &Built) -> Result<Uts46Mapper, DataError>
    requires { AreBuilt (data_in built.now) }
    ensures held { IfOk result (λ m. mapper_data_of m ≡
        (characters_of (data_in built.now) Mapper, (data_in built.now).compositions)) }
    ensures maps { (records : List RecordValue) (uts46 : List Uts46RecordValue) →
        Builds records uts46 (data_in built.now) → IfOk result (λ m. MapsByRecords records uts46 (mapper_data_of m)) }
    ensures refused { IsOkUnless result DataError.Memory }
{
    what_is_built_is_accepted();
    data_that_meet_conditions_are_accepted();
    Uts46Mapper::try_new(built)
}
