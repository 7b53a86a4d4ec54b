//! Normalizing text with prepared data.
ghost use Rattle.std.specs.Prelude.{◌≡◌, IfErr, IfOk, List, MatchResult};
ghost use Rattle.icu_normalizer.specs.Building.{Builds, MeansRecords};
ghost use Rattle.icu_normalizer.specs.Packed.{Packed};
ghost use Rattle.icu_normalizer.specs.RecordValue.{RecordValue, Uts46RecordValue};
ghost use Rattle.icu_normalizer.specs.Utf8.{decoded_utf8};
ghost use Rattle.icu_normalizer.specs.ByRecords.{packed_form};
ghost use Rattle.icu_normalizer.specs.Forms.{form_of};
ghost use Rattle.icu_normalizer.specs.RecordedForms.{recorded_form};
ghost use Rattle.normalizer_prepared.specs.Prepared.{prepared_in, IsFileOf};
ghost use Rattle.normalizer_by_files.specs.PreparedForms.{
  IsFaultOfData,
  IsFaultOfPrepared,
  IsFormByPrepared,
  IsMemory,
};

use icu_normalizer::record_laws::{
    data_that_meet_conditions_are_accepted, what_is_built_is_accepted,
};
use icu_normalizer::{DataError, FormData, NormalForm, Utf8Chars};
use normalizer_prepared::{PreparedData, PreparedError};
use std::alloc::Global;

/// Why a file of prepared data yielded no normal form.
#[derive(Clone, Copy, Debug, PartialEq, Eq)]
pub enum PreparedFault {
    /// The file has a fault, or memory ran out.
    File(PreparedError),
    /// Its data break a condition, or memory ran out.
    Data(DataError),
}

/// Returns the normal form of the text that bytes decode to, by the bytes of a file of prepared data.
///
/// # Errors
/// The first fault of the file, the error by which the form's constructor refuses its data, or `Memory`. For data that
/// records built, only `Memory`.
pub fn form_by_prepared_data(
    alloc: Global,
    prepared: &[u8],
    form: NormalForm,
    bytes: &[u8],
) -> Result<Vec<char>, PreparedFault>
    // By the data whose file it is.
    ensures form { IfOk result (λ v. IsFormByPrepared prepared.now form (decoded_utf8 bytes.now) v.items) }

    // By the records that these data mean.
    ensures records { (records : List RecordValue) (uts46 : List Uts46RecordValue) (p : Packed) →
        MeansRecords records uts46 p → IsFileOf prepared.now p →
        IfOk result (λ v. v.items ≡ recorded_form records form (decoded_utf8 bytes.now)) }

    // Data that records built are refused by `Memory` alone.
    ensures memory { (records : List RecordValue) (uts46 : List Uts46RecordValue) (p : Packed) →
        Builds records uts46 p → IsFileOf prepared.now p → IfErr result IsMemory }
    ensures fault { IfErr result (IsFaultOfPrepared prepared.now form) }
{
    what_is_built_is_accepted();
    data_that_meet_conditions_are_accepted();
    match PreparedData::read(alloc, prepared) {
        Ok(read) => match form_by_read(alloc, &read, form, bytes) {
            Ok(text) => Ok(text),
            Err(error) => Err(PreparedFault::Data(error)),
        },
        Err(error) => Err(PreparedFault::File(error)),
    }
}

/// The normal form over the data of a file, or why there is none.
fn form_by_read(
    alloc: Global,
    read: &PreparedData,
    form: NormalForm,
    bytes: &[u8],
) -> Result<Vec<char>, DataError>
    ensures { MatchResult result
        (λ v. v.items ≡ form_of (packed_form (prepared_in read.now) form) (decoded_utf8 bytes.now))
        (IsFaultOfData (prepared_in read.now) form) }
{
    let normalizer = read.built.normalizer(form)?;
    let characters = Utf8Chars::new(bytes);
    match normalizer
        .as_borrowed()
        .form_of_characters(alloc, characters)
    {
        Ok(text) => Ok(text),
        Err(_) => Err(DataError::Memory),
    }
}
