//! Normalizing text with a version of Unicode's own data.
ghost use Rattle.std.specs.Prelude.{◌≡◌, IfOk, MatchResult, None};
ghost use Rattle.icu_normalizer.specs.RecordedForms.{recorded_form};
ghost use Rattle.icu_normalizer.specs.Utf8.{decoded_utf8};
ghost use Rattle.normalizer_by_files.specs.UnicodeForms.{IsFaultOfFiles};
ghost use Rattle.normalizer_ucd.specs.FileFaults.{fault_of_files};
ghost use Rattle.normalizer_ucd.specs.FileLines.{stated_records};

use crate::by_records::form_by_records;
use icu_normalizer::{BuildError, NormalForm};
use normalizer_ucd::{UcdError, records_of_unicode_data};
use std::alloc::Global;

/// Why Unicode's files yielded no normal form.
#[derive(Clone, Copy, Debug, PartialEq, Eq)]
pub enum UnicodeFault {
    /// A line of a file is wrong, or memory ran out.
    File(UcdError),
    /// The records can't be built, or memory ran out.
    Records(BuildError),
}

/// Returns the normal form of the text that bytes decode to, by the bytes of `UnicodeData.txt` and
/// `CompositionExclusions.txt`.
///
/// # Errors
/// The first line that is wrong, the smallest fault of the records, or `Memory`.
pub fn form_by_unicode_data(
    alloc: Global,
    unicode_data: &[u8],
    exclusions: &[u8],
    form: NormalForm,
    bytes: &[u8],
) -> Result<Vec<char>, UnicodeFault>
    // By the records that the lines of the files state.
    ensures form { IfOk result (λ v.
        v.items ≡ recorded_form (stated_records unicode_data.now exclusions.now) form (decoded_utf8 bytes.now)) }

    // Nothing is wrong with the files, or why there is no form.
    ensures fault { MatchResult result (λ v. fault_of_files unicode_data.now exclusions.now ≡ None)
        (IsFaultOfFiles unicode_data.now exclusions.now) }
{
    match records_of_unicode_data(alloc, unicode_data, exclusions) {
        Ok(records) => match form_by_records(alloc, &records, &[], form, bytes) {
            Ok(text) => Ok(text),
            Err(fault) => Err(UnicodeFault::Records(fault)),
        },
        Err(fault) => Err(UnicodeFault::File(fault)),
    }
}
