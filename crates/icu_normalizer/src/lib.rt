//! Unicode normalization forms NFC, NFD, NFKC and NFKD (Unicode Standard Annex #15), over data that callers supply and
//! that are checked. No Unicode data come with the crate.
//!
//! [`ComposingNormalizer`] makes NFC and NFKC, [`DecomposingNormalizer`] NFD and NFKD, [`AnyNormalizer`] any of the
//! four, [`AllNormalizers`] all; their borrowed types have the calls. Inputs are `&str`, bytes that may not be UTF-8
//! and 16-bit units that may not be UTF-16 (ill-formed sequences read as U+FFFD), and iterators of `char`. Checks never
//! return 'maybe'. Forms are returned, borrowed if the input is already normalized, or written to a [`sink`].
//!
//! Data come from a [`DataProvider`]. [`Records::build`] makes one from plain records of characters, and
//! [`normalizer_to`] a normalizer over it to the form that the records mean. Constructors check all data against
//! written conditions (`docs/CONDITIONS.md`) and refuse data that break one. All promises hold for all data that pass.
//!
//! - [`properties`]: canonical combining classes, the pairs that compose, and single decomposition steps.
//! - [`uts46`]: the mapper of UTS #46.
//! - [`harfbuzz`]: traits for shapers.
//! - [`provider`]: data, markers and their trait.
//! - [`sink`]: sinks of text, in UTF-8 or UTF-16.
//! - [`laws`]: theorems about records and the data that they build; [`record_laws`] and [`iterator_laws`] have more.
//!
//! A crate that lists this one can cite the definitions that its contracts speak of, also those of the crates below:
//! `specs/Lib.antt` and `proofs/Lib.antt` pass them on.
//!
//! # Examples
//! ```rust
//! let data = Records::build(alloc, &records, &[])?;
//! let normalizer = ComposingNormalizer::try_new_nfc_unstable(&data)?;
//! assert!(rt; *normalizer.as_borrowed().normalize("a\u{308}")? == *"\u{E4}");
//! ```
//! In examples `rt` is the `HostRuntime` of `main`, and `alloc` is `rt.alloc()`. `docs/GUIDE.md` has a whole function, a
//! whole program and an example for each task. Names end in `_unstable` as ICU4X's do: traits of data may still change.
#![tactic(auto)]

mod all_normalizers;
mod any_normalizer;
mod by_records;
mod combining_class;
mod composing_normalizer;
mod composition;
mod decomposing_normalizer;
mod decomposition;
pub mod harfbuzz;
mod held_forms;
pub mod laws;
mod mapping;
mod parts;
pub mod properties;
pub mod provider;
pub mod uts46;

pub use all_normalizers::AllNormalizers;
pub use any_normalizer::{AnyNormalizer, AnyNormalizerBorrowed, NormalForm};
pub use by_records::{built_mapper, normalizer_to, normalizers_over};
pub use composing_normalizer::ComposingNormalizer;
pub use decomposing_normalizer::DecomposingNormalizer;
pub use held_forms::{FormData, MappingData};
pub use mapping::{is_valid, mapped};
pub use normalizer_builder::{Built, Records, laws as record_laws};
pub use normalizer_calls::{
    ComposingNormalizerBorrowed, DecomposingNormalizerBorrowed, Utf32Chars,
};
pub use normalizer_check::check_nfd_data;
pub use normalizer_iterators::{
    Composition, Decomposition, NormalizeError, collected, laws as iterator_laws,
};
pub use normalizer_records::{
    BuildError, Record, RecordAtFault, Uts46Range, Uts46Record, Uts46Status, records_of_ranges,
};
pub use normalizer_tables::characters::IgnoredCharacters;
pub use normalizer_tables::{
    CanonicalCompositions, CodePointTable, DataError, DataMarker, DataMarkerInfo, DataProvider,
    DecompositionData, DecompositionTables, NonRecursiveDecompositionSupplement, NormalizerNfcV1,
    NormalizerNfdDataV1, NormalizerNfdSupplementV1, NormalizerNfdTablesV1, NormalizerNfkdDataV1,
    NormalizerNfkdTablesV1, NormalizerUts46DataV1, Scalars16, Scalars24, TableError,
};
pub use normalizer_text::{Chars, Offence, Step, Units, Utf8Chars, Utf16Chars, sink};
pub use parts::{forms_of_parts, has_no_line_feed};
