//! Normalizers over the record set `rows`.
use icu_normalizer::{
    AnyNormalizer, Built, ComposingNormalizer, DecomposingNormalizer, FormData, NormalForm,
};
use normtool_command::arguments::RecordSet;
use normtool_command::run;
use std::alloc::Global;

pub(crate) fn built(alloc: Global) -> Option<Built> {
    run::built(alloc, RecordSet::Rows).ok()
}

pub(crate) fn normalizer(alloc: Global, form: NormalForm) -> Option<AnyNormalizer> {
    built(alloc)?.normalizer(form).ok()
}

pub(crate) fn nfd(alloc: Global) -> Option<DecomposingNormalizer> {
    DecomposingNormalizer::try_new_nfd_unstable(&built(alloc)?).ok()
}

pub(crate) fn nfc(alloc: Global) -> Option<ComposingNormalizer> {
    ComposingNormalizer::try_new_nfc_unstable(&built(alloc)?).ok()
}
