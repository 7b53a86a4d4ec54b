//! Normalizers over borrowed data: one type, generic in the form that it makes.

/// A normalizer over borrowed data: the calls on text are its methods. `F` is the form with its data.
#[derive(Drop)]
pub struct NormalizerBorrowed<F> {
    pub(crate) form: F,
}
