//! Forms over data that serve them, and normalizers to these forms.
ghost use Rattle.std.specs.Prelude.{◌≡◌};
ghost use Rattle.normalizer_calls.specs.Serving.{AreComposingBytes, ServesComposing, ServesDecomposing};

use crate::borrowed::NormalizerBorrowed;
use crate::composing_form::ComposingForm;
use crate::decomposing_form::DecomposingForm;
use normalizer_passing::PassBytes;
use normalizer_tables::CanonicalCompositions;
use normalizer_tables::characters::CharacterData;
use normalizer_tables::condition::Bounds;

impl<F> NormalizerBorrowed<F> {
    /// Makes the normalizer to a form.
    #[inline(always)]
    pub fn new(form: F) -> Self
        ensures { result.form ≡ form }
    {
        NormalizerBorrowed { form }
    }
}

impl<'a> DecomposingForm<'a> {
    /// Makes the decomposing form over data.
    #[inline(always)]
    pub fn new(characters: CharacterData<'a>, bounds: Bounds) -> Self
        requires { ServesDecomposing characters bounds }
        ensures characters { result.characters ≡ characters.entry }
        ensures bounds { result.bounds ≡ bounds }
    {
        DecomposingForm { characters, bounds }
    }
}

impl<'a> ComposingForm<'a> {
    /// Makes the composing form over data, pairs, and the bytes by which characters pass in it.
    #[inline(always)]
    pub fn new(
        characters: CharacterData<'a>,
        pairs: &'a CanonicalCompositions,
        bounds: Bounds,
        bytes: &'a PassBytes,
    ) -> Self
        requires passing { AreComposingBytes characters pairs.now bytes.now }
        requires serves { ServesComposing characters bounds pairs.now }
        ensures characters { result.characters ≡ characters.entry }
        ensures pairs { result.pairs.now ≡ pairs.now }
        ensures bounds { result.bounds ≡ bounds }
        ensures bytes { result.bytes.now ≡ bytes.now }
    {
        ComposingForm {
            characters,
            pairs,
            bounds,
            bytes,
        }
    }
}
