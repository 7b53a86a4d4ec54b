//! Characters before which a text may be divided.
ghost use Rattle.std.specs.Prelude.{◌≡◌, true};
ghost use Rattle.normal_forms.specs.declared.Form.TheVariants.{Composing, Decomposing};
ghost use Rattle.normalizer_calls.specs.BoundaryBefore.{HasBoundaryBefore};
ghost use Rattle.normalizer_calls.specs.Boundaries.{has_composing_boundary, has_decomposing_boundary};
ghost use Rattle.normalizer_calls.specs.Forms.{composed_by, decomposed_by};

use crate::borrowed::NormalizerBorrowed;
use crate::composing_form::ComposingForm;
use crate::decomposing_form::DecomposingForm;

impl<'a> NormalizerBorrowed<DecomposingForm<'a>> {
    /// Returns whether a text may be divided before `character`: its decomposition begins with a starter (The Unicode
    /// Standard, D107). If so, a text that begins with it is normalized apart from what comes before it.
    pub fn has_boundary_before(&self, character: char) -> bool
        ensures exactly { result ≡ has_decomposing_boundary self.now character }
        ensures apart { result ≡ true → HasBoundaryBefore (decomposed_by self.now).reading Decomposing character }
    {
        !self.form.characters.has_class_form(character)
    }
}

impl<'a> NormalizerBorrowed<ComposingForm<'a>> {
    /// Returns whether a text may be divided before `character`: its word has no BACKWARD_COMBINING, or it is below the
    /// bound of composing. Then its decomposition begins with a starter that composes with nothing before it (UAX #15,
    /// section 9.1), and a text that begins with it is normalized apart from what comes before it.
    pub fn has_boundary_before(&self, character: char) -> bool
        ensures exactly { result ≡ has_composing_boundary self.now character }
        ensures apart { result ≡ true → HasBoundaryBefore (composed_by self.now).reading Composing character }
    {
        let form = &self.form;
        form.begins_by(character, form.characters.word_of(character))
    }
}
