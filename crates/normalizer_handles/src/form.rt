//! The numbers of the forms.
ghost use Rattle.std.specs.Prelude.{◌≡◌, ◌<◌, MatchOption};
ghost use Rattle.normalizer_handles.specs.FormNumbers.{last_form, number_of};

use icu_normalizer::NormalForm;

/// Returns the form of a number.
pub(crate) fn form_numbered(number: u32) -> Option<NormalForm>
    ensures { MatchOption result (last_form < number) (λ form. number ≡ number_of form) }
{
    match number {
        0 => Some(NormalForm::Nfd),
        1 => Some(NormalForm::Nfc),
        2 => Some(NormalForm::Nfkd),
        3 => Some(NormalForm::Nfkc),
        _ => None,
    }
}
