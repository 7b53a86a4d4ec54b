//! The forms of parts of a text.
ghost use Rattle.std.specs.Prelude.{◌≡◌, ◌++◌, ◌∷◌, ℕ, List, [], true};
ghost use Rattle.normalizer_builder.specs.Building.{Builds};
ghost use Rattle.normalizer_packing.specs.declared.Packed.{Packed};
ghost use Rattle.normalizer_records.specs.RecordValue.{RecordValue, Uts46RecordValue};
ghost use Rattle.icu_normalizer.specs.Parts.{encoded_recorded_form, has_no_line_feed};
ghost use Rattle.icu_normalizer.specs.RecordedForms.{recorded_form};
ghost use Rattle.icu_normalizer.specs.declared.any_normalizer.NormalForm.{NormalForm};

use normalizer_builder::laws::what_is_built_suits_the_laws;
use normalizer_records::Record;
use normalizer_text::laws::{
    low_units_begin_low_characters, step_begins_at_unit_that_cannot_trail,
};

/// Returns whether no record is of a line feed or has one in its mapping. If so, a text may be divided after each line
/// feed: the form of the whole is the forms of the parts, one after another (`forms_of_parts`).
pub fn has_no_line_feed(records: &[Record]) -> bool
    ensures { result ≡ has_no_line_feed records.now }
{
    records.iter().all(|record| record.c != '\n' && !record.mapping.contains(&'\n'))
}

/// A text may be divided after a line feed, whatever comes next, and so may bytes, well-formed or not: the form of the
/// whole is the forms of the parts, one after another.
pub fn forms_of_parts()
    ensures text { (records : List RecordValue) (uts46 : List Uts46RecordValue) (p : Packed) →
        Builds records uts46 p → has_no_line_feed records ≡ true → (form : NormalForm) (x y : List ℕ) →
        recorded_form records form ((x ++ 0x0A ∷ []) ++ y)
        ≡ recorded_form records form (x ++ 0x0A ∷ []) ++ recorded_form records form y }
    ensures bytes { (records : List RecordValue) (uts46 : List Uts46RecordValue) (p : Packed) →
        Builds records uts46 p → has_no_line_feed records ≡ true → (form : NormalForm) (x y : List ℕ) →
        encoded_recorded_form records form ((x ++ 0x0A ∷ []) ++ y)
        ≡ encoded_recorded_form records form (x ++ 0x0A ∷ []) ++ encoded_recorded_form records form y }
{
    what_is_built_suits_the_laws();
    step_begins_at_unit_that_cannot_trail();
    low_units_begin_low_characters();
}
