//! What holds of data that meet the written conditions. Each function does nothing: its contract is the law, and its
//! proof is in `proofs/`.
#![tactic(auto, using(normalizer_tables::proofs::lists::NonemptyLists::inhabited_lists))]

ghost use Rattle.std.specs.Prelude.{◌≡◌, ℕ, ◌⊎◌, false, Option};
ghost use Rattle.normal_forms.specs.Hypotheses.{HasNonemptyLists};
ghost use Rattle.normalizer_tables.specs.Characters.{Characters};
ghost use Rattle.normalizer_tables.specs.Ignored.{ignored_list};
ghost use Rattle.normalizer_tables.specs.declared.characters.IgnoredCharacters.{IgnoredCharacters};
ghost use Rattle.normalizer_tables.specs.declared.characters.IgnoredCharacters.TheVariants.{Replaced};
ghost use Rattle.normalizer_tables.specs.Readings.{reading_of};

pub mod accepted;
pub mod data_with_pairs;

/// No list is empty, except those of characters that the mapper drops.
pub fn lists_are_nonempty()
    ensures { (s : Characters) (i : IgnoredCharacters) (pairing : ℕ → ℕ → Option ℕ) →
        (s.is_mapper ≡ false) ⊎ (i ≡ Replaced) →
        HasNonemptyLists (reading_of s (ignored_list i) pairing) }
{}
