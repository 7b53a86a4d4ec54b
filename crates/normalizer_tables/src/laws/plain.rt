//! What a word that is 0, flags aside, says of its character.
#![tactic(auto, using(crate::proofs::words::PlainCharacters::plain_characters), unfolding(normal_forms::specs::ShortRuns::continues, crate::specs::Characters::has_class_form))]

ghost use Rattle.std.specs.Prelude.{◌≡◌, ℕ, List, [], ◌∷◌, Option, false, true};
ghost use Rattle.std.specs.Char.{IsScalar};
ghost use Rattle.normal_forms.specs.Forms.{IsNormalized};
ghost use Rattle.normal_forms.specs.Reading.{IsStarter, ReadsAsItself};
ghost use Rattle.normal_forms.specs.ShortRuns.{continues};
ghost use Rattle.normal_forms.specs.declared.Form.{Form};
ghost use Rattle.normalizer_tables.specs.Characters.{Characters, has_class_form, word_of};
ghost use Rattle.normalizer_tables.specs.Readings.{reading_of};
ghost use Rattle.normalizer_tables.specs.Words.{is_plain};

/// A character whose word is 0, flags aside, is a starter that reads as itself and is normalized, and it doesn't
/// continue what comes before it.
pub fn plain_characters_are_their_forms()
    ensures itself { (s : Characters) (ignored : List ℕ) (pairing : ℕ → ℕ → Option ℕ) (c : ℕ) →
        IsScalar c → is_plain (word_of s c) ≡ true → ReadsAsItself (reading_of s ignored pairing) c }
    ensures starter { (s : Characters) (ignored : List ℕ) (pairing : ℕ → ℕ → Option ℕ) (c : ℕ) →
        IsScalar c → is_plain (word_of s c) ≡ true → IsStarter (reading_of s ignored pairing) c }
    ensures form { (s : Characters) (ignored : List ℕ) (pairing : ℕ → ℕ → Option ℕ) (form : Form) (c : ℕ) →
        IsScalar c → is_plain (word_of s c) ≡ true → IsNormalized (reading_of s ignored pairing) form (c ∷ []) }
    ensures at_boundary { (s : Characters) (ignored : List ℕ) (pairing : ℕ → ℕ → Option ℕ) (c : ℕ) →
        IsScalar c → is_plain (word_of s c) ≡ true →
        continues (has_class_form s) (reading_of s ignored pairing) c ≡ false }
{}
