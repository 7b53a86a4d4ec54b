//! What holds of data and pairs that meet the written conditions.
#![tactic(auto, using(crate::proofs::composites::PairLaws::pair_laws))]

ghost use Rattle.std.specs.Prelude.{◌≡◌, ◌≢◌, ℕ, List, [], ◌∷◌, true};
ghost use Rattle.std.specs.Char.{IsScalar};
ghost use Rattle.normal_forms.specs.Boundary.{BeginsAtBoundary};
ghost use Rattle.normal_forms.specs.Forms.{IsNormalized};
ghost use Rattle.normal_forms.specs.declared.Form.TheVariants as form;
ghost use Rattle.normalizer_tables.specs.Characters.{Characters, list_of};
ghost use Rattle.normalizer_tables.specs.conditions.Conditions.{IsMet};
ghost use Rattle.normalizer_tables.specs.conditions.Loaded.{characters_loaded, pairs_loaded};
ghost use Rattle.normalizer_tables.specs.Ignored.{ignored_list};
ghost use Rattle.normalizer_tables.specs.declared.characters.IgnoredCharacters.{IgnoredCharacters};
ghost use Rattle.normalizer_tables.specs.conditions.PairConditions.{is_composing_passthrough};
ghost use Rattle.normalizer_tables.specs.Pairs.{Pair};
ghost use Rattle.normalizer_tables.specs.declared.condition.Bounds.{Bounds};
ghost use Rattle.normalizer_tables.specs.Readings.{reading_by};
ghost use Rattle.normalizer_tables.specs.declared.condition.Condition.TheVariants as condition;

/// A character that a composing loop passes is normalized, and nothing is reordered or composed across its beginning:
/// conditions 9, 12 and 13.
pub fn passthrough_is_normalized_apart()
    ensures form { (s : Characters) (b : Bounds) (pairs : List Pair) →
        IsMet (characters_loaded s b) condition.Order → IsMet (pairs_loaded s b pairs) condition.RoundTrip →
        (i : IgnoredCharacters) (c : ℕ) → IsScalar c → is_composing_passthrough s b c ≡ true →
        IsNormalized (reading_by s i pairs) form.Composing (c ∷ []) }
    ensures beginning { (s : Characters) (b : Bounds) (pairs : List Pair) →
        IsMet (pairs_loaded s b pairs) condition.SafeBeginning →
        (i : IgnoredCharacters) (c : ℕ) → IsScalar c → is_composing_passthrough s b c ≡ true →
        BeginsAtBoundary (reading_by s i pairs) (list_of s (ignored_list i) c) }
    ensures are_nonempty { (s : Characters) (b : Bounds) (pairs : List Pair) →
        IsMet (pairs_loaded s b pairs) condition.SafeBeginning →
        (i : IgnoredCharacters) (c : ℕ) → IsScalar c → is_composing_passthrough s b c ≡ true →
        list_of s (ignored_list i) c ≢ [] }
{}
