//! What the laws of the normal forms require, and users that require less, holds of data that a constructor accepts.
ghost use Rattle.std.specs.Prelude.{◌≡◌, List, false, All, [], None};
ghost use Rattle.normal_forms.specs.declared.Form.{Form};
ghost use Rattle.normal_forms.specs.declared.Form.TheVariants.{Decomposing};
ghost use Rattle.normalizer_check.specs.RequiredConditions.{AreAcceptedPairs, IsAccepted, SuitsMapper, SuitsTexts, class_conditions};
ghost use Rattle.normalizer_tables.specs.Characters.{Characters, characters_from};
ghost use Rattle.normalizer_tables.specs.conditions.Conditions.{IsMet};
ghost use Rattle.normalizer_tables.specs.Data.{Decompositions, Lists};
ghost use Rattle.normalizer_tables.specs.declared.characters.IgnoredCharacters.{IgnoredCharacters};
ghost use Rattle.normalizer_tables.specs.declared.characters.IgnoredCharacters.TheVariants.{Dropped};
ghost use Rattle.normalizer_tables.specs.conditions.Loaded.{characters_loaded, classes_loaded, pairs_loaded};
ghost use Rattle.normalizer_tables.specs.conditions.NfdData.{IsSoundNfdData, nfd_bounds};
ghost use Rattle.normalizer_tables.specs.conditions.PairConditions.{AreSoundPairs};
ghost use Rattle.normalizer_tables.specs.Pairs.{Pair};
ghost use Rattle.normalizer_tables.specs.declared.condition.Bounds.{Bounds};
ghost use Rattle.normalizer_tables.specs.Readings.{reading_by};
ghost use Rattle.normalizer_tables.specs.Passthrough.{IsPassthroughBelow};
ghost use Rattle.normalizer_tables.specs.declared.condition.Condition.TheVariants as condition;

/// Accepted data that are no mapper's satisfy the hypotheses of the decomposing form, and with accepted pairs those of
/// both forms. Canonical data that a caller passes in unchecked satisfy them by their own conditions.
pub fn accepted_data_suit_texts()
    ensures decomposing { (s : Characters) (b : Bounds) → s.is_mapper ≡ false → IsAccepted s b →
        SuitsTexts (reading_by s Dropped []) Decomposing }
    ensures composing { (s : Characters) (b : Bounds) (pairs : List Pair) → s.is_mapper ≡ false →
        IsAccepted s b → AreAcceptedPairs s b pairs → (form : Form) → SuitsTexts (reading_by s Dropped pairs) form }
    ensures handed_in { (decompositions : Decompositions) (tables : Lists) → IsSoundNfdData decompositions tables →
        SuitsTexts (reading_by (characters_from decompositions tables None) Dropped []) Decomposing }
{}

/// Accepted data with accepted pairs satisfy what a mapper requires, however it treats ignored characters.
pub fn accepted_data_suit_mappers()
    ensures { (s : Characters) (b : Bounds) (pairs : List Pair) → IsAccepted s b → AreAcceptedPairs s b pairs →
        (i : IgnoredCharacters) → SuitsMapper (reading_by s i pairs) }
{}

/// A loop may pass on the characters of accepted data below the bound of decomposing unread: conditions 7 and 10.
pub fn low_characters_are_passthrough()
    ensures accepted { (s : Characters) (b : Bounds) → IsAccepted s b → IsPassthroughBelow s b.decomposition }
    ensures handed_in { (decompositions : Decompositions) (tables : Lists) → IsSoundNfdData decompositions tables →
        IsPassthroughBelow (characters_from decompositions tables None) nfd_bounds.decomposition }
{}

/// What is required for classes alone is part of what is required of whole data: conditions 4, 5 and 7.
pub fn accepted_data_have_sound_classes()
    ensures { (s : Characters) (b : Bounds) → IsMet (characters_loaded s b) condition.Surrogates →
        IsMet (characters_loaded s b) condition.PastTheEnd → IsMet (characters_loaded s b) condition.Words →
        All (IsMet (classes_loaded s.decompositions)) class_conditions }
{}

/// What is required of pairs alone is part of what is required of data with pairs: condition 11.
#[tactic(auto, unfolding(normalizer_tables::specs::conditions::Conditions::says))]
pub fn accepted_pairs_are_sound()
    ensures { (s : Characters) (b : Bounds) (pairs : List Pair) → IsMet (pairs_loaded s b pairs) condition.Pairs →
        AreSoundPairs pairs }
{}
