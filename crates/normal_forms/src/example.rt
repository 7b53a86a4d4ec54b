//! A reading that satisfies the hypotheses of the laws of the normal forms, which shows that they can be met.
ghost use Rattle.std.specs.Prelude.{[], ◌∷◌};
ghost use Rattle.normal_forms.specs.Cut.{IsFront, QualifiesForCut};
ghost use Rattle.normal_forms.specs.Example.{example, unfaithful};
ghost use Rattle.normal_forms.specs.declared.Form.TheVariants.{Composing};
ghost use Rattle.normal_forms.specs.Forms.{IsNormalized, normal_form};
ghost use Rattle.normal_forms.specs.Hypotheses.{HasFullLists, HasStarterResults, HasFaithfulResults, HasNonemptyLists};

/// A reading with a pair, a list of two members and two classes of marks meets all hypotheses.
pub fn example_is_lawful()
    ensures full { HasFullLists example }
    ensures starters { HasStarterResults example }
    ensures faithful { HasFaithfulResults example }
    ensures are_nonempty { HasNonemptyLists example }
{}

/// The laws of the cut need faithful results. Over a reading that satisfies all other hypotheses, a text is at the
/// front of its form and isn't normalized; and of a normalized text the whole qualifies for the cut, but not its first
/// character.
pub fn faithful_results_are_needed()
    ensures full { HasFullLists unfaithful }
    ensures starters { HasStarterResults unfaithful }
    ensures are_nonempty { HasNonemptyLists unfaithful }
    ensures front { IsFront (0x41 ∷ []) (normal_form unfaithful Composing (0x41 ∷ [])) }
    ensures apart { ¬ IsNormalized unfaithful Composing (0x41 ∷ []) }
    ensures whole { QualifiesForCut unfaithful Composing (0x41 ∷ 0x42 ∷ []) 2 }
    ensures first { ¬ QualifiesForCut unfaithful Composing (0x41 ∷ 0x42 ∷ []) 1 }
{}
