//! The laws of building. Each function does nothing but call the laws that it rests on: its contract is the law, and
//! its proof is in `proofs/`.
ghost use Rattle.std.specs.Prelude.{◌≡◌, ◌≢◌, false, true, All, List};
ghost use Rattle.normal_forms.specs.declared.Form.{Form};
ghost use Rattle.normal_forms.specs.Hypotheses.{HasNonemptyLists, SuitsForm};
ghost use Rattle.normalizer_tables.specs.declared.condition.Condition.{Condition};
ghost use Rattle.normalizer_tables.specs.declared.provider.DataError.{DataError};
ghost use Rattle.normalizer_tables.specs.declared.provider.DataMarkerInfo.{DataMarkerInfo};
ghost use Rattle.normalizer_check.specs.RequiredConditions.{
  AreAcceptedPairs,
  class_conditions,
  composing_conditions,
  decomposing_conditions,
  IsAccepted,
  step_conditions,
};
ghost use Rattle.normalizer_tables.specs.Characters.{Characters};
ghost use Rattle.normalizer_tables.specs.conditions.Conditions.{IsMet};
ghost use Rattle.normalizer_tables.specs.conditions.Loaded.{
  bounds_of_cap,
  characters_alone,
  characters_and_pairs,
  classes_loaded,
  Loaded,
};
ghost use Rattle.normalizer_tables.specs.conditions.PairConditions.{AreSoundPairs};
ghost use Rattle.normalizer_tables.specs.Pairs.{Pair};
ghost use Rattle.normalizer_check.specs.Refusals.{RefusesFirstFailing};
ghost use Rattle.normalizer_packing.specs.declared.Packed.{Packed};
ghost use Rattle.normalizer_tables.specs.declared.entry.Kind.TheVariants.{Canonical, Compatibility, Mapper};
ghost use Rattle.normalizer_packing.specs.ReadBack.{characters_of};
ghost use Rattle.normalizer_records.specs.declared.records.BuildError.{BuildError};
ghost use Rattle.normalizer_records.specs.declared.records.BuildError.TheVariants.{Memory};
ghost use Rattle.normalizer_records.specs.declared.records.Mappings.{Mappings};
ghost use Rattle.normalizer_records.specs.RecordValue.{RecordValue, Uts46RecordValue};
ghost use Rattle.normalizer_builder.specs.Accepted.{steps_loaded};
ghost use Rattle.normalizer_builder.specs.Building.{Builds, IsSmallest, PacksRecords};
ghost use Rattle.normalizer_builder.specs.RecordedReading.{recorded_reading};

use normal_forms::laws::alike_readings_make_the_same_forms;
use normalizer_check::laws::accepted::{
    accepted_data_have_sound_classes, accepted_data_suit_texts, accepted_pairs_are_sound,
};
use normalizer_check::laws::lists_are_nonempty;

/// All data that pack the same records are equal, so that the records alone decide which condition fails.
pub fn packed_records_are_one()
    ensures { (records : List RecordValue) (uts46 : List Uts46RecordValue) (p q : Packed) →
        PacksRecords records uts46 p → PacksRecords records uts46 q → p ≡ q }
{}

/// The records alone decide the result, unless memory ran out: they have one smallest fault at most, and none if
/// they build data.
pub fn records_have_one_answer()
    ensures refusal { (records : List RecordValue) (uts46 : List Uts46RecordValue) (e f : BuildError) →
        IsSmallest records uts46 e → IsSmallest records uts46 f → e ≢ Memory → f ≢ Memory → e ≡ f }
    ensures built { (records : List RecordValue) (uts46 : List Uts46RecordValue) (p : Packed) (e : BuildError) →
        Builds records uts46 p → IsSmallest records uts46 e → e ≡ Memory }
{}

/// Each constructor accepts what is built: those of the four forms, of the mapper, and of classes, pairs and single
/// decomposition steps. (What classes alone and pairs alone require follows from the laws that are called.)
pub fn what_is_built_is_accepted()
    ensures nfd { (records : List RecordValue) (uts46 : List Uts46RecordValue) (p : Packed) → Builds records uts46 p →
        All (IsMet (characters_alone (characters_of p Canonical))) decomposing_conditions }
    ensures nfkd { (records : List RecordValue) (uts46 : List Uts46RecordValue) (p : Packed) → Builds records uts46 p →
        All (IsMet (characters_alone (characters_of p Compatibility))) decomposing_conditions }
    ensures nfc { (records : List RecordValue) (uts46 : List Uts46RecordValue) (p : Packed) → Builds records uts46 p →
        All (IsMet (characters_and_pairs (characters_of p Canonical) p.compositions)) (composing_conditions false) }
    ensures nfkc { (records : List RecordValue) (uts46 : List Uts46RecordValue) (p : Packed) → Builds records uts46 p →
        All (IsMet (characters_and_pairs (characters_of p Compatibility) p.compositions)) (composing_conditions false) }
    ensures mapper { (records : List RecordValue) (uts46 : List Uts46RecordValue) (p : Packed) →
        Builds records uts46 p →
        All (IsMet (characters_and_pairs (characters_of p Mapper) p.compositions)) (composing_conditions true) }
    ensures classes { (records : List RecordValue) (uts46 : List Uts46RecordValue) (p : Packed) →
        Builds records uts46 p → All (IsMet (classes_loaded p.canonical)) class_conditions }
    ensures pairs { (records : List RecordValue) (uts46 : List Uts46RecordValue) (p : Packed) → Builds records uts46 p →
        AreSoundPairs p.compositions }
    ensures steps { (records : List RecordValue) (uts46 : List Uts46RecordValue) (p : Packed) → Builds records uts46 p →
        All (IsMet (steps_loaded p)) step_conditions }
{
    accepted_data_have_sound_classes();
    accepted_pairs_are_sound();
}

/// A constructor refuses no data that meet all its conditions, and these data are accepted in the words of the laws on
/// data.
pub fn data_that_meet_conditions_are_accepted()
    ensures refused { (d : Loaded) (conditions : List Condition) (kind : DataMarkerInfo) (e : DataError) →
        All (IsMet d) conditions → ¬ RefusesFirstFailing kind d conditions e }
    ensures characters { (s : Characters) (pairs : List Pair) →
        All (IsMet (characters_and_pairs s pairs)) (composing_conditions s.is_mapper) →
        IsAccepted s (bounds_of_cap s.decompositions.cap) }
    ensures pairs { (s : Characters) (pairs : List Pair) →
        All (IsMet (characters_and_pairs s pairs)) (composing_conditions s.is_mapper) →
        AreAcceptedPairs s (bounds_of_cap s.decompositions.cap) pairs }
{}

/// What records that build mean satisfies the hypotheses of the laws of the normal forms. (It follows from the laws on
/// data and on readings that are called.)
pub fn what_is_built_suits_the_laws()
    ensures suits { (records : List RecordValue) (uts46 : List Uts46RecordValue) (p : Packed) → Builds records uts46 p →
        (mappings : Mappings) (form : Form) → SuitsForm (recorded_reading records mappings) form }
    ensures are_nonempty { (records : List RecordValue) (uts46 : List Uts46RecordValue) (p : Packed) →
        Builds records uts46 p → (mappings : Mappings) → HasNonemptyLists (recorded_reading records mappings) }
{
    accepted_data_suit_texts();
    lists_are_nonempty();
    alike_readings_make_the_same_forms();
}
