//! The laws of what records mean. Each function does nothing: its contract is the law, its proof is in `proofs/`.
ghost use Rattle.std.specs.Prelude.{◌≡◌, ◌↔◌, ℕ, List, ◌∷◌, [], false, All};
ghost use Rattle.normalizer_records.specs.declared.records.Mappings.{Mappings};
ghost use Rattle.normalizer_records.specs.RecordValue.{RecordValue, Uts46RecordValue};
ghost use Rattle.normalizer_records.specs.Faults.{has_fixed_fault, IsOnLongChain};
ghost use Rattle.normalizer_records.specs.Meaning.{expand_all, expansion, levels, ExpandsTo};

/// If a character is on no chain of more than 16 records, replacing until nothing changes has exactly one result, its
/// expansion. The same holds for a text of such characters.
pub fn expansion_is_replacing()
    ensures character { (records : List RecordValue) (uts46 : List Uts46RecordValue) (mappings : Mappings) →
        has_fixed_fault records uts46 ≡ false → (c : ℕ) (list : List ℕ) → (¬ IsOnLongChain records c) →
        ExpandsTo records mappings (c ∷ []) list ↔ (list ≡ expansion records mappings levels c) }
    ensures text { (records : List RecordValue) (uts46 : List Uts46RecordValue) (mappings : Mappings) →
        has_fixed_fault records uts46 ≡ false → (text list : List ℕ) → All (λ c. ¬ IsOnLongChain records c) text →
        ExpandsTo records mappings text list ↔ (list ≡ expand_all records mappings text) }
{}
