//! The laws of packed data. Each function does nothing: its contract is the law, and its proof is in `proofs/`.
#![tactic(auto, using(crate::proofs::entry_data::PackingLemmas::one_packing, crate::proofs::reading_back::DataReadBack::packs_reads_back))]

ghost use Rattle.std.specs.Prelude.{◌≡◌, List};
ghost use Rattle.normalizer_tables.specs.Pairs.{Pair};
ghost use Rattle.normalizer_packing.specs.declared.Packed.{Packed};
ghost use Rattle.normalizer_tables.specs.declared.entry.Kind.{Kind};
ghost use Rattle.normalizer_tables.specs.Entries.{EntryValue};
ghost use Rattle.normalizer_packing.specs.Packing.{ArePackable, Packs};
ghost use Rattle.normalizer_packing.specs.ReadBack.{AreReadable, ReadsBack, characters_of};

/// Packing is deterministic: all data that pack the same entries and pairs are equal.
pub fn packed_data_are_one()
    ensures { (entries : List EntryValue) (pairs : List Pair) (p q : Packed) →
        Packs entries pairs p → Packs entries pairs q → p ≡ q }
{}

/// Packed data read as what the entries say of every character: its list and, if its word has room for it, its class.
pub fn packed_data_read_back()
    ensures { (kind : Kind) (entries : List EntryValue) (pairs : List Pair) (p : Packed) →
        ArePackable entries → AreReadable kind entries → Packs entries pairs p →
        ReadsBack kind entries (characters_of p kind) }
{}
