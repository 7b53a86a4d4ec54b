//! Records of characters.
ghost use Rattle.std.specs.Prelude.{◌≡◌, ◌↔◌, IsTrue};
ghost use Rattle.std.specs.Cmp.{partial_equiv_from_equiv};
ghost use Rattle.normalizer_records.specs.Equal.{entry_eq, mapper_entry_eq};
ghost use Rattle.normalizer_records.specs.EqualLaws.{entry_equivalence, mapper_entry_equivalence};

use normalizer_tables::DataMarkerInfo;
use normalizer_tables::places::HasCharacter;
use std::alloc::AllocError;
use std::marker::Model;
use thiserror::Error;

/// A record of one character: its class and its mapping, as in a line of `UnicodeData.txt`.
#[derive(Drop, Clone, Debug)]
pub struct Record {
    /// The character.
    pub c: char,
    /// Its canonical combining class.
    pub class: u8,
    /// Its decomposition mapping, not replaced further. An empty one is none, and the two flags are then ignored.
    pub mapping: Vec<char>,
    /// Whether the mapping is a compatibility mapping.
    pub compatibility: bool,
    /// Whether the character is excluded from composition. Only canonical mappings of two characters use it.
    pub excluded: bool,
}

impl Model for Record {
    ghost use Rattle.normalizer_records.specs.RecordValue.{RecordValue};

    ghost Value = { RecordValue };

    ghost view = { λ r. record {
      c = r.c;
      class = r.class;
      mapping = r.mapping.items;
      compatibility = r.compatibility;
      excluded = r.excluded;
    } };
}

impl HasCharacter for Record {
    ghost character = { λ r. r.c };

    fn character(&self) -> char {
        self.c
    }
}

impl PartialEq for Record {
    ghost eq = { entry_eq };

    ghost laws = { partial_equiv_from_equiv entry_equivalence };

    fn eq(&self, other: &Record) -> bool
        ensures value { result ≡ entry_eq self.now other.now }
        ensures same { IsTrue result ↔ (self.now ≡ other.now) }
    {
        self.c == other.c
            && self.class == other.class
            && self.mapping == other.mapping
            && self.compatibility == other.compatibility
            && self.excluded == other.excluded
    }
}

impl Eq for Record {
    ghost laws = { entry_equivalence };
}

/// What the mapper does with a character (UTS #46, section 4): it maps it to others, drops it, or replaces it by
/// U+FFFD.
#[derive(Drop, Clone, PartialEq, Eq, Debug)]
pub enum Uts46Status {
    /// It is mapped to these characters, at least one.
    Mapped(Vec<char>),
    /// It is dropped.
    Ignored,
    /// It is replaced by U+FFFD.
    Disallowed,
}

/// A record of one character for the mapper.
#[derive(Drop, Clone, Debug)]
pub struct Uts46Record {
    /// The character.
    pub c: char,
    /// What the mapper does with it.
    pub status: Uts46Status,
}

impl Model for Uts46Record {
    ghost use Rattle.normalizer_records.specs.RecordValue.{Uts46RecordValue};

    ghost Value = { Uts46RecordValue };

    ghost use Rattle.normalizer_records.specs.Statuses.{status_of};

    ghost view = { λ r. record { c = r.c; status = status_of r.status } };
}

impl HasCharacter for Uts46Record {
    ghost character = { λ r. r.c };

    fn character(&self) -> char {
        self.c
    }
}

impl PartialEq for Uts46Record {
    ghost eq = { mapper_entry_eq };

    ghost laws = { partial_equiv_from_equiv mapper_entry_equivalence };

    fn eq(&self, other: &Uts46Record) -> bool
        ensures value { result ≡ mapper_entry_eq self.now other.now }
        ensures same { IsTrue result ↔ (self.now ≡ other.now) }
    {
        self.c == other.c && self.status == other.status
    }
}

impl Eq for Uts46Record {
    ghost laws = { mapper_entry_equivalence };
}

/// Which mappings are replaced: the canonical ones alone, or all.
#[derive(Clone, Copy, PartialEq, Eq, Debug)]
pub enum Mappings {
    /// Canonical mappings.
    Canonical,
    /// Canonical and compatibility mappings.
    All,
}

/// Why records were refused: the first fault in the order of the variants. `Memory` may come in place of any.
#[derive(Clone, Copy, PartialEq, Eq, Debug, Error)]
pub enum BuildError {
    /// The records of a kind aren't sorted, without duplicates by character.
    #[error("the records don't strictly rise by character")]
    Order,
    /// A record for a character whose data are fixed: U+FFFD, a conjoining jamo or a Hangul syllable.
    #[error("a record of U+FFFD, a conjoining jamo or a Hangul syllable")]
    Fixed,
    /// A class of 255, a mark with a mapping, or a list that begins with a mark.
    #[error("a class of 255, or a list that begins with a mark")]
    Class,
    /// A mapping that is too long or has a character that it must not have, or an empty one of the mapper's.
    #[error("a mapping of a wrong length or with a character that it may not have")]
    Mapping,
    /// More than 16 records, each with the next one's character in its mapping.
    #[error("more than 16 records lead from one to the next")]
    Chain,
    /// A list that is longer than words can encode.
    #[error("a list is too long")]
    Length,
    /// Two records give the same pair.
    #[error("two records give the same pair")]
    Pair,
    /// The data that the records make break the written condition of this number (`docs/CONDITIONS.md`).
    #[error("the data of {marker:?} break condition {condition}")]
    Unfit {
        /// The kind of data.
        marker: DataMarkerInfo,
        /// The number of the condition.
        condition: u8,
    },
    /// The lists that need tables have more than 8,191 items together.
    #[error("the lists have more items than the tables hold")]
    TableFull,
    /// An allocation failed.
    #[error("out of memory")]
    Memory,
}

impl From<AllocError> for BuildError {
    ghost use Rattle.normalizer_records.specs.declared.records.BuildError.TheVariants.{Memory};

    ghost from_gives = { λ _ error. error ≡ Memory };

    fn from(_error: AllocError) -> BuildError {
        BuildError::Memory
    }
}
