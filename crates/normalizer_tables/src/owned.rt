//! Decomposition data with the tables that their words point into, as a normalizer owns them.
ghost use Rattle.std.specs.Prelude.{◌≡◌};
ghost use Rattle.normalizer_tables.specs.Owned.{characters_owned};
ghost use Rattle.normalizer_tables.specs.Purposes.{is_mapping};

use crate::characters::{CharacterData, Purpose};
use crate::provider::{DecompositionData, DecompositionTables};

/// Decomposition data with the tables that their words point into.
pub struct OwnedCharacterData {
    /// The words of all characters.
    pub decompositions: DecompositionData,
    /// The tables that come first.
    pub tables: DecompositionTables,
    /// The tables after them, if the data have them.
    pub supplementary: Option<DecompositionTables>,
}

// Written out, so that each place that drops one makes one call.
impl Drop for OwnedCharacterData {
    fn drop(self) {
        let OwnedCharacterData {
            decompositions: _decompositions,
            tables: _tables,
            supplementary: _supplementary,
        } = self;
    }
}

impl OwnedCharacterData {
    /// Returns the data, borrowed for this purpose.
    pub fn as_borrowed(&self, purpose: Purpose) -> CharacterData<'_>
        ensures { result ≡ characters_owned self.now (is_mapping purpose) }
    {
        CharacterData::new(
            &self.decompositions,
            &self.tables,
            self.supplementary.as_ref(),
            purpose,
        )
    }
}
