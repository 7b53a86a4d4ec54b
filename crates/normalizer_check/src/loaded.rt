//! All that a constructor may load.
ghost use Rattle.std.specs.Prelude.{◌≡◌};
ghost use Rattle.std.specs.Option.{option_copied};

use normalizer_tables::characters::CharacterData;
use normalizer_tables::condition::Bounds;
use normalizer_tables::{CanonicalCompositions, NonRecursiveDecompositionSupplement};
use std::marker::Model;

/// What a constructor loaded: the words with their tables, the pairs and the supplement if it loads them, and the
/// bounds.
#[derive(Drop)]
pub struct LoadedData<'a> {
    pub(crate) characters: CharacterData<'a>,
    pub(crate) bounds: Bounds,
    pub(crate) pairs: Option<&'a CanonicalCompositions>,
    pub(crate) supplement: Option<&'a NonRecursiveDecompositionSupplement>,
}

impl<'a> Model for LoadedData<'a> {
    ghost use Rattle.std.specs.Option.{option_copied};
    ghost use Rattle.normalizer_tables.specs.conditions.Loaded.{Loaded};

    ghost Value = { Loaded };

    ghost view = { λ d. record {
      characters = d.characters;
      bounds = d.bounds;
      pairs = option_copied d.pairs;
      supplement = option_copied d.supplement;
    } };
}

impl<'a> LoadedData<'a> {
    /// Makes the whole of its parts.
    pub fn new(
        characters: CharacterData<'a>,
        bounds: Bounds,
        pairs: Option<&'a CanonicalCompositions>,
        supplement: Option<&'a NonRecursiveDecompositionSupplement>,
    ) -> Self
        ensures { result ≡ record {
          characters = characters.entry;
          bounds = bounds;
          pairs = option_copied pairs.entry;
          supplement = option_copied supplement.entry;
        } }
    {
        LoadedData {
            characters,
            bounds,
            pairs,
            supplement,
        }
    }
}
