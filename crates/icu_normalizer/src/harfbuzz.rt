//! Traits by which a shaper uses properties of characters. The types of `properties` implement them.
ghost use Rattle.std.specs.Prelude.{◌≡◌};
ghost use Rattle.icu_normalizer.specs.Shapers.{shaper_mapping};

use crate::combining_class::{CanonicalCombiningClassMap, CanonicalCombiningClassMapBorrowed};
use crate::composition::{CanonicalComposition, CanonicalCompositionBorrowed};
use crate::decomposition::{CanonicalDecomposition, CanonicalDecompositionBorrowed};
use normalizer_tables::step::Step as Decomposed;

/// Composition of two characters.
pub trait ComposeFunc {
    ghost use Rattle.std.specs.Prelude.{ℕ, Option};

    ghost composite: { Self → ℕ → ℕ → Option ℕ };

    /// Returns what two characters compose to, if they do.
    fn compose(&self, a: char, b: char) -> Option<char>
        ensures { result ≡ composite self.now a b };
}

/// One step of the canonical decomposition of a character.
pub trait DecomposeFunc {
    ghost use Rattle.std.specs.Prelude.{ℕ, Option};

    ghost mapping: { Self → ℕ → Option (ℕ × ℕ) };

    /// Returns the two characters that `character` maps to; the one, with U+0000 after it; or `None` if it has no
    /// mapping.
    fn decompose(&self, character: char) -> Option<(char, char)>
        ensures { result ≡ mapping self.now character };
}

/// The canonical combining class of a character.
pub trait CombiningClassFunc {
    ghost use Rattle.std.specs.Prelude.{ℕ};

    ghost class: { Self → ℕ → ℕ };

    /// Returns the class of a character, 0 for a starter.
    fn combining_class(&self, character: char) -> u8
        ensures { result ≡ class self.now character };
}

impl ComposeFunc for CanonicalComposition {
    ghost use Rattle.normalizer_tables.specs.Pairs.{pair_of};
    ghost use Rattle.icu_normalizer.specs.Properties.{pairs_of};

    ghost composite = { λ c. pair_of (pairs_of c) };

    fn compose(&self, a: char, b: char) -> Option<char> {
        self.as_borrowed().compose(a, b)
    }
}

impl<'a> ComposeFunc for &'a CanonicalComposition {
    ghost use Rattle.normalizer_tables.specs.Pairs.{pair_of};
    ghost use Rattle.icu_normalizer.specs.Properties.{pairs_of};

    ghost composite = { λ c. pair_of (pairs_of c.now) };

    fn compose(&self, a: char, b: char) -> Option<char> {
        self.as_borrowed().compose(a, b)
    }
}

impl<'a> ComposeFunc for CanonicalCompositionBorrowed<'a> {
    ghost use Rattle.normalizer_tables.specs.Pairs.{pair_of};
    ghost use Rattle.icu_normalizer.specs.Properties.{pairs_of_borrowed};

    ghost composite = { λ c. pair_of (pairs_of_borrowed c) };

    fn compose(&self, a: char, b: char) -> Option<char> {
        let pairs = *self;
        pairs.compose(a, b)
    }
}

/// What is returned to a shaper for a step.
fn shaper_mapping(step: Decomposed) -> Option<(char, char)>
    ensures { result ≡ shaper_mapping step }
{
    match step {
        Decomposed::Default => None,
        Decomposed::Singleton(a) => Some((a, '\0')),
        Decomposed::Expansion(a, b) => Some((a, b)),
    }
}

impl DecomposeFunc for CanonicalDecomposition {
    ghost use Rattle.icu_normalizer.specs.Properties.{shaper_step, steps_of};

    ghost mapping = { λ d. shaper_step (steps_of d) };

    fn decompose(&self, character: char) -> Option<(char, char)> {
        shaper_mapping(self.as_borrowed().decompose(character))
    }
}

impl<'a> DecomposeFunc for &'a CanonicalDecomposition {
    ghost use Rattle.icu_normalizer.specs.Properties.{shaper_step, steps_of};

    ghost mapping = { λ d. shaper_step (steps_of d.now) };

    fn decompose(&self, character: char) -> Option<(char, char)> {
        shaper_mapping(self.as_borrowed().decompose(character))
    }
}

impl<'a> DecomposeFunc for CanonicalDecompositionBorrowed<'a> {
    ghost use Rattle.icu_normalizer.specs.Properties.{shaper_step, steps_of_borrowed};

    ghost mapping = { λ d. shaper_step (steps_of_borrowed d) };

    fn decompose(&self, character: char) -> Option<(char, char)> {
        shaper_mapping(CanonicalDecompositionBorrowed::decompose(self, character))
    }
}

impl CombiningClassFunc for CanonicalCombiningClassMap {
    ghost use Rattle.icu_normalizer.specs.ClassData.{combining_class};
    ghost use Rattle.icu_normalizer.specs.Properties.{classes_of};

    ghost class = { λ m. combining_class (classes_of m) };

    fn combining_class(&self, character: char) -> u8 {
        self.as_borrowed().get_u8(character)
    }
}

impl<'a> CombiningClassFunc for &'a CanonicalCombiningClassMap {
    ghost use Rattle.icu_normalizer.specs.ClassData.{combining_class};
    ghost use Rattle.icu_normalizer.specs.Properties.{classes_of};

    ghost class = { λ m. combining_class (classes_of m.now) };

    fn combining_class(&self, character: char) -> u8 {
        self.as_borrowed().get_u8(character)
    }
}

impl<'a> CombiningClassFunc for CanonicalCombiningClassMapBorrowed<'a> {
    ghost use Rattle.icu_normalizer.specs.ClassData.{combining_class};
    ghost use Rattle.icu_normalizer.specs.Properties.{classes_of_borrowed};

    ghost class = { λ m. combining_class (classes_of_borrowed m) };

    fn combining_class(&self, character: char) -> u8 {
        self.get_u8(character)
    }
}
