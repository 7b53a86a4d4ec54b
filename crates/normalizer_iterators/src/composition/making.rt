//! Making a composition.
ghost use Rattle.std.specs.Prelude.{◌≡◌, IfOk, []};
ghost use Rattle.std.specs.Iterator.{IsFinite};
ghost use Rattle.normal_forms.specs.Forms.{nfc};
ghost use Rattle.normalizer_tables.specs.Characters.{has_class_form};
ghost use Rattle.normalizer_tables.specs.Readings.{reading_by};
ghost use Rattle.normalizer_iterators.specs.CompositionItems.{data_of_composition, pairs_of_composition};
ghost use Rattle.normalizer_iterators.specs.Iterating.{YieldsFormBy};
ghost use Rattle.normalizer_iterators.specs.LazyComposing.{SuitsLazyComposing};
ghost use Rattle.normalizer_iterators.specs.LazyReading.{SuitsLazyReading};

use crate::composition::Composition;
use crate::decomposition::Decomposition;
use crate::error::NormalizeError;
use normalizer_tables::CanonicalCompositions;
use normalizer_tables::characters::{CharacterData, IgnoredCharacters};
use normalizer_tables::condition::Bounds;

/// Returns an iterator over the composed form of what a delegate yields, using data and pairs that may be read and
/// composed lazily.
///
/// # Errors
/// `Memory` if an allocation failed.
#[inline(always)]
pub fn composed<'data, I: Iterator<Item = char> + Drop>(
    characters: CharacterData<'data>,
    ignored: IgnoredCharacters,
    pairs: &'data CanonicalCompositions,
    bounds: Bounds,
    delegate: I,
) -> Result<Composition<'data, I>, NormalizeError>
    requires can { I.can_next delegate }
    requires ends { IsFinite (I.remaining delegate) }
    requires reading { SuitsLazyReading (has_class_form characters) (reading_by characters ignored []) }
    requires composing { SuitsLazyComposing characters bounds pairs.now }
    ensures form { YieldsFormBy I.next_gives ⟦<Composition<'data, I> as Iterator>⟧.next_gives
        characters.entry ignored pairs.now nfc delegate result }
    ensures ready { IfOk result ⟦<Composition<'data, I> as Iterator>⟧.can_next }
    ensures kept { IfOk result (λ it.
        (data_of_composition it ≡ characters.entry) × (pairs_of_composition it ≡ pairs.now)) }
{
    Ok(Composition {
        decomposed: Decomposition::over(characters, ignored, delegate)?,
        pairs,
        bounds,
        ahead: None,
    })
}
