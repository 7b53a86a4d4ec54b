//! Places at which the form of bytes may be divided, whatever comes after them.
ghost use Rattle.std.specs.Prelude.{◌≡◌, ℕ, ◌<◌, ◌≤◌, true, false, drop, length, IfNone, IfSome};
ghost use Rattle.icu_normalizer.specs.BoundaryBefore.{HasBoundaryBefore};
ghost use Rattle.icu_normalizer.specs.AnyNormalizers.{kind_by, made_by, reading_of};
ghost use Rattle.normalizer_streams.specs.Streams.{form_by, may_continue, IsDivision};
ghost use Rattle.normalizer_streams.specs.inner.Agreements.{BeginsPartBy};
ghost use Rattle.normalizer_streams.specs.inner.Moves.{IsSettled};

use icu_normalizer::{AnyNormalizer, Units};

/// Returns the last settled place that isn't among the first `from` bytes or at the beginning, if there is one.
pub(crate) fn last_settled(normalizer: &AnyNormalizer, bytes: &[u8], from: usize) -> Option<usize>
    ensures settled { IfSome result (IsSettled (form_by normalizer.now) bytes.now) }
    ensures part { IfSome result (λ place. BeginsPartBy (made_by normalizer.now) (drop place bytes.now)) }
    ensures none { IfNone result ((place : ℕ) → 0 < place → from ≤ place →
        IsDivision (may_continue normalizer.now) bytes.now place → ⊥) }
    ensures last { IfSome result (λ last. (place : ℕ) → last < place →
        IsDivision (may_continue normalizer.now) bytes.now place → ⊥) }
{
    let mut place = bytes.len();
    while place > from.max(1) {
        place -= 1;
        if is_settled(normalizer, bytes, place) {
            return Some(place);
        }
    }
    None
}

/// Whether a whole character is at the place, with a boundary before it.
fn is_settled(normalizer: &AnyNormalizer, bytes: &[u8], place: usize) -> bool
    requires positive { 0 < place }
    requires within { place < length bytes.now }
    ensures settled { result ≡ true → IsSettled (form_by normalizer.now) bytes.now place }
    ensures part { result ≡ true → BeginsPartBy (made_by normalizer.now) (drop place bytes.now) }
    ensures missed { result ≡ false → IsDivision (may_continue normalizer.now) bytes.now place → ⊥ }
{
    let step = bytes.step_at(place);
    !step.is_error && has_boundary_before(normalizer, step.character)
}

/// Whether a text may be divided before the character.
fn has_boundary_before(normalizer: &AnyNormalizer, character: char) -> bool
    ensures apart { result ≡ true → HasBoundaryBefore (reading_of normalizer.now) (kind_by normalizer.now) character }
    ensures continues { result ≡ false → may_continue normalizer.now character ≡ true }
{
    match normalizer {
        AnyNormalizer::Decomposing(n) => n.as_borrowed().has_boundary_before(character),
        AnyNormalizer::Composing(n) => n.as_borrowed().has_boundary_before(character),
    }
}
