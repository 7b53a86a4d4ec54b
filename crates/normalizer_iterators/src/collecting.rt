//! The characters that an iterator has still to yield.
ghost use Rattle.std.specs.Prelude.{◌≡◌, ◌⊎◌, ℕ, List, IfOk, IsOkUnless, MatchResult, Some, Ok, Err, map};
ghost use Rattle.std.specs.Iterator.{Drains, IsFinite, YieldsThen};
ghost use Rattle.normalizer_iterators.specs.Items.{SpellsUnless};

use crate::error::NormalizeError;
use crate::laws::text_comes_unless_a_fault_does;
use std::alloc::Global;

/// Returns the remaining characters of an iterator.
///
/// # Errors
/// The first error of the iterator, or `Memory` if an allocation failed.
pub fn collected<I: Iterator<Item = Result<char, NormalizeError>> + Drop>(
    alloc: Global,
    items: I,
) -> Result<Vec<char>, NormalizeError>
    requires can { I.can_next items }
    requires ends { IsFinite (I.remaining items) }
    ensures text { (x : List ℕ) → SpellsUnless I.next_gives NormalizeError.Memory items x →
        IfOk result (λ characters. characters.items ≡ x) × IsOkUnless result NormalizeError.Memory }
    ensures run { MatchResult result (λ characters. Drains I.next_gives items (map Ok characters.items))
        (λ error. (error ≡ NormalizeError.Memory) ⊎ ((out : List ℕ) × (now : I)
        × YieldsThen I.next_gives items (map Ok out) (Some (Err error)) now)) }
{
    text_comes_unless_a_fault_does::<NormalizeError, I>();
    let mut characters = Vec::new(alloc);
    for item in items {
        match characters.push(item?) {
            Ok(()) => {}
            Err(_) => return Err(NormalizeError::Memory),
        }
    }
    Ok(characters)
}
