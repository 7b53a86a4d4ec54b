//! Yielding characters as they are, if a composing loop passes them.
ghost use Rattle.std.specs.Prelude.{◌≡◌, ◌↔◌, [], IsTrue};
ghost use Rattle.normalizer_iterators.specs.LazyComposing.{IsComposingPassthrough, PassthroughHasBoundaries};
ghost use Rattle.normalizer_iterators.specs.inner.PassthroughItems.{PassthroughIsNext, IfComposingPassthrough};
ghost use Rattle.normalizer_iterators.specs.inner.PassthroughItems.{YieldsPassthroughBy};
ghost use Rattle.normalizer_iterators.specs.DecompositionItems.{CanDecompose};
ghost use Rattle.normalizer_iterators.specs.Reads.{character_of, HasOwnWord, HasOwnWords};
ghost use Rattle.normalizer_iterators.specs.WaitingList.{ordered_text};

use crate::decomposition::Decomposition;
use crate::error::NormalizeError;
use crate::pending::{PendingChar, read_from};
use normalizer_tables::characters::CharacterData;
use normalizer_tables::condition::Bounds;
use normalizer_tables::word::{is_backward_combining, is_non_round_trip};

/// How a character was yielded.
#[derive(Clone, Copy)]
pub(crate) enum Given {
    /// As it is: it is composed.
    Itself(char),
    /// The first member of its list was yielded; the others are buffered.
    FirstMember(char),
}

/// Whether nothing is buffered, and a composing loop passes the character that is read next.
#[inline(always)]
pub(crate) fn is_at_passthrough<I: Iterator<Item = char> + Drop>(
    decomposed: &Decomposition<'_, I>,
    bounds: Bounds,
) -> bool
    ensures { IsTrue result ↔ PassthroughIsNext bounds decomposed.now }
{
    match decomposed.pending {
        Some(read) => {
            decomposed.waiting.is_empty()
                && is_composing_passthrough(&decomposed.characters, bounds, read)
        }
        None => false,
    }
}

/// The next character: as it is if the one after it is passed too, or none is; else the first member of its list.
#[inline(always)]
pub(crate) fn next_passthrough<I: Iterator<Item = char> + Drop>(
    decomposed: &mut Decomposition<'_, I>,
    bounds: Bounds,
) -> Option<Result<Given, NormalizeError>>
    requires can { CanDecompose I.can_next I.remaining decomposed.old }
    requires at_boundary { PassthroughHasBoundaries decomposed.old.characters bounds decomposed.old.ignored }
    requires empty { ordered_text decomposed.old.waiting ≡ [] }
    ensures { YieldsPassthroughBy I.Iterator bounds decomposed.old result decomposed.new }
{
    let read = decomposed.pending?;
    let following = read_from(
        &decomposed.characters,
        bounds.composition,
        &mut decomposed.delegate,
    );
    if are_passthrough(&decomposed.characters, bounds, following) {
        decomposed.pending = following;
        return Some(Ok(Given::Itself(read.character)));
    }
    match decomposed.next_chunk(read, following) {
        Ok(first) => Some(Ok(Given::FirstMember(first))),
        Err(error) => Some(Err(error)),
    }
}

/// Whether a composing loop passes a character, or there is none.
#[inline(always)]
fn are_passthrough(
    characters: &CharacterData<'_>,
    bounds: Bounds,
    read: Option<PendingChar>,
) -> bool
    requires { HasOwnWords characters.now read }
    ensures { IsTrue result ↔ IfComposingPassthrough characters.now bounds (character_of read) }
{
    match read {
        Some(read) => is_composing_passthrough(characters, bounds, read),
        None => true,
    }
}

/// Whether a composing loop passes a character: it lies below the bound, or its word has neither flag.
#[tactic(auto, unfolding(normalizer_tables::specs::conditions::PairConditions::is_composing_passthrough))]
#[inline(always)]
fn is_composing_passthrough(
    characters: &CharacterData<'_>,
    bounds: Bounds,
    read: PendingChar,
) -> bool
    requires { HasOwnWord characters.now read }
    ensures { IsTrue result ↔ IsComposingPassthrough characters.now bounds read.character }
{
    if read.has_no_flag() || (read.character as u32) < bounds.composition {
        return true;
    }
    let word = read.word_by(characters);
    !is_non_round_trip(word) && !is_backward_combining(word)
}
