//! Composing text character by character (The Unicode Standard, D117, D120 and D121).
ghost use Rattle.std.specs.Prelude.{◌≡◌, ◌<◌, Option, None, IfErr, OnErr, IfOk};
ghost use Rattle.std.specs.Iterator.{at_most, IsFinite, MakesProgress};
ghost use Rattle.normalizer_tables.specs.Pairs.{pair_of};
ghost use Rattle.normalizer_iterators.specs.DecompositionItems.{CanDecompose, IsEnded};
ghost use Rattle.normalizer_iterators.specs.LazyComposing.{SuitsLazyComposing};
ghost use Rattle.normalizer_iterators.specs.inner.PassthroughItems.{IsAtPassthrough};
ghost use Rattle.normalizer_iterators.specs.Composing.{ComposesStarterBy, IsRefused};

use crate::composition::passing::{Given, is_at_passthrough, next_passthrough};
use crate::decomposition::Decomposition;
use crate::error::NormalizeError;
use crate::pairs::compose;
use normalizer_tables::CanonicalCompositions;
use normalizer_tables::condition::Bounds;

mod making;
mod passing;

pub use making::composed;

/// An iterator over the characters of a text, decomposed, in canonical order, and composed.
///
/// It reads its delegate up to the first boundary when it is made. After an error, and after the end, it returns
/// `None` forever; after its delegate's first `None` it does not call it again.
#[derive(Drop)]
pub struct Composition<'data, I> {
    decomposed: Decomposition<'data, I>,
    pairs: &'data CanonicalCompositions,
    bounds: Bounds,
    /// The starter that is next, if it was taken from what is decomposed.
    ahead: Option<char>,
    ghost suits: { SuitsLazyComposing decomposed.characters bounds pairs.now },
}

impl<'data, I: Iterator<Item = char> + Drop> Composition<'data, I> {
    ghost use Rattle.normalizer_iterators.specs.CompositionItems.{
      CanCompose,
      ComposesOn,
      CompositionSteps,
      HasListsOfBoth,
      data_of_composition,
      items_left,
      pairs_of_composition,
    };

    /// Returns what `starter` and `second` compose to, if they do (D114). If the data meet condition 14, the list of
    /// the result is the lists of the two, in canonical order. It takes no memory.
    pub fn compose(&self, starter: char, second: char) -> Option<char>
        ensures pair { result ≡ pair_of (pairs_of_composition self.now) starter second }
        ensures lists { HasListsOfBoth (data_of_composition self.now) (pairs_of_composition self.now) starter second
            result }
    {
        compose(self.pairs, starter, second)
    }

    /// Composes a starter with what follows it.
    fn compose_on(&mut self, starter: char) -> Result<char, NormalizeError>
        requires { CanCompose I.can_next I.remaining self.old }
        ensures { ComposesOn I.Iterator starter self.old.decomposed self.old.pairs.now result self.new }
    {
        self.ahead = None;
        let (composite, ahead) = compose_starter(
            &mut self.decomposed,
            self.pairs,
            self.bounds,
            starter,
        )?;
        self.ahead = ahead;
        Ok(composite)
    }

    /// Yields a character that is passed as it is, or composes it with what follows it.
    #[inline(always)]
    fn pass(&mut self) -> Option<Result<char, NormalizeError>>
        requires can { CanCompose I.can_next I.remaining self.old }
        requires ahead { self.old.ahead ≡ None }
        requires at_passed { IsAtPassthrough self.old.pairs.now self.old.decomposed }
        ensures { CompositionSteps I.Iterator self.old result self.new }
    {
        match next_passthrough(&mut self.decomposed, self.bounds) {
            Some(Ok(Given::Itself(character))) => Some(Ok(character)),
            Some(Ok(Given::FirstMember(starter))) => Some(self.compose_on(starter)),
            Some(Err(error)) => Some(Err(error)),
            None => None,
        }
    }

    /// Yields what is decomposed next; a starter is composed with what follows it.
    #[inline(always)]
    fn next_decomposed(&mut self) -> Option<Result<char, NormalizeError>>
        requires can { CanCompose I.can_next I.remaining self.old }
        requires ahead { self.old.ahead ≡ None }
        ensures { CompositionSteps I.Iterator self.old result self.new }
    {
        match self.decomposed.next_with_class() {
            Some(Ok(given)) => {
                if given.class == 0 {
                    Some(self.compose_on(given.character))
                } else {
                    Some(Ok(given.character))
                }
            }
            Some(Err(error)) => Some(Err(error)),
            None => None,
        }
    }

    /// Yields the next character: a mark, or what a starter and what follows it compose to.
    #[inline(always)]
    fn next_item(&mut self) -> Option<Result<char, NormalizeError>>
        requires { CanCompose I.can_next I.remaining self.old }
        ensures { CompositionSteps I.Iterator self.old result self.new }
    {
        if let Some(starter) = self.ahead {
            return Some(self.compose_on(starter));
        }
        if is_at_passthrough(&self.decomposed, self.bounds) {
            return self.pass();
        }
        self.next_decomposed()
    }
}

/// What a starter and the characters that follow it compose to, up to a character that is passed or the next starter
/// that doesn't join; and that starter, if it was taken. The marks that stay are next in what is decomposed.
fn compose_starter<I: Iterator<Item = char> + Drop>(
    decomposed: &mut Decomposition<'_, I>,
    pairs: &CanonicalCompositions,
    bounds: Bounds,
    starter: char,
) -> Result<(char, Option<char>), NormalizeError>
    requires can { CanDecompose I.can_next I.remaining decomposed.old }
    requires suits { SuitsLazyComposing decomposed.old.characters bounds pairs.now }
    ensures ready { CanDecompose I.can_next I.remaining decomposed.new }
    ensures kept { decomposed.new.characters ≡ decomposed.old.characters }
    ensures ok { IfOk result (λ r. ComposesStarterBy I.next_gives I.remaining pairs.now starter decomposed.old r.0
        r.1 decomposed.new) }
    ensures err { IfErr result (IsRefused I.next_gives decomposed.old) }
    ensures ended { OnErr result (IsEnded decomposed.new) }
{
    let mut composite = decomposed.compose_buffered(pairs, starter);
    while decomposed.waiting.is_empty() {
        if is_at_passthrough(decomposed, bounds) {
            return Ok((composite, None));
        }
        let Some(item) = decomposed.next_with_class() else {
            return Ok((composite, None));
        };
        let next = match item {
            Ok(given) => given.character,
            Err(error) => return Err(error),
        };
        let Some(joined) = compose(pairs, composite, next) else {
            return Ok((composite, Some(next)));
        };
        composite = decomposed.compose_buffered(pairs, joined);
    }
    Ok((composite, None))
}

impl<'data, I: Iterator<Item = char> + Drop> Iterator for Composition<'data, I> {
    ghost use Rattle.normalizer_iterators.specs.CompositionItems.{CanCompose, CompositionSteps, items_left};

    type Item = Result<char, NormalizeError>;

    ghost can_next = { CanCompose I.can_next I.remaining };

    ghost next_gives = { CompositionSteps I.Iterator };

    ghost remaining = { λ s. at_most (items_left I.remaining s) };

    #[inline(always)]
    fn next(&mut self) -> Option<Result<char, NormalizeError>> {
        self.next_item()
    }
}
