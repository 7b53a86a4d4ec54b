//! Composing what is buffered, in its place.
ghost use Rattle.std.specs.Prelude.{◌≡◌, ◌+◌, ◌<◌, ◌≤◌, ◌∷◌, length};
ghost use Rattle.std.specs.List.{copy_within};
ghost use Rattle.normal_forms.specs.Reading.{Reading};
ghost use Rattle.normalizer_iterators.specs.WaitingList.{ordered_text, text_before, text_from, unordered_text, AgreesWith};
ghost use Rattle.normalizer_iterators.specs.ComposingInPlace.{ComposesInPlace, IsJoinBy};

use crate::pairs::compose;
use crate::waiting::{ClassedChar, Waiting, WaitingList};
use normalizer_tables::CanonicalCompositions;

impl WaitingList {
    /// Composes a starter with what is in order after it, up to the next starter that doesn't join. Returns what it
    /// becomes; the marks that stay are next.
    pub(crate) fn compose(&mut self, pairs: &CanonicalCompositions, starter: char) -> char
        ensures text { ComposesInPlace pairs.now starter self.old result self.new }
        ensures classes { (d : Reading) → AgreesWith d self.old → AgreesWith d self.new }
        ensures unordered { unordered_text self.new ≡ unordered_text self.old }
        ensures fewer { length (ordered_text self.new) ≤ length (ordered_text self.old) }
    {
        let mut composite = starter;
        let mut unblocked = 0;
        for place in self.next..self.run {
            let given = self.get(place);
            if let Some(joined) = join(pairs, composite, unblocked, given) {
                composite = joined;
                self.take_out(place);
            } else if given.class == 0 {
                return composite;
            } else {
                unblocked = unblocked.max(given.class as u16 + 1);
            }
        }
        composite
    }

    /// Takes out the character at a place in order: those before it move up.
    #[inline(always)]
    fn take_out(&mut self, place: usize)
        requires given { self.old.next ≤ place }
        requires within { place < self.old.run }
        ensures before { text_before self.new (place + 1) ≡ text_before self.old place }
        ensures from { text_from self.new (place + 1) ≡ text_from self.old (place + 1) }
        ensures unordered { unordered_text self.new ≡ unordered_text self.old }
        ensures classes { (d : Reading) → AgreesWith d self.old → AgreesWith d self.new }
        ensures next { self.new.next ≡ self.old.next + 1 }
        ensures run { self.new.run ≡ self.old.run }
    {
        move_up(self.entries.as_mut_slice(), self.next, place);
        self.next += 1;
    }
}

/// Moves the entries of a range up by one place.
#[inline(always)]
pub(crate) fn move_up(entries: &mut [Waiting], start: usize, end: usize)
    requires range { start ≤ end }
    requires within { end < length entries.old }
    ensures moved { entries.new ≡ copy_within entries.old start end (start + 1) }
    ensures len { length entries.new ≡ length entries.old }
{
    if start < end {
        entries.copy_within(start..end, start + 1);
    }
}

/// What a starter and a character compose to, if none of the marks between them blocks it: the lowest class that they
/// don't block is given (The Unicode Standard, D115).
#[inline(always)]
fn join(
    pairs: &CanonicalCompositions,
    starter: char,
    unblocked: u16,
    given: ClassedChar,
) -> Option<char>
    ensures { IsJoinBy pairs.now starter unblocked given result }
{
    if unblocked <= given.class as u16 {
        compose(pairs, starter, given.character)
    } else {
        None
    }
}
