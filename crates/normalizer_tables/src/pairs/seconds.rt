//! Which characters are second in a listed pair: a bit for each.
ghost use Rattle.std.specs.Prelude.{◌≡◌, ◌+◌, ◌<◌, ◌/◌, ℕ, IfOk, length, max};
ghost use Rattle.normalizer_tables.specs.Pairs.{is_listed_second, pair_at};
ghost use Rattle.normalizer_tables.specs.inner.Seconds.{has_bit, AreBitsOf};

use std::alloc::{AllocError, Global};
use std::marker::Model;

/// A bit for each character up to the greatest second.
#[derive(Drop)]
pub(crate) struct Seconds {
    words: Vec<u64>,
}

impl Model for Seconds {
    ghost use Rattle.std.specs.Prelude.{ℕ, List};

    ghost Value = { List ℕ };

    ghost view = { λ seconds. seconds.words.items };
}

impl Seconds {
    /// The seconds of a list of pairs.
    pub(crate) fn of_pairs(alloc: Global, pairs: &[(char, char, char)]) -> Result<Self, AllocError>
        ensures { IfOk result (λ seconds. AreBitsOf seconds pairs.now) }
    {
        let mut words = vec![in alloc; 0; words_for(pairs)]?;
        for place in 0..pairs.len() {
            let second = pairs[place].0 as usize;
            words[second / 64] |= 1 << (second % 64) as u32;
        }
        Ok(Seconds { words })
    }

    /// Whether a pair has this second.
    #[inline(always)]
    pub(crate) fn has(&self, second: char) -> bool
        ensures { result ≡ has_bit self.now second }
    {
        let second = second as usize;
        match self.words.get(second / 64) {
            Some(word) => (word >> (second % 64) as u32) % 2 == 1,
            None => false,
        }
    }
}

impl Clone for Seconds {
    ghost is_clone = { λ a b. b ≡ a };

    fn clone(&self) -> Result<Self, AllocError> {
        Ok(Seconds {
            words: self.words.clone()?,
        })
    }
}

/// How many words of 64 bits have one for each second.
fn words_for(pairs: &[(char, char, char)]) -> usize
    ensures { (k : ℕ) → k < length pairs.now → (pair_at pairs.now k).0 / 64 < result }
{
    let mut count = 0;
    for place in 0..pairs.len() {
        count = words_with(count, pairs[place].0);
    }
    count
}

/// How many words have one for a second too.
fn words_with(count: usize, second: char) -> usize
    ensures { result ≡ max count (second / 64 + 1) }
{
    let needed = second as usize / 64 + 1;
    if count < needed { needed } else { count }
}
