//! How pairs are found by both characters at once: in buckets.
ghost use Rattle.std.specs.Prelude.{◌≡◌, ◌<◌, IfOk, Some, length, slice_get};
ghost use Rattle.normalizer_tables.specs.Pairs.{listed_result};
ghost use Rattle.normalizer_tables.specs.inner.Buckets.{bucket_of, AreChainedFrom};

use crate::pairs::is_of;
use std::alloc::{AllocError, Global};
use std::marker::Model;

/// How many buckets there are: some two for each pair of Unicode.
const BUCKETS: usize = 2048;

/// A list of triples of second character, first character and result.
#[derive(Drop)]
pub(crate) struct PairBuckets {
    /// The place of the first pair of each bucket, past the list if it has none.
    heads: Vec<usize>,
    /// For each pair the place of the next one of its bucket, past the list if there is none.
    nexts: Vec<usize>,
    pairs: Vec<(char, char, char)>,
}

impl Model for PairBuckets {
    ghost use Rattle.std.specs.Prelude.{ℕ, List};
    ghost use Rattle.normalizer_tables.specs.inner.Buckets.{AreChainedFrom};

    ghost Value = { List (ℕ × ℕ × ℕ) };

    ghost view = { λ b. b.pairs.items };

    ghost invariant = { λ b. AreChainedFrom 0 b.heads.items b.nexts.items b.pairs.items };
}

impl PairBuckets {
    /// The pairs of a list, in its order.
    pub(crate) fn from_pairs(pairs: Vec<(char, char, char)>) -> Result<Self, AllocError>
        ensures { IfOk result (λ kept. kept ≡ pairs.items) }
    {
        let alloc = *pairs.allocator();
        let past = pairs.len();
        let mut heads = vec![in alloc; past; BUCKETS]?;
        let mut nexts = vec![in alloc; past; past]?;
        chain(&mut heads, &mut nexts, &pairs);
        Ok(PairBuckets {
            heads,
            nexts,
            pairs,
        })
    }

    /// How many pairs there are.
    pub(crate) fn len(&self) -> usize
        ensures { result ≡ length self.now }
    {
        self.pairs.len()
    }

    /// The pair at a place.
    pub(crate) fn at(&self, place: usize) -> (char, char, char)
        requires { place < length self.now }
        ensures { slice_get self.now place ≡ Some result }
    {
        self.pairs[place]
    }

    /// The pairs as a slice.
    pub(crate) fn as_slice(&self) -> &[(char, char, char)]
        ensures { result.now ≡ self.now }
    {
        &self.pairs
    }

    /// The result of the first pair of two characters.
    #[inline(always)]
    pub(crate) fn result_of(&self, first: char, second: char) -> Option<char>
        ensures { result ≡ listed_result self.now first second }
    {
        let mut place = self.heads[bucket_of(first, second)];
        while place < self.pairs.len() {
            let pair = &self.pairs[place];
            if is_of(pair, first, second) {
                return Some(pair.2);
            }
            place = self.nexts[place];
        }
        None
    }
}

impl Clone for PairBuckets {
    ghost is_clone = { λ b c. c ≡ b };

    fn clone(&self) -> Result<Self, AllocError> {
        Ok(PairBuckets {
            heads: self.heads.clone()?,
            nexts: self.nexts.clone()?,
            pairs: self.pairs.clone()?,
        })
    }
}

/// Chains the pairs of each bucket, the last ones first.
fn chain(heads: &mut [usize], nexts: &mut [usize], pairs: &[(char, char, char)])
    requires { AreChainedFrom (length pairs.now) heads.old nexts.old pairs.now }
    ensures { AreChainedFrom 0 heads.new nexts.new pairs.now }
{
    for chained in 0..pairs.len() {
        let place = pairs.len() - 1 - chained;
        let (second, first, _) = pairs[place];
        let bucket = bucket_of(first, second);
        nexts[place] = heads[bucket];
        heads[bucket] = place;
    }
}

/// The bucket of two characters.
#[inline(always)]
fn bucket_of(first: char, second: char) -> usize
    ensures { result ≡ bucket_of first second }
{
    (first as usize + second as usize * 1211) % BUCKETS
}
