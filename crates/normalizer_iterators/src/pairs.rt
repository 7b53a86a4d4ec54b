//! Pairs of characters that compose.
ghost use Rattle.std.specs.Prelude.{◌≡◌};
ghost use Rattle.normalizer_tables.specs.Pairs.{pair_of};

use normalizer_tables::{CanonicalCompositions, may_be_second};

/// Returns what two characters compose to, if they do. That most marks compose with nothing before them is seen by one
/// bit, without a search.
#[inline(always)]
pub(crate) fn compose(pairs: &CanonicalCompositions, first: char, second: char) -> Option<char>
    ensures { result ≡ pair_of pairs.now first second }
{
    if may_be_second(pairs, second) {
        normalizer_tables::compose(pairs, first, second)
    } else {
        None
    }
}
