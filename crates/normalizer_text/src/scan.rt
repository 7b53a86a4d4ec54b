//! Scanning units for the first one that is not below a bound, as many at a time as a vector holds.
ghost use Rattle.std.specs.Prelude.{◌≡◌, ℕ, ◌+◌, ◌<◌, ◌≤◌, nat_le, nat_lt};
ghost use Rattle.std.specs.Prelude.{List, length, map, take, drop, slice_index, IfSome};
ghost use Rattle.std.specs.Simd.Lanes.{mask_l};
ghost use Rattle.normalizer_text.specs.Scans.{leading_below};

use std::simd::prelude::*;

/// How many units a vector holds.
const LANES: usize = 16;

/// Units that are compared with a bound, one alone or as many as a vector holds.
pub(crate) trait Lanes: Copy {
    ghost units: { Self → List ℕ };

    fn len(self) -> usize
        ensures { result ≡ length (units self) };

    /// Whether the unit at a position is below the bound.
    fn is_below(self, position: usize, bound: u32) -> bool
        requires { position < length (units self) }
        ensures { result ≡ nat_lt (slice_index (units self) position) bound };

    /// Returns a bit for each of the units of the vector at a position, the least significant for the first: whether
    /// the unit is not below the bound.
    fn lanes_reaching(self, position: usize, bound: u32) -> u64
        requires { position + 16 ≤ length (units self) }
        ensures { result ≡ mask_l (map (nat_le bound) (take 16 (drop position (units self)))) };
}

/// Returns the end of the units from a position on that are all below the bound, if there are any.
#[inline(always)]
pub(crate) fn end_of_below<L: Lanes>(units: L, position: usize, bound: u32) -> Option<usize>
    requires { position ≤ length (L.units units) }
    ensures end { IfSome result (λ end. end ≡ position + leading_below bound (drop position (L.units units))) }
    ensures further { IfSome result (λ end. position < end) }
{
    if position < units.len() && units.is_below(position, bound) {
        Some(end_of_run(units, position, bound))
    } else {
        None
    }
}

/// Returns the same end, by vectors, and unit by unit where few are left.
#[inline(always)]
fn end_of_run<L: Lanes>(units: L, position: usize, bound: u32) -> usize
    requires { position ≤ length (L.units units) }
    ensures { result ≡ position + leading_below bound (drop position (L.units units)) }
{
    let mut end = position;
    while units.len() - end >= LANES {
        let reaching = units.lanes_reaching(end, bound);
        if reaching != 0 {
            return end + reaching.trailing_zeros() as usize;
        }
        end += LANES;
    }
    while end < units.len() && units.is_below(end, bound) {
        end += 1;
    }
    end
}

impl<'a> Lanes for &'a [u8] {
    ghost units = { λ bytes. bytes.now };

    #[inline(always)]
    fn len(self) -> usize {
        <[u8]>::len(self)
    }

    #[inline(always)]
    fn is_below(self, position: usize, bound: u32) -> bool {
        u32::from(self[position]) < bound
    }

    #[inline(always)]
    fn lanes_reaching(self, position: usize, bound: u32) -> u64 {
        let Ok(bound) = u8::try_from(bound) else {
            return 0;
        };
        let vector = Simd::<u8, LANES>::from_slice(&self[position..]);
        vector.simd_ge(Simd::splat(bound)).to_bitmask()
    }
}

impl<'a> Lanes for &'a [u16] {
    ghost units = { λ units. units.now };

    #[inline(always)]
    fn len(self) -> usize {
        <[u16]>::len(self)
    }

    #[inline(always)]
    fn is_below(self, position: usize, bound: u32) -> bool {
        u32::from(self[position]) < bound
    }

    #[inline(always)]
    fn lanes_reaching(self, position: usize, bound: u32) -> u64 {
        let Ok(bound) = u16::try_from(bound) else {
            return 0;
        };
        let vector = Simd::<u16, LANES>::from_slice(&self[position..]);
        vector.simd_ge(Simd::splat(bound)).to_bitmask()
    }
}
