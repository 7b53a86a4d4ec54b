//! Units that are taken together.
ghost use Rattle.std.specs.Prelude.{◌≡◌, ◌≤◌, ◌+◌, ◌-◌, ◌++◌, length, drop, take};

use std::convert::AsSlice;

/// Units that are taken together: a piece of a text, or an array.
pub(crate) trait Piece<T>: AsSlice<T> + Copy {
    /// Stores the units over as many others, up to 64.
    fn store(self, to: &mut [T])
        requires same { length to.old ≡ length (Self.items self) }
        requires few { length (Self.items self) ≤ 64 }
        ensures { to.new ≡ Self.items self };
}

impl<T: Copy> Piece<T> for &[T] {
    /// Stores the first and the last of them, which may overlap: two or four stores are faster than a call. From 8 to 32
    /// units there is no branch, since words of a text differ in length.
    #[inline(always)]
    fn store(self, to: &mut [T]) {
        let len = self.len();
        if 8 <= len && len <= 32 {
            return copy_halves::<T, 8>(self, to);
        }
        match len {
            33.. => copy_ends::<T, 32>(self, to),
            4.. => copy_ends::<T, 4>(self, to),
            2.. => copy_ends::<T, 2>(self, to),
            1 => copy_first::<T, 1>(self, to),
            _ => {}
        }
    }
}

impl<T: Copy, const N: usize> Piece<T> for [T; N] {
    #[inline(always)]
    fn store(self, to: &mut [T]) {
        copy_first::<T, N>(self.as_slice(), to);
    }
}

/// Copies the first `N` units over as many others.
#[inline(always)]
fn copy_first<T: Copy, const N: usize>(units: &[T], to: &mut [T])
    requires some { N ≤ length units.now }
    requires room { N ≤ length to.old }
    ensures { to.new ≡ take N units.now ++ drop N to.old }
{
    if let Some(first) = units.first_chunk::<N>() {
        if let Some(place) = to.first_chunk_mut::<N>() {
            *place = *first;
        }
    }
}

/// Copies units over as many others: the first `N` and the last `N`, which may overlap.
#[inline(always)]
fn copy_ends<T: Copy, const N: usize>(units: &[T], to: &mut [T])
    requires same { length to.old ≡ length units.now }
    requires least { N ≤ length units.now }
    requires most { length units.now ≤ N + N }
    ensures { to.new ≡ units.now }
{
    let last = units.len() - N;
    copy_first::<T, N>(units, to);
    copy_first::<T, N>(&units[last..], &mut to[last..]);
}

/// Copies units over as many others: the ends of the first half and those of the last, which may overlap.
#[inline(always)]
fn copy_halves<T: Copy, const N: usize>(units: &[T], to: &mut [T])
    requires same { length to.old ≡ length units.now }
    requires least { N ≤ length units.now }
    requires most { length units.now ≤ N + N + N + N }
    ensures { to.new ≡ units.now }
{
    let half = N.max(units.len() - units.len() / 2);
    let last = units.len() - half;
    copy_ends::<T, N>(&units[..half], &mut to[..half]);
    copy_ends::<T, N>(&units[last..], &mut to[last..]);
}
