//! Overwriting a buffer.
ghost use Rattle.std.specs.Prelude.{◌≡◌, ◌≤◌, ◌^◌, ◌-◌, ◌++◌, length, drop, take};
ghost use Rattle.icu_normalizer_c.specs.Overwriting.{overwritten};

use crate::piece::Piece;

/// Writes units to the beginning of a buffer, as many as it has room for.
fn overwrite<T: Copy>(buffer: &mut [T], units: &[T])
    ensures { buffer.new ≡ overwritten buffer.old units.now }
{
    if units.len() <= buffer.len() {
        buffer[..units.len()].copy_from_slice(units);
    } else {
        let (fitting, _) = units.split_at(buffer.len());
        buffer.copy_from_slice(fitting);
    }
}

/// Writes units to a buffer from a position on, as many as it has room for. After its end there is none.
#[inline(never)]
fn overwrite_by_call<T: Copy>(buffer: &mut [T], start: usize, units: &[T])
    ensures fits { length buffer.old ≤ 2 ^ 64 - 1 }
    ensures len { length buffer.new ≡ length buffer.old }
    ensures after { buffer.new ≡ take start buffer.old ++ overwritten (drop start buffer.old) units.now }
{
    if start < buffer.len() {
        overwrite(&mut buffer[start..], units);
    }
}

/// Does the same, without a call for few units that end before the end of the buffer.
#[inline(always)]
pub(crate) fn overwrite_after<T: Copy, P: Piece<T>>(buffer: &mut [T], start: usize, piece: P)
    ensures fits { length buffer.old ≤ 2 ^ 64 - 1 }
    ensures len { length buffer.new ≡ length buffer.old }
    ensures after { buffer.new ≡ take start buffer.old ++ overwritten (drop start buffer.old) (P.items piece) }
{
    let units = piece.as_slice();
    let end = start.saturating_add(units.len());
    if end < buffer.len() && units.len() <= 64 {
        piece.store(&mut buffer[start..start + units.len()]);
    } else {
        // A copy is lent, so that an array that is stored at once is never in memory.
        let lent = piece;
        overwrite_by_call(buffer, start, lent.as_slice());
    }
}
