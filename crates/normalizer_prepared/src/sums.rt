//! The sums of bytes that a file has.
ghost use Rattle.std.specs.Prelude.{◌≡◌};
ghost use Rattle.normalizer_prepared.specs.Files.{sums};

/// The sum of bytes, and the sum of the sums of all their beginnings, modulo 2^32.
#[tactic(auto, unfolding(crate::specs::Files::sums))]
pub(crate) fn sums(bytes: &[u8]) -> (u32, u32)
    ensures { result ≡ sums bytes.now }
{
    let mut sum = 0u32;
    let mut sum_of_sums = 0u32;
    for byte in bytes {
        sum = sum.wrapping_add(*byte as u32);
        sum_of_sums = sum_of_sums.wrapping_add(sum);
    }
    (sum, sum_of_sums)
}
