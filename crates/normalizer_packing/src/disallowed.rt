//! Characters of which it is only recorded that the mapper disallows them, as ranges.
#![tactic(auto, unfolding(crate::specs::Disallowed::is_in))]

ghost use Rattle.std.specs.Prelude.{◌≡◌};
ghost use Rattle.normalizer_packing.specs.Disallowed.{is_in};

/// Whether a number is in one of the ranges, each of a first and a last character.
pub fn is_in(ranges: &[(char, char)], number: u32) -> bool
    ensures { result ≡ is_in ranges.now number }
{
    ranges.iter().any(|range| range.0 as u32 <= number && number <= range.1 as u32)
}
