//! The bound below which all characters pass.
ghost use Rattle.std.specs.Prelude.{◌≡◌, ◌≤◌};
ghost use Rattle.normalizer_passing.specs.LowBounds.{low_byte};

/// The bound of low characters.
#[derive(Clone, Copy)]
pub struct LowBound {
    /// Characters below this number are low. It is that of the first surrogate, or less.
    pub number: u16,
    /// Bytes of well-formed UTF-8 below this one are of low characters.
    pub byte: u8,
    ghost within: { number ≤ 0xD800 },
    ghost spelled: { byte ≡ low_byte number },
}

impl LowBound {
    /// Returns the bound with this number.
    pub(crate) fn new(number: u16) -> Self
        requires { number ≤ 0xD800 }
        ensures { result.number ≡ number }
    {
        let byte = if number < 0xC0 {
            number.min(0x80)
        } else {
            0xC0 + (number / 64).min(0x20)
        };
        LowBound {
            number,
            byte: byte as u8,
        }
    }
}
