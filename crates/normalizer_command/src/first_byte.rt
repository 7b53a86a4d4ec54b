//! A target that ends what writes to it.
ghost use Rattle.std.specs.Prelude.{◌≡◌, Some, is_some, true};
ghost use Rattle.std.specs.Option.{option_to_list};

use normalizer_io::{DeviceError, Target};

/// A target that takes one byte, and refuses all others: so who writes to it stops.
#[derive(Drop)]
pub(crate) struct FirstByte {
    pub(crate) byte: Option<u8>,
}

impl Target for FirstByte {
    ghost bytes_taken = { λ t. Some (option_to_list t.byte) };

    ghost refusal = { λ before after. is_some after.byte ≡ true };

    fn write(&mut self, bytes: &[u8]) -> Result<usize, DeviceError> {
        match (self.byte, bytes) {
            (_, []) => Ok(0),
            (None, [first, ..]) => {
                self.byte = Some(*first);
                Ok(1)
            }
            (Some(_), _) => Err(DeviceError),
        }
    }
}
