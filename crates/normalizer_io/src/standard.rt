//! Standard input and output, and other readers and writers, as devices.
ghost use Rattle.std.specs.Prelude.{⊤};

use crate::device::{DeviceError, Source, Target};
use std::io::{Read, Write};

/// A reader as a source, with the bytes that the reader reports. An interrupted read counts as refused.
#[derive(Drop)]
pub struct Input<R>(pub R);

impl<R: Read> Source for Input<R> {
    ghost bytes_left = { λ s. R.remaining s.0 };

    // A reader's contract doesn't say when it refuses.
    ghost refusal = { λ _ _. ⊤ };

    fn read(&mut self, buffer: &mut [u8]) -> Result<usize, DeviceError> {
        self.0.read(buffer).map_err(|_| DeviceError)
    }
}

/// A writer as a target, with the bytes that the writer reports. A write that takes none, or is interrupted, counts as
/// refused.
#[derive(Drop)]
pub struct Output<W>(pub W);

impl<W: Write> Target for Output<W> {
    ghost bytes_taken = { λ t. W.contents t.0 };

    // A writer's contract doesn't say when it refuses.
    ghost refusal = { λ _ _. ⊤ };

    fn write(&mut self, bytes: &[u8]) -> Result<usize, DeviceError> {
        match self.0.write(bytes) {
            Ok(0) if !bytes.is_empty() => Err(DeviceError),
            Ok(count) => Ok(count),
            Err(_) => Err(DeviceError),
        }
    }
}
