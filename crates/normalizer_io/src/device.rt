//! What the program reads from and writes to.
ghost use Rattle.std.specs.Prelude.{◌<◌, ◌≤◌, ℕ, List, Option, length, IfOk, OnOk, OnErr};
ghost use Rattle.std.specs.Io.KnownBytes.{ReadConsumes, WriteAppends};

/// A read or a write was refused.
#[derive(Clone, Copy, Debug, PartialEq, Eq)]
pub struct DeviceError;

/// What bytes are read from.
pub trait Source {
    /// The bytes that are left, if the source reports them.
    ghost bytes_left: { Self → Option (List ℕ) };

    /// Holds from the state before a refused read to the state after it, and also from the state before reads that
    /// succeeded just ahead of it.
    ghost refusal: { Self → Self → Type 0 };

    /// Puts a front of what is left at the beginning of the buffer, and returns how many bytes it put there: none only
    /// at the end, or for an empty buffer.
    ///
    /// # Errors
    /// `DeviceError` if the read was refused. No byte was read then.
    fn read(&mut self, buffer: &mut [u8]) -> Result<usize, DeviceError>
        ensures count { IfOk result (λ n. n ≤ length buffer.new) }
        ensures bytes { ReadConsumes (bytes_left self.old) (bytes_left self.new) result buffer.new }
        ensures fault { OnErr result (refusal self.old self.new) }
        ensures ahead { OnOk result ((later : Self) → refusal self.new later → refusal self.old later) };
}

/// What bytes are written to.
pub trait Target {
    /// The bytes that were taken, if the target reports them.
    ghost bytes_taken: { Self → Option (List ℕ) };

    /// Holds from the state before a refused write to the state after it, and also from the state before writes that
    /// succeeded just ahead of it.
    ghost refusal: { Self → Self → Type 0 };

    /// Takes a beginning of the bytes, at least one byte if there is one, and returns how many bytes it took.
    ///
    /// # Errors
    /// `DeviceError` if the write was refused. No byte was taken then.
    fn write(&mut self, bytes: &[u8]) -> Result<usize, DeviceError>
        ensures count { IfOk result (λ n. n ≤ length bytes.now) }
        ensures progress { 0 < length bytes.now → IfOk result (λ n. 0 < n) }
        ensures bytes { WriteAppends (bytes_taken self.old) (bytes_taken self.new) result bytes.now }
        ensures fault { OnErr result (refusal self.old self.new) }
        ensures ahead { OnOk result ((later : Self) → refusal self.new later → refusal self.old later) };
}
