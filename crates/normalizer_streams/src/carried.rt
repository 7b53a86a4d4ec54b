//! Bytes that were read from a source.
ghost use Rattle.std.specs.Prelude.{◌≡◌, ◌⊎◌, ◌+◌, ◌<◌, ◌≤◌, ℕ, List, [], drop, length, take, vec_len, IfErr, IfOk};
ghost use Rattle.std.specs.Prelude.{IsErrOf, OnErr, OnOk};
ghost use Rattle.std.specs.Io.KnownBytes.{Keeps, ReadConsumes};
ghost use Rattle.normalizer_streams.specs.inner.Moves.{Carries};

use normalizer_io::{DeviceError, Source, TransferError};
use std::alloc::{AllocError, Global};
use std::marker::Model;

/// The most bytes that one read returns.
const BLOCK: usize = 32768;

/// Bytes that were read, at the beginning of a buffer.
#[derive(Drop)]
pub(crate) struct Carried {
    buffer: Vec<u8>,
    len: usize,
}

impl Model for Carried {
    ghost Value = { List ℕ };

    ghost view = { λ carried. take carried.len carried.buffer.items };

    ghost invariant = { λ carried. carried.len ≤ length carried.buffer.items };
}

impl Carried {
    pub(crate) fn new(alloc: Global) -> Carried
        ensures { result ≡ [] }
    {
        Carried {
            buffer: Vec::new(alloc),
            len: 0,
        }
    }

    pub(crate) fn bytes(&self) -> &[u8]
        ensures { result.now ≡ self.now }
    {
        &self.buffer[..self.len]
    }

    /// Reads a block, and carries its bytes after the others. Returns false, and carries none, at the end.
    pub(crate) fn read_block<R: Source>(&mut self, reader: &mut R) -> Result<bool, TransferError>
        ensures carries { IfOk result (Carries (R.bytes_left reader.old) (R.bytes_left reader.new) self.old self.new) }
        ensures errors { IfErr result (λ error. (error ≡ TransferError.Read) ⊎ (error ≡ TransferError.Memory)) }
        ensures read { IsErrOf result TransferError.Read → R.refusal reader.old reader.new }
        ensures unread { IsErrOf result TransferError.Read → Keeps (R.bytes_left reader.old) (R.bytes_left reader.new) }
        ensures memory { IsErrOf result TransferError.Memory → reader.new ≡ reader.old }
        ensures ahead { OnOk result ((later : R) → R.refusal reader.new later → R.refusal reader.old later) }
    {
        let end = self.len + BLOCK;
        lengthen(&mut self.buffer, end)?;
        let Ok(count) = read_behind(reader, &mut self.buffer, self.len, end) else {
            return Err(TransferError::Read);
        };
        self.len += count;
        Ok(count > 0)
    }

    /// Removes the first bytes.
    pub(crate) fn remove_front(&mut self, count: usize)
        requires { count ≤ length self.old }
        ensures { self.new ≡ drop count self.old }
    {
        self.buffer.copy_within(count..self.len, 0);
        self.len -= count;
    }
}

/// Makes a buffer as long as this, if it is shorter.
fn lengthen(buffer: &mut Vec<u8>, len: usize) -> Result<(), AllocError>
    ensures front { take (vec_len buffer.old) buffer.new.items ≡ buffer.old.items }
    ensures grown { vec_len buffer.old ≤ vec_len buffer.new }
    ensures long { OnOk result (len ≤ vec_len buffer.new) }
{
    if buffer.len() < len {
        buffer.resize(len, 0)?;
    }
    Ok(())
}

/// Reads into a buffer from a place on, up to an end.
fn read_behind<R: Source>(
    reader: &mut R,
    buffer: &mut [u8],
    place: usize,
    end: usize,
) -> Result<usize, DeviceError>
    requires some { place < end }
    requires within { end ≤ length buffer.old }
    ensures front { take place buffer.new ≡ take place buffer.old }
    ensures len { length buffer.new ≡ length buffer.old }
    ensures count { IfOk result (λ count. place + count ≤ length buffer.new) }
    ensures bytes { ReadConsumes (R.bytes_left reader.old) (R.bytes_left reader.new) result (drop place buffer.new) }
    ensures fault { OnErr result (R.refusal reader.old reader.new) }
    ensures ahead { OnOk result ((later : R) → R.refusal reader.new later → R.refusal reader.old later) }
{
    reader.read(&mut buffer[place..end])
}
