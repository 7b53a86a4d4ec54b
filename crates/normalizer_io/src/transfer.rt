//! All that a source has left, and all of some bytes to a target.
ghost use Rattle.std.specs.Prelude.{◌≡◌, ◌⊎◌, ◌<◌, length, IfOk, IfErr, IfSome, IsErrOf, OnOk, OnErr};
ghost use Rattle.std.specs.Io.KnownBytes.{Appends, IsAtEnd};
ghost use Rattle.normalizer_io.specs.Transfer.{AppendsFront, IsUnrefused};

use crate::device::{Source, Target};
use crate::outcome::TransferError;
use std::alloc::Global;

/// The most bytes that one read returns.
const CHUNK: usize = 8192;

/// Reads to the end, and returns the bytes.
///
/// # Errors
/// `Read` if a read was refused, `Memory` if an allocation was. The bytes that were read before are lost.
pub fn read_all<R: Source>(alloc: Global, reader: &mut R) -> Result<Vec<u8>, TransferError>
    ensures bytes { IfOk result (λ bytes. IfSome (R.bytes_left reader.old) (λ input. bytes.items ≡ input)) }
    ensures end { OnOk result (IsAtEnd (R.bytes_left reader.new)) }
    ensures errors { IfErr result (λ error. (error ≡ TransferError.Read) ⊎ (error ≡ TransferError.Memory)) }
    ensures read { IsErrOf result TransferError.Read → R.refusal reader.old reader.new }
    ensures memory { IsErrOf result TransferError.Memory → IsUnrefused R.refusal reader.old reader.new }
{
    let mut chunk = vec![in alloc; 0u8; CHUNK]?;
    read_by(alloc, reader, &mut chunk)
}

/// Reads to the end, as much at a time as a chunk holds.
fn read_by<R: Source>(
    alloc: Global,
    reader: &mut R,
    chunk: &mut [u8],
) -> Result<Vec<u8>, TransferError>
    requires { 0 < length chunk.old }
    ensures bytes { IfOk result (λ bytes. IfSome (R.bytes_left reader.old) (λ input. bytes.items ≡ input)) }
    ensures end { OnOk result (IsAtEnd (R.bytes_left reader.new)) }
    ensures errors { IfErr result (λ error. (error ≡ TransferError.Read) ⊎ (error ≡ TransferError.Memory)) }
    ensures read { IsErrOf result TransferError.Read → R.refusal reader.old reader.new }
    ensures memory { IsErrOf result TransferError.Memory → IsUnrefused R.refusal reader.old reader.new }
{
    let mut bytes = Vec::new(alloc);
    loop {
        let Ok(count) = reader.read(chunk) else {
            return Err(TransferError::Read);
        };
        if count == 0 {
            return Ok(bytes);
        }
        bytes.extend_from_slice(&chunk[..count])?;
    }
}

/// Writes all of the bytes.
///
/// # Errors
/// `Write` if a write was refused. A beginning of the bytes was taken.
pub fn write_all<W: Target>(writer: &mut W, bytes: &[u8]) -> Result<(), TransferError>
    ensures bytes { OnOk result (Appends (W.bytes_taken writer.old) (W.bytes_taken writer.new) bytes.now) }
    ensures front { OnErr result (AppendsFront (W.bytes_taken writer.old) (W.bytes_taken writer.new) bytes.now) }
    ensures errors { IfErr result (λ error. error ≡ TransferError.Write) }
    ensures write { OnErr result (W.refusal writer.old writer.new) }
    ensures ahead { OnOk result ((later : W) → W.refusal writer.new later → W.refusal writer.old later) }
{
    let mut written = 0;
    while written < bytes.len() {
        let Ok(count) = writer.write(&bytes[written..]) else {
            return Err(TransferError::Write);
        };
        written += count;
    }
    Ok(())
}
