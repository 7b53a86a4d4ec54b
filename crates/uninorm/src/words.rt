//! The words that the program is started with.

use std::alloc::AllocError;
use std::env::{Env, FillError};
use std::str;

/// How many bytes of a word are read at first.
const ROOM: usize = 4096;

/// The words that the program is started with.
#[derive(Drop)]
pub(crate) struct Words {
    /// All of them. What isn't UTF-8 is U+FFFD.
    pub(crate) all: Vec<String>,
    /// Those that aren't UTF-8.
    pub(crate) unclear: Vec<String>,
}

/// Returns the words, the first of which is the name that the program was started by.
///
/// # Errors
/// If an allocation failed.
pub(crate) fn arguments(rt: &HostRuntime) -> Result<Words, AllocError> {
    let mut all = Vec::new(rt.alloc());
    let mut unclear = Vec::new(rt.alloc());
    let mut buffer = vec![in rt.alloc(); 0u8; ROOM]?;
    for place in 0..usize::MAX {
        let Some(len) = word_len(rt, place, &mut buffer)? else {
            break;
        };
        let end = len.min(buffer.len());
        let bytes = &buffer[..end];
        if str::from_utf8(bytes).is_err() {
            unclear.push(String::from_utf8_lossy(rt.alloc(), bytes)?)?;
        }
        all.push(String::from_utf8_lossy(rt.alloc(), bytes)?)?;
    }
    Ok(Words { all, unclear })
}

/// Reads a word to the beginning of a buffer, which grows if it must. Returns its length, if there is such a word.
fn word_len(
    rt: &HostRuntime,
    place: usize,
    buffer: &mut Vec<u8>,
) -> Result<Option<usize>, AllocError> {
    for _ in 0..u64::BITS {
        match rt.arg(place, buffer) {
            Ok(len) => return Ok(Some(len)),
            Err(FillError::NotPresent) => return Ok(None),
            Err(FillError::TooLong) => {
                let len = buffer.len().saturating_mul(2);
                buffer.resize(len, 0)?;
            }
        }
    }
    Ok(None)
}
