//! Files of prepared data, as they are read.
ghost use Rattle.std.specs.Prelude.{◌≡◌, ◌↔◌, IfErr, IfOk, IsOkUnless, IsTrue, Ok, drop};
ghost use Rattle.normalizer_prepared.specs.Files.{
  data_at,
  error_for,
  fixed_at,
  header_at,
  header_length,
  held_in,
  mapper_at,
  sums,
  version_at,
  IsFirstFault,
};
ghost use Rattle.normalizer_prepared.specs.Prepared.{prepared_in};
ghost use Rattle.normalizer_prepared.specs.Reading.{Gives};
ghost use Rattle.normalizer_prepared.specs.declared.reading.PreparedData.{PreparedData};

use crate::fault::{Fault, PreparedError, ReadError};
use crate::numbers::{u8_at, u32_at};
use crate::sums::sums;
use crate::tables::{compositions_at, decompositions_at, lists_at, supplement_at};
use crate::{HEADER_LENGTH, MAGIC, VERSION};
use normalizer_builder::Built;
use normalizer_packing::Packed;
use normalizer_tables::DecompositionData;
use std::alloc::Global;

/// What a file of prepared data holds. [`PreparedData::read`] makes it.
#[derive(Drop)]
pub struct PreparedData {
    /// The data: a provider for all seven markers.
    pub built: Built,
    /// The version of Unicode that they are of, or 0.0.0 if none was stated.
    pub version: (u32, u32, u32),
}

impl PreparedData {
    /// Reads a file of prepared data: what its bytes hold, or their first fault.
    ///
    /// Constructors check what the data say, as they check any provider's.
    ///
    /// # Errors
    /// The first fault with its offset, or `Memory` if an allocation failed.
    pub fn read(alloc: Global, bytes: &[u8]) -> Result<PreparedData, PreparedError>
        // What is read is what the bytes hold.
        ensures found { IfOk result (λ d. held_in bytes.now ≡ Ok d) }

        // What the bytes hold is read, unless memory ran out.
        ensures only { (d : PreparedData) → held_in bytes.now ≡ Ok d →
            IfOk result (λ e. e ≡ d) × IsOkUnless result PreparedError.Memory }

        // Which fault it is, and where.
        ensures fault { IfErr result (IsFirstFault bytes.now) }
    {
        match data_in(alloc, bytes) {
            Ok(data) => Ok(data),
            Err(error) => Err(error_for(bytes.len(), error)),
        }
    }

    /// Returns whether the mapper's data are the canonical ones. A mapper over them maps a text to its NFC.
    pub fn has_canonical_mapper(&self) -> bool
        ensures { IsTrue result ↔ ((prepared_in self.now).mapper ≡ (prepared_in self.now).canonical) }
    {
        self.built.packed.mapper == self.built.packed.canonical
    }
}

/// The error for a fault in this many bytes.
fn error_for(length: usize, error: ReadError) -> PreparedError
    ensures { result ≡ error_for length error }
{
    match error {
        ReadError::Memory => PreparedError::Memory,
        ReadError::Wrong(fault, left) => PreparedError::Wrong {
            fault,
            offset: length.saturating_sub(left),
        },
    }
}

/// What a file holds.
#[tactic(auto, unfolding(crate::specs::Files::held_in))]
fn data_in(alloc: Global, bytes: &[u8]) -> Result<PreparedData, ReadError>
    ensures { Gives (λ d. d) result (held_in bytes.now) }
{
    let rest = header_at(bytes)?;
    let (version, rest) = version_at(rest)?;
    let (packed, rest) = data_at(alloc, rest)?;
    if !rest.is_empty() {
        return Err(ReadError::Wrong(Fault::Trailing, rest.len()));
    }
    Ok(PreparedData {
        built: Built { packed },
        version,
    })
}

/// The bytes after the header.
#[tactic(auto, unfolding(crate::specs::Files::header_at))]
fn header_at(bytes: &[u8]) -> Result<&[u8], ReadError>
    ensures { Gives (λ x. x.now) result (header_at bytes.now) }
{
    let (sum, sum_of_sums) = sums_after_header(bytes);
    let rest = fixed_at(Fault::Magic, MAGIC as usize, bytes)?;
    let rest = fixed_at(Fault::Version, VERSION as usize, rest)?;
    let rest = fixed_at(Fault::Length, bytes.len(), rest)?;
    let rest = fixed_at(Fault::Sum, sum as usize, rest)?;
    fixed_at(Fault::Sum, sum_of_sums as usize, rest)
}

/// Both sums of the bytes after the header.
fn sums_after_header(bytes: &[u8]) -> (u32, u32)
    ensures { result ≡ sums (drop header_length bytes.now) }
{
    if bytes.len() < HEADER_LENGTH {
        return sums(&[]);
    }
    sums(bytes.split_at(HEADER_LENGTH).1)
}

/// The bytes after a number, which must be this one.
#[tactic(auto, unfolding(crate::specs::Files::fixed_at))]
fn fixed_at(fault: Fault, wanted: usize, bytes: &[u8]) -> Result<&[u8], ReadError>
    ensures { Gives (λ x. x.now) result (fixed_at fault wanted bytes.now) }
{
    let (number, rest) = u32_at(bytes)?;
    if number as usize != wanted {
        return Err(ReadError::Wrong(fault, bytes.len()));
    }
    Ok(rest)
}

/// The version of Unicode.
#[tactic(auto, unfolding(crate::specs::Files::version_at))]
fn version_at(bytes: &[u8]) -> Result<((u32, u32, u32), &[u8]), ReadError>
    ensures { Gives (λ x. (x.0, x.1.now)) result (version_at bytes.now) }
{
    let (major, rest) = u32_at(bytes)?;
    let (minor, rest) = u32_at(rest)?;
    let (update, rest) = u32_at(rest)?;
    Ok(((major, minor, update), rest))
}

/// The data of all markers.
#[tactic(auto, unfolding(crate::specs::Files::data_at))]
fn data_at(alloc: Global, bytes: &[u8]) -> Result<(Packed, &[u8]), ReadError>
    ensures { Gives (λ x. (x.0, x.1.now)) result (data_at bytes.now) }
{
    let (canonical, rest) = decompositions_at(alloc, bytes)?;
    let (compatibility, rest) = decompositions_at(alloc, rest)?;
    let (mapper, rest) = mapper_at(alloc, &canonical, rest)?;
    let (tables, rest) = lists_at(alloc, rest)?;
    let (supplementary_tables, rest) = lists_at(alloc, rest)?;
    let (compositions, rest) = compositions_at(alloc, rest)?;
    let (supplement, rest) = supplement_at(alloc, rest)?;
    let data = Packed {
        canonical,
        compatibility,
        mapper,
        tables,
        supplementary_tables,
        compositions,
        supplement,
    };
    Ok((data, rest))
}

/// The mapper's data, if a flag says that they are its own; otherwise the canonical ones.
#[tactic(auto, unfolding(crate::specs::Files::mapper_at))]
fn mapper_at<'a>(
    alloc: Global,
    canonical: &DecompositionData,
    bytes: &'a [u8],
) -> Result<(DecompositionData, &'a [u8]), ReadError>
    ensures { Gives (λ x. (x.0, x.1.now)) result (mapper_at canonical.now bytes.now) }
{
    let (flag, rest) = u8_at(bytes)?;
    if flag == 0 {
        return Ok((canonical.clone()?, rest));
    }
    decompositions_at(alloc, rest)
}
