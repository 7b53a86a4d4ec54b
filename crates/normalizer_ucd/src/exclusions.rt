//! CompositionExclusions.txt.
ghost use Rattle.std.specs.Prelude.{◌≡◌, None, Option, map};
ghost use Rattle.std.specs.List.{filter_map};
ghost use Rattle.normalizer_ucd.specs.declared.error.UcdFile.TheVariants as files;
ghost use Rattle.normalizer_ucd.specs.FileFaults.{first_wrong, is_mapped, listing_findings};
ghost use Rattle.normalizer_ucd.specs.FileLines.{DataLine, data_lines_from};
ghost use Rattle.normalizer_ucd.specs.FallibleReads.{Gives, unless};
ghost use Rattle.normalizer_ucd.specs.inner.Lines.{read_of};
ghost use Rattle.normalizer_ucd.specs.inner.DataFileLines.{exclusion_by, first_unmapped};

use crate::error::{Problem, UcdError, UcdFile};
use crate::lines::{code, data_of, push_found};
use normalizer_records::Record;
use std::alloc::Global;

/// A code point that is excluded from composition, and the number of its line.
#[derive(Clone, Copy)]
pub(crate) struct Exclusion {
    pub(crate) code: u32,
    pub(crate) line: usize,
}

/// The code points that the lines list.
pub(crate) fn exclusions_in(alloc: Global, lines: &[&[u8]]) -> Result<Vec<Exclusion>, UcdError>
    ensures { let ls = data_lines_from 1 None (map (λ line. line.now) lines.now) in
        Gives (λ v. v.items) result (unless (first_wrong files.CompositionExclusions listing_findings ls)
        (filter_map exclusion_by ls)) }
{
    let mut exclusions = Vec::new(alloc);
    for (index, line) in lines.iter().enumerate() {
        let found = exclusion_of(index + 1, line)?;
        push_found(&mut exclusions, found)?;
    }
    Ok(exclusions)
}

fn exclusion_of(number: usize, line: &[u8]) -> Result<Option<Exclusion>, UcdError>
    ensures { (before : Option DataLine) → Gives (λ found. (tt {0}, found)) result
        (read_of files.CompositionExclusions listing_findings (λ _. tt {0}) exclusion_by number before line.now) }
{
    let text = data_of(line);
    if text.is_empty() {
        return Ok(None);
    }
    let place = UcdFile::CompositionExclusions.at(number);
    let code = code(text).ok_or(place.fault(Problem::CodePoint))?;
    Ok(Some(Exclusion { code, line: number }))
}

/// An error if one of the characters has no canonical mapping.
pub(crate) fn all_mapped(exclusions: &[Exclusion], records: &[Record]) -> Result<(), UcdError>
    ensures { Gives (λ _. tt) result (unless (first_unmapped records.now exclusions.now) (tt {0})) }
{
    for exclusion in exclusions {
        if !is_mapped(records, exclusion.code) {
            let place = UcdFile::CompositionExclusions.at(exclusion.line);
            return Err(UcdError::Line(place.fault(Problem::Unmapped)));
        }
    }
    Ok(())
}

/// Whether the character has a canonical mapping.
fn is_mapped(records: &[Record], code: u32) -> bool
    ensures { result ≡ is_mapped records.now code }
{
    records.iter().any(|r| r.c as u32 == code && !r.compatibility && !r.mapping.is_empty())
}
