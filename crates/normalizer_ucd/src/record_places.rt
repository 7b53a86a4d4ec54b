//! The line of a file that states a record.
ghost use Rattle.std.specs.Prelude.{◌≡◌, IfOk, map};
ghost use Rattle.normalizer_ucd.specs.RecordPlaces.{first_stating, place_of_record, states};

use crate::error::{Place, UcdFile};
use crate::idna_table::{first, last};
use crate::lines::{code, data_of, lines};
use normalizer_records::RecordAtFault;
use std::alloc::{AllocError, Global};

/// Returns the line that states a record: the first line of `UnicodeData.txt` for its character or, for a record of the
/// mapper, the first line of `IdnaMappingTable.txt` whose range has it. There is none if no line does.
///
/// # Errors
/// If an allocation fails.
#[tactic(auto, unfolding(crate::specs::RecordPlaces::place_of_record))]
pub fn place_of_record(
    alloc: Global,
    unicode_data: &[u8],
    idna_table: &[u8],
    fault: RecordAtFault,
) -> Result<Option<Place>, AllocError>
    ensures { IfOk result (λ place. place ≡ place_of_record unicode_data.now idna_table.now fault) }
{
    let (name, file) = match fault {
        RecordAtFault::OfCharacter(_) => (UcdFile::UnicodeData, unicode_data),
        RecordAtFault::OfMapper(_) => (UcdFile::IdnaMappingTable, idna_table),
    };
    let parts = lines(alloc, file)?;
    Ok(first_stating(name, fault, &parts))
}

/// The first line that is for the character of the record.
fn first_stating(name: UcdFile, fault: RecordAtFault, lines: &[&[u8]]) -> Option<Place>
    ensures { result ≡ first_stating name fault 1 (map (λ line. line.now) lines.now) }
{
    for (index, line) in lines.iter().enumerate() {
        if states(fault, line) {
            return Some(name.at(index + 1));
        }
    }
    None
}

/// Whether a line is for the character of the record.
#[tactic(auto, unfolding(crate::specs::RecordPlaces::states))]
fn states(fault: RecordAtFault, line: &[u8]) -> bool
    ensures { result ≡ states fault line.now }
{
    match fault {
        RecordAtFault::OfCharacter(c) => {
            code(data_of(line)).is_some_and(|code| code == c as u32)
        }
        RecordAtFault::OfMapper(c) => {
            let text = data_of(line);
            first(text).is_some_and(|first| first <= c as u32)
                && last(text).is_some_and(|last| c as u32 <= last)
        }
    }
}
