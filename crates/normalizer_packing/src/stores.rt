//! The stores of the lists that no word spells.
ghost use Rattle.std.specs.Prelude.{◌↔◌, ◌+◌, ◌<◌, ◌≤◌, IfOk, OnOk, IsErrOf, IsTrue};
ghost use Rattle.normalizer_tables.specs.conditions.Conditions.{item_count, item_limit};
ghost use Rattle.normalizer_packing.specs.Stored.{needed_items};
ghost use Rattle.normalizer_packing.specs.inner.Stores.{tables_in, AreStored};

use crate::spelled::SpelledEntries;
use crate::store::{Store, put_lists};
use normalizer_tables::condition::ITEM_LIMIT;
use normalizer_tables::entry::Kind;
use std::alloc::{AllocError, Global};
use thiserror::Error;

/// Why entries were not packed.
#[derive(Debug, Drop, Error)]
pub enum PackError {
    /// The distinct lists that no word spells have more than 8,191 items together.
    #[error("the lists have more items than the limit")]
    TableFull,
    /// An allocation failed.
    #[error("out of memory")]
    Memory,
}

/// The lists of canonical data, and those that only the other kinds of data need.
#[derive(Drop)]
pub struct Stores<'a> {
    /// The lists of canonical data.
    pub canonical: Store<'a>,
    /// Those that only the other kinds of data need.
    pub supplementary: Store<'a>,
}

/// Returns the stores of all lists that no word spells.
///
/// # Errors
/// `TableFull` if the lists have more items than the limit, `Memory` if an allocation failed.
#[tactic(auto, using(crate::proofs::lists::StoreLemmas::needed_items_stored))]
pub fn stores_of<'a>(alloc: Global, entries: &SpelledEntries<'a>) -> Result<Stores<'a>, PackError>
    ensures stored { IfOk result (λ s. AreStored entries.now s.canonical s.supplementary) }
    ensures within { OnOk result (needed_items entries.now ≤ item_limit) }
    ensures full { IsErrOf result PackError.TableFull → item_limit < needed_items entries.now }
{
    match filled(alloc, entries) {
        Ok(stores) if is_within(&stores) => Ok(stores),
        Ok(_) => Err(PackError::TableFull),
        Err(_) => Err(PackError::Memory),
    }
}

fn filled<'a>(alloc: Global, entries: &SpelledEntries<'a>) -> Result<Stores<'a>, AllocError>
    ensures { IfOk result (λ s. AreStored entries.now s.canonical s.supplementary) }
{
    let nothing = Store::new(alloc);
    let mut canonical = Store::new(alloc);
    put_lists(entries, Kind::Canonical, &nothing, &mut canonical)?;
    let mut supplementary = Store::new(alloc);
    put_lists(entries, Kind::Compatibility, &canonical, &mut supplementary)?;
    put_lists(entries, Kind::Mapper, &canonical, &mut supplementary)?;
    Ok(Stores {
        canonical,
        supplementary,
    })
}

/// Whether the items are within the limit.
fn is_within(stores: &Stores<'_>) -> bool
    ensures { IsTrue result ↔
        (item_count (tables_in stores.now.canonical) + item_count (tables_in stores.now.supplementary) ≤ item_limit) }
{
    let first = stores.canonical.len();
    first <= ITEM_LIMIT && stores.supplementary.len() <= ITEM_LIMIT - first
}
