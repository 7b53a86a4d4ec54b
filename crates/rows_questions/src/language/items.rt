//! The characters that an iterator yields.
ghost use Rattle.std.specs.Iterator.{IsFinite};

use crate::language::fault::Fault;
use icu_normalizer::NormalizeError;

/// Whether the items are these characters. A fault must be the first item, and none may come after it: that none ever
/// does is proved of the iterators.
pub fn are<I>(mut items: I, characters: &[char]) -> Result<bool, Fault>
where
    I: Iterator<Item = Result<char, NormalizeError>> + Drop,
    requires can { I.can_next items }
    requires ends { IsFinite (I.remaining items) }
{
    let mut is_first = true;
    for character in characters {
        match items.next() {
            Some(Ok(found)) if found == *character => is_first = false,
            Some(Err(_)) if is_first && items.next().is_none() => return Err(Fault::MemoryOfItem),
            _ => return Ok(false),
        }
    }
    Ok(items.next().is_none())
}
