//! One call of the library, whose growths of memory can be counted and refused apart from those of what comes before it
//! and of what compares its result. Of `nfc` and the other forms it is the call of a name, as `normalize_to`; of
//! `unchecked`, `map` and `validate` the iterator, of `ranges` and `pairs` what makes them, of `build` that of
//! `Records::build`, of `try nfc` the constructor, of `copies` the copies of each part.
use crate::calls::{are_mapped, is_unchecked_form};
use crate::data::{are_copied, refusal};
use crate::encoded::Encoded;
use crate::language::by_hand::{pairs_of, ranges_of};
use crate::language::fault::{Fault, agreed};
use crate::language::input::{Input, text};
use crate::language::setting::Setting;
use crate::language::words::{all, first_of, words};
use icu_normalizer::{CanonicalCompositions, CodePointTable, MappingData, Records};

/// Makes the call of a row, or for the form of an input the call of this name. If `stop` is `before`, it returns before
/// the call. Nothing else allocates from there on.
///
/// # Errors
/// [`Fault::Memory`] if the call returned it, and left what it may; [`Fault::MemoryOfItem`] if it made an iterator,
/// whose only item was that error; [`Fault::Stopped`] if it was not made.
pub fn make(setting: &mut Setting, stop: &str, call: &str, row: &str) -> Result<(), Fault> {
    let alloc = setting.alloc;
    let (question, wanted) = row.split_once('=').ok_or(Fault::Unreadable)?;
    let question = words(alloc, question)?;
    let (name, rest) = first_of(&question)?;
    match name {
        "ranges" => {
            let ranges = ranges_of(alloc, rest)?;
            goes_past(stop)?;
            drop(CodePointTable::from_ranges(ranges, 0)?);
            Ok(())
        }
        "pairs" => {
            let pairs = pairs_of(alloc, rest)?;
            goes_past(stop)?;
            drop(CanonicalCompositions::from_pairs(pairs)?);
            Ok(())
        }
        "build" | "try" | "copies" => make_of_data(setting, stop, name, rest),
        _ => {
            let wanted: Vec<char> = all(alloc, &words(alloc, wanted)?)?;
            make_of_text(setting, stop, call, &question, &wanted)
        }
    }
}

fn goes_past(stop: &str) -> Result<(), Fault> {
    if stop == "before" {
        Err(Fault::Stopped)
    } else {
        Ok(())
    }
}

fn make_of_data(setting: &mut Setting, stop: &str, name: &str, rest: &[&str]) -> Result<(), Fault> {
    let _held = setting.held()?;
    goes_past(stop)?;
    match (name, rest) {
        ("build", _) => drop(Records::build(setting.alloc, &setting.records, &setting.mapper)?),
        ("try", [name]) => {
            if let Some(error) = refusal(setting.held()?, name)? {
                return Err(Fault::from(error));
            }
        }
        _ => agreed(are_copied(setting.held()?)?)?,
    }
    Ok(())
}

fn make_of_text(
    setting: &mut Setting,
    stop: &str,
    call: &str,
    question: &[&str],
    wanted: &[char],
) -> Result<(), Fault> {
    let alloc = setting.alloc;
    let (name, input) = first_of(question)?;
    agreed(match name {
        "unchecked" => {
            let (held, text) = (setting.held()?, text(alloc, input)?);
            goes_past(stop)?;
            is_unchecked_form(held, &text, wanted)?
        }
        "map" | "validate" => {
            let (mapper, text) = (setting.held()?.mapper()?, text(alloc, input)?);
            goes_past(stop)?;
            are_mapped(&mapper, name, &text, wanted)?
        }
        form => {
            let (normalizer, input) = (setting.normalizer(form)?, Input::read(alloc, input)?);
            goes_past(stop)?;
            Encoded::of(&input).agrees(alloc, &normalizer.as_borrowed(), call, wanted)?
        }
    })
}
