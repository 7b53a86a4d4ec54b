//! Questions about data: what constructors and checks say of them; what their words, lists and pairs are before any
//! check; and whether words of ranges, and pairs, are made.
use crate::language::by_hand::{pairs_of, ranges_of};
use crate::language::fault::{Answer, Fault, agreed};
use crate::language::held::Held;
use crate::language::printing::{acceptance, spelled_bool};
use crate::language::words::{Spelled, character, form_named, hexadecimal, only, spelled_all};
use icu_normalizer::properties::{
    CanonicalCombiningClassMap, CanonicalComposition, CanonicalDecomposition,
};
use icu_normalizer::uts46::Uts46Mapper;
use icu_normalizer::{
    CanonicalCompositions, CodePointTable, DataError, DecompositionData, DecompositionTables,
    FormData, TableError, check_nfd_data,
};
use normalizer_tables::{block_count, compose, is_never_second};
use std::alloc::Global;

/// The result of a constructor.
pub fn constructed(alloc: Global, held: &Held, question: &[&str]) -> Answer {
    acceptance(alloc, refusal(held, only(question)?)?)
}

/// The text of the error of a constructor, or `none`.
pub fn said(alloc: Global, held: &Held, question: &[&str]) -> Answer {
    match refusal(held, only(question)?)? {
        None => Ok(String::from_str(alloc, "none")?),
        Some(DataError::Memory) => Err(Fault::Memory),
        Some(error) => Ok(format!(in alloc; "{error}")?),
    }
}

/// Why a constructor refuses data, if it does.
pub fn refusal(held: &Held, name: &str) -> Result<Option<DataError>, Fault> {
    Ok(match name {
        "mapper" => Uts46Mapper::try_new(held).err(),
        "pairs" => CanonicalComposition::try_new_unstable(held).err(),
        "steps" => CanonicalDecomposition::try_new_unstable(held).err(),
        "classes" => CanonicalCombiningClassMap::try_new_unstable(held).err(),
        form => held.normalizer(form_named(form)?).err(),
    })
}

/// The result of the check of canonical data.
pub fn checked(alloc: Global, held: &Held, question: &[&str]) -> Answer {
    match (question, &held.canonical, &held.tables) {
        (["nfd"], Some(words), Some(tables)) => {
            acceptance(alloc, check_nfd_data(words, tables).err())
        }
        (["nfd"], _, _) => Err(Fault::Refused),
        _ => Err(Fault::Unreadable),
    }
}

fn data_named<'a>(held: &'a Held, kind: &str) -> Result<&'a DecompositionData, Fault> {
    let data = match kind {
        "nfd" => &held.canonical,
        "nfkd" => &held.compatibility,
        "uts46" => &held.mapper,
        _ => return Err(Fault::Unreadable),
    };
    data.as_ref().ok_or(Fault::Refused)
}

fn table_named<'a>(held: &'a Held, kind: &str) -> Result<&'a CodePointTable, Fault> {
    match (kind, &held.supplement) {
        ("supplement", Some(supplement)) => Ok(&supplement.table),
        _ => Ok(&data_named(held, kind)?.table),
    }
}

/// The word of a number, by each call.
pub fn word(alloc: Global, held: &Held, question: &[&str]) -> Answer {
    let [kind, number] = question else {
        return Err(Fault::Unreadable);
    };
    let number = hexadecimal(number)?;
    let table = table_named(held, kind)?;
    let word = table.get32(number);
    agreed(
        char::from_u32(number).is_none_or(|character| table.get(character) == word)
            && u16::try_from(number)
                .ok()
                .is_none_or(|unit| table.get16(unit) == word),
    )?;
    Ok(format!(in alloc; "{:08X}", word)?)
}

/// The number below which a loop that composes may pass every character without looking up its word.
pub fn cap(alloc: Global, held: &Held, question: &[&str]) -> Answer {
    let cap = data_named(held, only(question)?)?.passthrough_cap;
    Ok(format!(in alloc; "{:04X}", cap)?)
}

fn pairs_in(held: &Held) -> Result<&CanonicalCompositions, Fault> {
    held.pairs.as_ref().ok_or(Fault::Refused)
}

/// What two characters compose to, or `none`.
pub fn joined(alloc: Global, held: &Held, question: &[&str]) -> Answer {
    let [first, second] = question else {
        return Err(Fault::Unreadable);
    };
    match compose(pairs_in(held)?, character(first)?, character(second)?) {
        Some(composite) => composite.spelled(alloc),
        None => Ok(String::from_str(alloc, "none")?),
    }
}

/// Whether a character is second in no pair.
pub fn never_second(alloc: Global, held: &Held, question: &[&str]) -> Answer {
    let second = character(only(question)?)?;
    spelled_bool(alloc, is_never_second(pairs_in(held)?, second))
}

/// How many blocks a table has.
pub fn counted(alloc: Global, held: &Held, question: &[&str]) -> Answer {
    let count = block_count(table_named(held, only(question)?)?);
    Ok(format!(in alloc; "{count}")?)
}

/// The lists of canonical words, as they went in.
pub fn lists(alloc: Global, held: &Held, question: &[&str]) -> Answer {
    match (question, &held.tables) {
        (["nfd"], Some(tables)) => lists_of(alloc, tables),
        (["nfd"], None) => Err(Fault::Refused),
        _ => Err(Fault::Unreadable),
    }
}

fn lists_of(alloc: Global, tables: &DecompositionTables) -> Answer {
    let units: Vec<u16> = tables.scalars16.clone()?.into();
    let characters: Vec<char> = tables.scalars24.clone()?.into();
    agreed(
        units.len() == tables.scalars16.len()
            && units.is_empty() == tables.scalars16.is_empty()
            && characters.len() == tables.scalars24.len()
            && characters.is_empty() == tables.scalars24.is_empty(),
    )?;
    let units = spelled_all(alloc, &units)?;
    let characters = spelled_all(alloc, &characters)?;
    Ok(format!(in alloc; "{units} | {characters}")?)
}

/// Whether the words of two kinds are equal.
pub fn same(alloc: Global, held: &Held, question: &[&str]) -> Answer {
    let [first, second] = question else {
        return Err(Fault::Unreadable);
    };
    spelled_bool(alloc, data_named(held, first)? == data_named(held, second)?)
}

/// Whether each part that is held equals its copy.
pub fn are_copied(held: &Held) -> Result<bool, Fault> {
    Ok(
        is_copied(&held.canonical)?
            && is_copied(&held.compatibility)?
            && is_copied(&held.mapper)?
            && is_copied(&held.tables)?
            && is_copied(&held.supplementary)?
            && is_copied(&held.pairs)?
            && is_copied(&held.supplement)?,
    )
}

fn is_copied<T: Clone + PartialEq + Drop>(part: &Option<T>) -> Result<bool, Fault> {
    match part {
        Some(part) => Ok(part.clone()? == *part),
        None => Ok(true),
    }
}

/// Whether words of these ranges are made, or why not.
pub fn ranges(alloc: Global, question: &[&str]) -> Answer {
    match CodePointTable::from_ranges(ranges_of(alloc, question)?, 0) {
        Ok(_) => Ok(String::from_str(alloc, "accepted")?),
        Err(TableError::Memory) => Err(Fault::Memory),
        Err(error) => Ok(format!(in alloc; "{error}")?),
    }
}

/// Whether pairs are made.
pub fn pairs(alloc: Global, question: &[&str]) -> Answer {
    let _pairs = CanonicalCompositions::from_pairs(pairs_of(alloc, question)?)?;
    Ok(String::from_str(alloc, "accepted")?)
}
