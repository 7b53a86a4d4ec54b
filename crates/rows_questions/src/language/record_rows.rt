//! Records as rows write them: `canonical 0308 0301 class 230`, `class 9`, `compatibility 0066 0069`; of the mapper
//! `mapped 03B9`, `ignored`, `disallowed`.
use crate::language::fault::Fault;
use crate::language::words::{all, character, decimal, first_of, hexadecimal, spelled_all};
use icu_normalizer::{Record, Uts46Record, Uts46Status};
use std::alloc::Global;

/// The record of a character that words spell. In words such as `4E00..` numbers are higher by the steps.
pub fn record_of(alloc: Global, c: char, words: &[&str], steps: u32) -> Result<Record, Fault> {
    let (words, class) = match words {
        [words @ .., name, class] if *name == "class" => (words, decimal(class)?),
        words => (first_of(words).map(|_| words)?, 0),
    };
    let (kind, mapping) = first_of(words).unwrap_or(("canonical", words));
    if !matches!(kind, "canonical" | "excluded" | "compatibility") {
        return Err(Fault::Unreadable);
    }
    Ok(Record {
        c,
        class: u8::try_from(class).ok().ok_or(Fault::Unreadable)?,
        mapping: mapping_of(alloc, mapping, steps)?,
        compatibility: kind == "compatibility",
        excluded: kind == "excluded",
    })
}

fn mapping_of(alloc: Global, words: &[&str], steps: u32) -> Result<Vec<char>, Fault> {
    let mut mapping = Vec::new(alloc);
    for word in words {
        mapping.push(counted(word, steps)?)?;
    }
    Ok(mapping)
}

fn counted(word: &str, steps: u32) -> Result<char, Fault> {
    let Some(first) = word.strip_suffix("..") else {
        return character(word);
    };
    let number = hexadecimal(first)?.saturating_add(steps);
    char::from_u32(number).ok_or(Fault::Unreadable)
}

/// A record, as its row.
pub fn spelled_record(alloc: Global, record: &Record) -> Result<String, Fault> {
    let class = record.class;
    if record.mapping.is_empty() {
        return Ok(format!(in alloc; "class {class}")?);
    }
    let kind = if record.compatibility {
        "compatibility"
    } else if record.excluded {
        "excluded"
    } else {
        "canonical"
    };
    let mapping = spelled_all(alloc, &record.mapping)?;
    if class == 0 {
        Ok(format!(in alloc; "{kind} {mapping}")?)
    } else {
        Ok(format!(in alloc; "{kind} {mapping} class {class}")?)
    }
}

/// Records of the characters from the first to the last. A word such as `4E00..` counts up with them.
pub fn records_of(
    alloc: Global,
    numbers: (u32, u32),
    words: &[&str],
) -> Result<Vec<Record>, Fault> {
    let (first, last) = numbers;
    let mut records = Vec::new(alloc);
    for number in first..=last {
        let c = char::from_u32(number).ok_or(Fault::Unreadable)?;
        records.push(record_of(alloc, c, words, number - first)?)?;
    }
    Ok(records)
}

/// The record of the mapper that words spell.
pub fn mapper_record_of(alloc: Global, c: char, words: &[&str]) -> Result<Uts46Record, Fault> {
    let (name, mapping) = first_of(words)?;
    let status = match name {
        "mapped" => Uts46Status::Mapped(all(alloc, mapping)?),
        "ignored" => Uts46Status::Ignored,
        "disallowed" => Uts46Status::Disallowed,
        _ => return Err(Fault::Unreadable),
    };
    Ok(Uts46Record { c, status })
}

/// A record of the mapper, as its row.
pub fn spelled_mapper_record(alloc: Global, record: &Uts46Record) -> Result<String, Fault> {
    Ok(match &record.status {
        Uts46Status::Mapped(mapping) => {
            let mapping = spelled_all(alloc, mapping)?;
            format!(in alloc; "mapped {mapping}")?
        }
        Uts46Status::Ignored => String::from_str(alloc, "ignored")?,
        Uts46Status::Disallowed => String::from_str(alloc, "disallowed")?,
    })
}
