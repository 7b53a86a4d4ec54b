//! Whether the result of a row is the expected one.
use crate::questions::answer;
use rows_questions::language::fault::Fault;
use rows_questions::language::setting::Setting;
use rows_questions::language::words::words;
use std::alloc::{AllocError, Global};

/// The row of a line.
pub fn without_comment(line: &str) -> &str {
    match line.split_once("# ") {
        Some((row, _)) => row.trim(),
        None => line.trim(),
    }
}

/// What is wrong with a row. One that begins with `fails` is to be wrong itself.
pub fn what_differs(setting: &mut Setting, row: &str) -> Result<Option<String>, AllocError> {
    let Some(row) = row.strip_prefix("fails ") else {
        return unexpected(setting, row);
    };
    match unexpected(setting, row)? {
        Some(_) => Ok(None),
        None => Ok(Some(String::from_str(setting.alloc, AS_EXPECTED)?)),
    }
}

const AS_EXPECTED: &str = "as expected";

/// What came of a row in place of what it says. Its first word may be that its result is another, that it can't be
/// read, or that its data are refused or not there.
fn unexpected(setting: &mut Setting, row: &str) -> Result<Option<String>, AllocError> {
    let alloc = setting.alloc;
    let (expected, row) = match row.split_once(' ') {
        Some((expected @ ("not" | "unreadable" | "refused"), row)) => (expected, row),
        _ => ("", row),
    };
    match (expected, difference(setting, row)) {
        ("", Ok(None))
        | ("not", Ok(Some(_)))
        | ("unreadable", Err(Fault::Unreadable))
        | ("refused", Err(Fault::Refused)) => Ok(None),
        (_, Ok(None)) => Ok(Some(String::from_str(alloc, AS_EXPECTED)?)),
        (_, Ok(answer)) => Ok(answer),
        (_, Err(fault)) => Ok(Some(String::from_str(alloc, fault.name())?)),
    }
}

/// The result of a row, if it is not the expected one.
pub fn difference(setting: &mut Setting, row: &str) -> Result<Option<String>, Fault> {
    let Some((question, wanted)) = row.split_once('=') else {
        setting.give(row)?;
        return Ok(None);
    };
    let answer = answered(setting, question)?;
    let is_wanted = are_same_words(setting.alloc, wanted, &answer)?;
    Ok(if is_wanted { None } else { Some(answer) })
}

/// Whether two texts have the same words.
pub fn are_same_words<'a>(alloc: Global, wanted: &'a str, answer: &'a str) -> Result<bool, Fault> {
    Ok(words(alloc, wanted)?.as_slice() == words(alloc, answer)?.as_slice())
}

/// The result of a question, perhaps with edits of the data: `try nfc with cap nfd 0301 and past nfd 1`.
fn answered(setting: &mut Setting, question: &str) -> Result<String, Fault> {
    match question.split_once(" with ") {
        Some((question, edits)) => answered_with(setting, question, edits),
        None => answer(setting, &words(setting.alloc, question)?),
    }
}

fn answered_with(setting: &Setting, question: &str, edits: &str) -> Result<String, Fault> {
    let mut edited = setting.edited(edits)?;
    answer(&mut edited, &words(setting.alloc, question)?)
}
