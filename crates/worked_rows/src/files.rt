//! Questions about files, and about the calls from files or records to a form. A file is its lines, a word each, in
//! which `_` is a space and `%0D` the byte 0D; no line feed comes after a line that ends with `%`. `|` is between files.
mod closed;
mod prepared;
mod unicode;

use crate::comparison::are_same_words;
use rows_questions::language::fault::{Answer, Fault, agreed};
use rows_questions::language::setting::Setting;
use rows_questions::language::words::{Spelled, first_of, words};
use std::alloc::Global;
use std::fmt::Display;

/// The result of a question, or an empty one if it stops after its `call`.
///
/// # Errors
/// [`Fault::Stopped`] if it stops `before` its call.
pub fn asked(setting: &Setting, stop: &str, name: &str, question: &[&str]) -> Answer {
    let alloc = setting.alloc;
    match name {
        "read" => unicode::read(alloc, question),
        "build-files" => unicode::built(alloc, question),
        "table" => unicode::table(alloc, stop, question),
        "by-files" => closed::by_files(alloc, stop, question),
        "by-records" => closed::by_records(setting, stop, question),
        "by-prepared" => closed::by_prepared(setting, stop, question),
        "prepared" => prepared::first_unrefused(setting),
        _ => closed::constants(alloc, question),
    }
}

/// Makes the call of a row, whose result must be the expected one if it doesn't stop there. Nothing else allocates up to
/// the end of the call.
pub fn make(setting: &Setting, stop: &str, call: &str, row: &str) -> Result<(), Fault> {
    let (question, wanted) = row.split_once('=').ok_or(Fault::Unreadable)?;
    let question = words(setting.alloc, question)?;
    let (_, question) = first_of(&question)?;
    let answer = asked(setting, stop, call, question)?;
    if stop == "call" {
        return Ok(());
    }
    agreed(are_same_words(setting.alloc, wanted, &answer)?)
}

fn goes_past(stop: &str) -> Result<(), Fault> {
    if stop == "before" {
        Err(Fault::Stopped)
    } else {
        Ok(())
    }
}

/// The text of an error, unless memory ran out.
fn said<E: Display>(alloc: Global, error: &E) -> Answer {
    let text = format!(in alloc; "{error}")?;
    if text.as_str() == "out of memory" {
        return Err(Fault::Memory);
    }
    Ok(text)
}

/// The words between each two `|`.
fn parts<'w, 'a>(alloc: Global, words: &'w [&'a str]) -> Result<Vec<&'w [&'a str]>, Fault> {
    Ok(words.split(|word| *word == "|").collect(alloc)?)
}

/// The file of these lines.
fn file(alloc: Global, lines: &[&str]) -> Result<Vec<u8>, Fault> {
    let mut file = Vec::new(alloc);
    for line in lines {
        push_line(&mut file, line.strip_suffix('%').unwrap_or(line))?;
        if !line.ends_with('%') {
            file.push(b'\n')?;
        }
    }
    Ok(file)
}

fn push_line(file: &mut Vec<u8>, line: &str) -> Result<(), Fault> {
    let mut pieces = line.split('%');
    push_text(file, pieces.next().unwrap_or(""))?;
    for piece in pieces {
        let (digits, text) = piece.split_at_checked(2).ok_or(Fault::Unreadable)?;
        file.push(u8::read(digits)?)?;
        push_text(file, text)?;
    }
    Ok(())
}

fn push_text(file: &mut Vec<u8>, text: &str) -> Result<(), Fault> {
    for byte in text.bytes() {
        file.push(if byte == b'_' { b' ' } else { byte })?;
    }
    Ok(())
}
