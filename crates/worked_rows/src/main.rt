//! Compares results of the library with rows of data. An argument `NAME.rows` names a file, whose rows are explained in
//! `data/README.md`. Written are the rows with another result, and the number of rows of each file. Any other argument
//! names files of the Unicode Character Database; written is what they are read as (`unicode_files`).
//!
//! `call NAME ROW..` makes one call that the question of the last row is about, as `normalize_to`, once the other rows
//! have set the data; `before NAME ROW..` does all that comes before the call, and `after NAME ROW..` compares the row
//! after it. So a script can refuse each growth of memory of the call alone. `refused` has what the status then says.
#![tactic(auto)]

mod comparison;
mod files;
mod questions;
mod refused;

use comparison::{what_differs, without_comment};
use rows_questions::language::setting::Setting;
use std::process::ExitCode;
use std::{env, fs, io};

fn main(rt: HostRuntime) -> ExitCode {
    match status(&rt) {
        Ok(status) => ExitCode::from(status),
        Err(_) => ExitCode::from(5),
    }
}

/// The status for the arguments: 0 if no row differs.
fn status(rt: &HostRuntime) -> io::Result<u8> {
    let arguments: Vec<String> = env::args(rt)?.skip(1).collect(rt.alloc())?;
    let mut names = Vec::new(rt.alloc());
    for argument in &arguments {
        names.push(argument.as_str())?;
    }
    match names.as_slice() {
        [stop @ ("before" | "call" | "after"), call, rows @ ..] => {
            Ok(refused::status(rt.alloc(), stop, call, rows))
        }
        files => compared(rt, files),
    }
}

/// Compares the rows of files.
fn compared(rt: &HostRuntime, names: &[&str]) -> io::Result<u8> {
    let mut status = 0;
    for name in names {
        if !are_right(rt, name, &fs::read_to_string(rt, name)?)? {
            status = 1;
        }
    }
    Ok(status)
}

/// Writes the rows of a file that differ, and how many there are in all. Returns whether none differs.
fn are_right(rt: &HostRuntime, file: &str, text: &str) -> io::Result<bool> {
    let mut setting = Setting::new(rt.alloc());
    let mut count = 0usize;
    let mut are_right = true;
    for (place, line) in text.lines().enumerate() {
        let row = without_comment(line);
        if !row.is_empty() {
            count = count.saturating_add(1);
            if let Some(answer) = what_differs(&mut setting, row)? {
                let number = place.saturating_add(1);
                println!(rt; "{file}:{number}: {row} answered: {answer}")?;
                are_right = false;
            }
        }
    }
    println!(rt; "{file}: {count} rows")?;
    Ok(are_right)
}
