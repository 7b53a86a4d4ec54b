//! The program `uninorm`: it writes the normal forms of files or of standard input, what isn't in a form, and lines mapped
//! or validated for domain names.
#![tactic(auto)]

mod data;
mod help;
mod replaced;
mod standard;
mod words;

use data::{Kind, path};
use help::{HELP, help_of};
use normalizer_command::arguments::{FileRequest, Request, parsed};
use normalizer_command::made::{write_prepared, write_version};
use normalizer_command::run::Run;
use replaced::Renamed;
use standard::{ErrorStream, Named, Printed};
use std::alloc::AllocError;
use std::cell::Cell;
use std::fmt::Display;
use std::process::ExitCode;
use words::arguments;

/// The exit status of a run that fails.
const FAILED: u8 = 2;

/// The exit status if nobody reads the output any more: that of a program which SIGPIPE ends.
const CLOSED: u8 = 141;

fn main(rt: HostRuntime) -> ExitCode {
    ExitCode::from(by_arguments(&rt))
}

/// Does what the arguments request, and returns the exit status.
fn by_arguments(rt: &HostRuntime) -> u8 {
    match arguments(rt) {
        Ok(words) => by_words(rt, &words.all, &words.unclear),
        Err(AllocError) => failed(rt, "out of memory"),
    }
}

/// Does what the words request, the first of which is the name that the program was started by.
fn by_words(rt: &HostRuntime, words: &Vec<String>, unclear: &[String]) -> u8 {
    match parsed(rt.alloc(), words) {
        Ok(Request::Files(request)) => over_files(rt, &request, unclear),
        Ok(Request::Version(named)) => of_data(rt, named, true),
        Ok(Request::Prepare(named)) => of_data(rt, named, false),
        Ok(Request::Unclear(reason)) => failed(rt, reason),
        Err(error) if error.use_stderr() => wrong(rt, error),
        Err(_) => helped(rt, words),
    }
}

fn over_files(rt: &HostRuntime, request: &FileRequest<'_>, unclear: &[String]) -> u8 {
    let path = match path(rt, request.path, Kind::Any) {
        Ok(path) => path,
        Err(reason) => return failed(rt, reason),
    };
    let closed = Cell::new(false);
    let run = Run {
        alloc: rt.alloc(),
        command: request.command,
        path: path.as_str(),
        names: &request.names,
        inputs: &Named::new(rt, unclear, request.in_place),
    };
    let mut reports = ErrorStream::new(rt, &closed);
    let status = if request.in_place {
        run.run_in_place(&mut Renamed(rt), &mut reports)
    } else {
        run.run(&mut Printed::new(rt, &closed), &mut reports)
    };
    if closed.get() { CLOSED } else { status }
}

/// Writes the version of the data, or all of them as one file.
fn of_data(rt: &HostRuntime, named: Option<&str>, is_version: bool) -> u8 {
    let kind = if is_version {
        Kind::Any
    } else {
        Kind::Directory
    };
    let path = match path(rt, named, kind) {
        Ok(path) => path,
        Err(reason) => return failed(rt, reason),
    };
    let closed = Cell::new(false);
    let (alloc, path, inputs) = (rt.alloc(), path.as_str(), Named::new(rt, &[], false));
    let (mut output, mut reports) = (Printed::new(rt, &closed), ErrorStream::new(rt, &closed));
    let status = if is_version {
        write_version(alloc, path, &inputs, &mut output, &mut reports)
    } else {
        write_prepared(alloc, path, &inputs, &mut output, &mut reports)
    };
    if closed.get() { CLOSED } else { status }
}

/// Prints what there is to say of the first command among the words, or of the program.
fn helped(rt: &HostRuntime, words: &[String]) -> u8 {
    let help = words
        .iter()
        .skip(1)
        .find_map(|word| help_of(word))
        .unwrap_or(HELP);
    let _ = print!(rt; "{help}");
    0
}

/// Prints what is wrong with the words.
fn wrong<E: Display + Drop>(rt: &HostRuntime, error: E) -> u8 {
    match format!(in rt.alloc(); "{error}") {
        Ok(text) => {
            let text = text.strip_prefix("error: ").unwrap_or(&text);
            failed(rt, text.trim_end())
        }
        Err(AllocError) => failed(rt, "out of memory"),
    }
}

fn failed<R: Display + Drop>(rt: &HostRuntime, reason: R) -> u8 {
    let _ = eprintln!(rt; "uninorm: {reason}");
    FAILED
}
