//! The program `normtool`: it reads bytes from standard input, and writes a normal form of the text that they decode
//! to, reports whether they are normalized or the first place at which they are not, or maps the text for domain names.
#![tactic(auto)]

use normalizer_io::{Input, Output};
use normtool_command::ending::{ToolFault, ending};
use normtool_command::run::program;
use std::alloc::AllocError;
use std::env;
use std::io::ErrorKind;
use std::process::ExitCode;

fn main(rt: HostRuntime) -> ExitCode {
    let (mut input, mut output) = (Input(rt.stdin()), Output(rt.stdout()));
    let (status, line) = match arguments(&rt) {
        Ok(all) => program(rt.alloc(), &all, &mut input, &mut output),
        Err(_) => ending(&Err(ToolFault::Memory)),
    };
    if !line.is_empty() {
        let _ = eprintln!(rt; "{line}");
    }
    ExitCode::from(status)
}

/// The words after the program's name: none, which name no command, if one is not UTF-8.
fn arguments(rt: &HostRuntime) -> Result<Vec<String>, AllocError> {
    match env::args(rt) {
        Ok(arguments) => arguments.skip(1).collect(rt.alloc()),
        Err(error) if error.kind() == ErrorKind::OutOfMemory => Err(AllocError),
        Err(_) => Ok(Vec::new(rt.alloc())),
    }
}
