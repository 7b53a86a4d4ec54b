//! The program over files in memory: from the bytes of its data to what it writes and reports.
ghost use Rattle.std.specs.Prelude.{◌≡◌, true, map, option_copied, string_bytes, All, IfOk, None, Some, cond};
ghost use Rattle.normalizer_command.specs.FileFaults.{is_refusal};
ghost use Rattle.normalizer_command.specs.InMemory.{bytes_in, effect_of, in_memory, IsEffectOf};
ghost use Rattle.normalizer_command.specs.Messages.{name_in, report_of};
ghost use Rattle.normalizer_command.specs.inner.Kept.{kept_report, kept_reports, IsOfData};

use crate::arguments::is_same;
use crate::command::Command;
use crate::devices::{Inputs, Reports};
use crate::fault::Fault;
use crate::message::Message;
use crate::run::Run;
use normalizer_io::{Input, Output};
use std::alloc::{AllocError, Global};
use std::io::ErrorKind;

/// A file in memory.
#[derive(Clone, Copy)]
pub struct NamedFile<'a> {
    /// Its name.
    pub name: &'a str,
    /// Its bytes.
    pub bytes: &'a [u8],
}

/// A report of a file.
#[derive(Drop)]
pub struct KeptReport {
    /// The name of the file.
    pub name: String,
    /// Why it failed, or what was done to it.
    pub fault: Fault,
}

/// What a run wrote and reported.
#[derive(Drop)]
pub struct Outcome {
    /// What was written.
    pub output: Vec<u8>,
    /// The reports, in order.
    pub reports: Vec<KeptReport>,
    /// The exit status.
    pub status: u8,
}

/// Does a command with each file of these names in turn, using the data of a path: of a file of prepared data or, if no
/// file has that name, of a directory of Unicode's files. All files, those of the data too, are in memory, under their
/// names; of two of one name the first counts.
///
/// # Errors
/// If an allocation failed.
pub fn run_in_memory(
    alloc: Global,
    command: Command,
    path: &str,
    names: &[&str],
    files: &[NamedFile<'_>],
) -> Result<Outcome, AllocError>
    ensures { IfOk result (λ outcome. IsEffectOf (bytes_in files.now) command path.now
        (map (λ name. name.now) names.now) (effect_of outcome)) }
{
    let mut output = Output(Vec::new(alloc));
    let mut reports = KeptReports {
        alloc,
        kept: Vec::new(alloc),
        is_whole: true,
    };
    let run = Run {
        alloc,
        command,
        path,
        names,
        inputs: &NamedFiles { files },
    };
    let status = run.run(&mut output, &mut reports);
    if !reports.are_of_data() {
        return Err(AllocError);
    }
    Ok(Outcome {
        output: output.0,
        reports: reports.kept,
        status,
    })
}

/// Files in memory, as inputs.
#[derive(Clone, Copy)]
struct NamedFiles<'a> {
    files: &'a [NamedFile<'a>],
}

impl<'a> Inputs for NamedFiles<'a> {
    type Input = Input<&'a [u8]>;

    ghost files = { λ inputs. in_memory (bytes_in inputs.files.now) };

    fn open(&self, name: &str) -> Result<Input<&'a [u8]>, ErrorKind> {
        match bytes_of(self.files, name) {
            Some(bytes) => Ok(Input(bytes)),
            None => Err(ErrorKind::NotFound),
        }
    }
}

/// The bytes of the first file of a name.
fn bytes_of<'a>(files: &[NamedFile<'a>], name: &str) -> Option<&'a [u8]>
    ensures { option_copied result ≡ bytes_in files.now name.now }
{
    for file in files {
        if is_same(file.name, name) {
            return Some(file.bytes);
        }
    }
    None
}

/// The reports of a run, unless one was lost.
#[derive(Drop)]
struct KeptReports {
    alloc: Global,
    kept: Vec<KeptReport>,
    is_whole: bool,
}

impl KeptReports {
    /// Whether none was lost, and none is of a refusal.
    fn are_of_data(&self) -> bool
        ensures whole { result ≡ true → self.now.is_whole ≡ true }
        ensures of_data { result ≡ true → All IsOfData (kept_reports self.now.kept.items) }
    {
        self.is_whole && are_of_data(&self.kept)
    }
}

fn are_of_data(reports: &[KeptReport]) -> bool
    ensures { result ≡ true → All IsOfData (kept_reports reports.now) }
{
    for report in reports {
        if is_refusal(report.fault) {
            return false;
        }
    }
    true
}

/// Whether a read, a write or an allocation failed.
fn is_refusal(fault: Fault) -> bool
    ensures { result ≡ is_refusal fault }
{
    matches!(fault, Fault::Read | Fault::Write | Fault::Memory)
}

impl Reports for KeptReports {
    ghost reports = { λ reports. cond reports.is_whole (Some (kept_reports reports.kept.items)) None };

    fn report(&mut self, message: Message<'_>) {
        match kept(self.alloc, message) {
            Ok(report) => {
                if self.kept.push(report).is_err() {
                    self.is_whole = false;
                }
            }
            Err(_) => self.is_whole = false,
        }
    }
}

/// A report that is kept of a message.
fn kept(alloc: Global, message: Message<'_>) -> Result<KeptReport, AllocError>
    ensures { IfOk result (λ report. kept_report report ≡ report_of message.entry) }
{
    Ok(KeptReport {
        name: whole_name(alloc, message.directory, message.name)?,
        fault: message.fault,
    })
}

/// A name in a directory, if there is one.
fn whole_name(alloc: Global, directory: Option<&str>, name: &str) -> Result<String, AllocError>
    ensures { IfOk result (λ whole. string_bytes whole ≡ name_in (option_copied directory.entry) name.now) }
{
    match directory {
        Some(directory) => format!(in alloc; "{directory}/{name}"),
        None => String::from_str(alloc, name),
    }
}
