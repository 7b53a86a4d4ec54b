//! A run over files.
ghost use Rattle.std.specs.Prelude.{◌≡◌, map};
ghost use Rattle.normalizer_command.specs.DataFaults.{name_of};
ghost use Rattle.normalizer_command.specs.Devices.{devices};
ghost use Rattle.normalizer_command.specs.FileReports.{Tells};
ghost use Rattle.normalizer_command.specs.InPlace.{IsRefused};
ghost use Rattle.normalizer_command.specs.Outcomes.{state};
ghost use Rattle.normalizer_command.specs.Runs.{IsRun, IsRunInPlace};

use crate::command::Command;
use crate::data::{DataFault, worker_at};
use crate::devices::{Inputs, Reports};
use crate::message::Message;
use normalizer_io::{Replacer, Target};
use std::alloc::Global;

/// A command over files.
#[derive(Clone, Copy)]
pub struct Run<'a, I> {
    /// What takes memory.
    pub alloc: Global,
    /// What is done with each file.
    pub command: Command,
    /// The path of the data: of a file of prepared data or, if it can't be opened as a file, of a directory of Unicode's
    /// files.
    pub path: &'a str,
    /// The names of the files.
    pub names: &'a [&'a str],
    /// The files.
    pub inputs: &'a I,
}

impl<I: Inputs> Run<'_, I> {
    /// Does the command with each file in turn, and returns the exit status: 0; 1 if a file isn't in the form or has a
    /// line that isn't valid, or ill-formed sequences were replaced; 2 if one failed. If the data fail, that is reported,
    /// and nothing is written.
    pub fn run<W: Target, R: Reports>(&self, writer: &mut W, reports: &mut R) -> u8
        ensures { IsRun (devices (I.files self.now.inputs.now) W.bytes_taken W.refusal) self.now.command
            self.now.path.now (map (λ name. name.now) self.now.names.now)
            (state writer.old (R.reports reports.old) 0) (state writer.new (R.reports reports.new) result) }
    {
        match worker_at(self.alloc, self.inputs, self.path, self.command) {
            Ok(worker) => self.over_files(&worker, writer, reports),
            Err(error) => failed(self.path, error, reports),
        }
    }

    /// Puts what the command writes of each file in turn in its place, unless the file is in the form already, fails or
    /// ends at an ill-formed sequence, and returns the exit status, as `run`.
    pub fn run_in_place<P: Replacer, R: Reports>(&self, replacer: &mut P, reports: &mut R) -> u8
        ensures { IsRunInPlace (I.files self.now.inputs.now) P.replaced (IsRefused P.refused P.New.refusal) self.now.command
            self.now.path.now (map (λ name. name.now) self.now.names.now)
            (state replacer.old (R.reports reports.old) 0) (state replacer.new (R.reports reports.new) result) }
    {
        match worker_at(self.alloc, self.inputs, self.path, self.command) {
            Ok(worker) => self.over_files_in_place(&worker, replacer, reports),
            Err(error) => failed(self.path, error, reports),
        }
    }
}

/// Reports why the data of a path failed, and returns the exit status.
pub(crate) fn failed<R: Reports>(path: &str, error: DataFault, reports: &mut R) -> u8
    ensures told { Tells (R.reports reports.old) (R.reports reports.new) (name_of path.now error.file, error.fault) }
    ensures status { result ≡ 2 }
{
    tell(path, error, reports);
    2
}

/// Reports why the data of a path failed.
fn tell<R: Reports>(path: &str, error: DataFault, reports: &mut R)
    ensures { Tells (R.reports reports.old) (R.reports reports.new) (name_of path.now error.file, error.fault) }
{
    let fault = error.fault;
    match error.file {
        Some(file) => reports.report(Message {
            directory: Some(path),
            name: file.name(),
            fault,
        }),
        None => reports.report(Message {
            directory: None,
            name: path,
            fault,
        }),
    }
}
