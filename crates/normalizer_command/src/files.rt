//! A command over files.
ghost use Rattle.std.specs.Prelude.{◌≡◌, ◌↔◌, IsErrOf, IsTrue, MatchOption, OnOk, map, max};
ghost use Rattle.normalizer_command.specs.Devices.{devices};
ghost use Rattle.normalizer_command.specs.FileReports.{Tells};
ghost use Rattle.normalizer_command.specs.Outcomes.{fault_told, state, status_of, AreDone, MayFail};
ghost use Rattle.normalizer_command.specs.Works.{Does, Work};
ghost use Rattle.normalizer_command.specs.Written.{IsOutcome};

use crate::devices::{Inputs, Reports};
use crate::fault::Fault;
use crate::message::Message;
use crate::reply::Answer;
use crate::run::Run;
use crate::worker::Worker;
use normalizer_io::Target;
use normalizer_streams::Ending;

impl<I: Inputs> Run<'_, I> {
    /// Does a worker's work with each file in turn, up to a failed write, and returns the exit status: the greatest of
    /// those of the files.
    pub(crate) fn over_files<W: Target, R: Reports>(
        &self,
        worker: &Worker,
        writer: &mut W,
        reports: &mut R,
    ) -> u8
        ensures { (w : Work) → Does worker.now w → AreDone (devices (I.files self.now.inputs.now) W.bytes_taken W.refusal)
            w (map (λ name. name.now) self.now.names.now)
            (state writer.old (R.reports reports.old) 0) (state writer.new (R.reports reports.new) result) }
    {
        let mut status = 0;
        for name in self.names {
            let outcome = self.over_file(worker, name, writer);
            tell(reports, name, outcome);
            status = greater(status, status_of(outcome));
            if is_refused_write(outcome) {
                return status;
            }
        }
        status
    }

    /// Reads one file, and writes the reply to it.
    fn over_file<W: Target>(
        &self,
        worker: &Worker,
        name: &str,
        writer: &mut W,
    ) -> Result<Answer, Fault>
        ensures opened { OnOk result ((I.files self.now.inputs.now).can_open name.now) }
        ensures is { (w : Work) → Does worker.now w → IsOutcome w name.now
            ((I.files self.now.inputs.now).bytes_of name.now) (W.bytes_taken writer.old) (W.bytes_taken writer.new)
            (MayFail (devices (I.files self.now.inputs.now) W.bytes_taken W.refusal) name.now writer.old writer.new)
            (writer.new ≡ writer.old) result }
    {
        let mut input = self.inputs.open(name)?;
        worker.handle(self.alloc, name, &mut input, writer)
    }
}

/// Reports why a file failed, if it did, and what was ill-formed in it.
pub(crate) fn tell<R: Reports>(reports: &mut R, name: &str, outcome: Result<Answer, Fault>)
    ensures { MatchOption (fault_told outcome) (R.reports reports.new ≡ R.reports reports.old)
        (λ fault. Tells (R.reports reports.old) (R.reports reports.new) (name.now, fault)) }
{
    if let Some(fault) = fault_told(outcome) {
        reports.report(Message {
            directory: None,
            name,
            fault,
        });
    }
}

/// What is reported of a file.
fn fault_told(outcome: Result<Answer, Fault>) -> Option<Fault>
    ensures { result ≡ fault_told outcome }
{
    match outcome {
        Ok(Answer::Done | Answer::No | Answer::Ended(Ending::Whole(0))) => None,
        Ok(Answer::Ended(Ending::Whole(count))) => Some(Fault::Replaced(count)),
        Ok(Answer::Ended(Ending::Stopped(at))) => Some(Fault::IllFormed(at)),
        Err(fault) => Some(fault),
    }
}

fn is_refused_write(outcome: Result<Answer, Fault>) -> bool
    ensures { IsTrue result ↔ IsErrOf outcome Fault.Write }
{
    matches!(&outcome, Err(Fault::Write))
}

/// The exit status after a file.
pub(crate) fn status_of(outcome: Result<Answer, Fault>) -> u8
    ensures { result ≡ status_of outcome }
{
    match outcome {
        Ok(Answer::Done | Answer::Ended(Ending::Whole(0))) => 0,
        Ok(Answer::No | Answer::Ended(Ending::Whole(_))) => 1,
        Ok(Answer::Ended(Ending::Stopped(_))) | Err(_) => 2,
    }
}

/// The greater of two.
pub(crate) fn greater(a: u8, b: u8) -> u8
    ensures { result ≡ max a b }
{
    if a < b { b } else { a }
}
