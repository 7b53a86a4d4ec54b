//! A command over files in place.
ghost use Rattle.std.specs.Prelude.{◌≡◌, IfErr, IfOk, OnErr, OnOk, map};
ghost use Rattle.std.specs.declared.io.ErrorKind.{ErrorKind};
ghost use Rattle.normalizer_command.specs.InPlace.{fault_in_place, is_whole, AreDoneInPlace, IsAnsweredInPlace};
ghost use Rattle.normalizer_command.specs.InPlace.{IsRefused, MayFailInPlace};
ghost use Rattle.normalizer_command.specs.Outcomes.{state};
ghost use Rattle.normalizer_command.specs.Works.{Does, Work};

use crate::devices::{Inputs, Reports};
use crate::fault::Fault;
use crate::files::{greater, status_of, tell};
use crate::reply::Answer;
use crate::run::Run;
use crate::worker::Worker;
use normalizer_io::{Replacer, replace};
use normalizer_streams::Ending;

impl<I: Inputs> Run<'_, I> {
    /// Does a worker's work with each file in turn, in place, and returns the exit status: the greatest of those of the
    /// files.
    pub(crate) fn over_files_in_place<P: Replacer, R: Reports>(
        &self,
        worker: &Worker,
        replacer: &mut P,
        reports: &mut R,
    ) -> u8
        ensures { (w : Work) → Does worker.now w → AreDoneInPlace (I.files self.now.inputs.now) P.replaced
            (IsRefused P.refused P.New.refusal) w (map (λ name. name.now) self.now.names.now)
            (state replacer.old (R.reports reports.old) 0) (state replacer.new (R.reports reports.new) result) }
    {
        let mut status = 0;
        for name in self.names {
            let outcome = self.in_place(worker, name, replacer);
            tell(reports, name, outcome);
            status = greater(status, status_of(outcome));
        }
        status
    }

    /// Reads a file, and if it isn't in the form, reads it again and writes the reply to a new file, which takes its
    /// place once it is whole.
    fn in_place<P: Replacer>(
        &self,
        worker: &Worker,
        name: &str,
        replacer: &mut P,
    ) -> Result<Answer, Fault>
        ensures opened { OnOk result ((I.files self.now.inputs.now).can_open name.now) }
        ensures done { (w : Work) → Does worker.now w → IfOk result (IsAnsweredInPlace w name.now
            ((I.files self.now.inputs.now).bytes_of name.now) (P.replaced replacer.old) (P.replaced replacer.new)) }
        ensures kept { OnErr result (P.replaced replacer.new ≡ P.replaced replacer.old) }
        ensures why { (w : Work) → Does worker.now w → IfErr result
            (MayFailInPlace (I.files self.now.inputs.now) (IsRefused P.refused P.New.refusal) name.now) }
    {
        let mut input = self.inputs.open(name)?;
        if worker.is_in_form(self.alloc, name, &mut input)? {
            return Ok(Answer::Done);
        }
        let mut input = self.inputs.open(name)?;
        let mut file = match replacer.create(name) {
            Ok(file) => file,
            Err(kind) => return Err(Fault::InPlace(kind)),
        };
        let answer = match worker.handle(self.alloc, name, &mut input, &mut file) {
            Ok(answer) => answer,
            Err(fault) => return Err(given_up(replacer, &file, fault)),
        };
        if !is_whole(answer) {
            replacer.remove(&file);
            return Ok(answer);
        }
        match replace(replacer, file, name) {
            Ok(()) => Ok(answer),
            Err(kind) => Err(Fault::InPlace(kind)),
        }
    }
}

/// Removes a new file that isn't whole, and returns why.
fn given_up<P: Replacer>(replacer: &mut P, file: &P::New, fault: Fault) -> Fault
    ensures kept { P.replaced replacer.new ≡ P.replaced replacer.old }
    ensures why { (kind : ErrorKind) × (result ≡ fault_in_place kind fault) }
{
    let kind = replacer.why(file);
    replacer.remove(file);
    match fault {
        Fault::Write => Fault::InPlace(kind),
        other => other,
    }
}

/// Whether all of the text was written.
fn is_whole(answer: Answer) -> bool
    ensures { result ≡ is_whole answer }
{
    matches!(answer, Answer::Ended(Ending::Whole(_)))
}
