//! Questions about inputs.
ghost use Rattle.std.specs.Prelude.{◌≡◌, ℕ, List};
ghost use Rattle.icu_normalizer.specs.Checks.{AnswersOf};
ghost use Rattle.icu_normalizer.specs.Forms.{MadeForm};
ghost use Rattle.icu_normalizer_c.specs.Buffers.{Reports};
ghost use Rattle.icu_normalizer_c.specs.Calls.{AtForm, Over};
ghost use Rattle.normalizer_handles.specs.Handles.{held_normalizers};
ghost use Rattle.normalizer_handles.specs.Status.{IsStatus};
ghost use Rattle.icu_normalizer.specs.AnyNormalizers.{made_by_borrowed};

use icu_normalizer::{AnyNormalizerBorrowed, NormalizeError};
use normalizer_handles::{Fault, Handle, Normalizers, status};
use std::alloc::Global;

/// A question about an input at a form.
pub(crate) trait Question {
    type Answer: Copy;

    /// What the input decodes to.
    ghost text: { Self → List ℕ };

    /// Which results are right.
    ghost is: { Self → MadeForm → Self.Answer → Type 0 };

    fn ask(&self, normalizer: &AnyNormalizerBorrowed<'_>) -> Result<Self::Answer, NormalizeError>
        ensures { AnswersOf (made_by_borrowed normalizer.now) (text self.now)
            (is self.now (made_by_borrowed normalizer.now)) result };
}

/// Reports the result of a question at a form of the normalizers of a handle, and returns the status.
pub(crate) fn report<Q: Question>(
    alloc: Global,
    handle: &mut Handle,
    form: u32,
    question: &Q,
    reported: &mut Q::Answer,
) -> u32
    ensures status { IsStatus result (Over (held_normalizers handle.old) form (reported.new ≡ reported.old) (λ m.
        Reports m (Q.text question.now) (Q.is question.now m) reported.old reported.new)) }
    ensures kept { held_normalizers handle.new ≡ held_normalizers handle.old }
{
    status(report_over(alloc, handle, form, question, reported))
}

fn report_over<Q: Question>(
    alloc: Global,
    handle: &mut Handle,
    form: u32,
    question: &Q,
    reported: &mut Q::Answer,
) -> Result<(), Fault>
    ensures over { Over (held_normalizers handle.old) form (reported.new ≡ reported.old) (λ m.
        Reports m (Q.text question.now) (Q.is question.now m) reported.old reported.new) result }
    ensures kept { held_normalizers handle.new ≡ held_normalizers handle.old }
{
    let owner = handle.take(alloc)?;
    let outcome = report_at(&owner.normalizers, form, question, reported);
    handle.put(owner);
    outcome
}

fn report_at<Q: Question>(
    normalizers: &Normalizers,
    form: u32,
    question: &Q,
    reported: &mut Q::Answer,
) -> Result<(), Fault>
    ensures { AtForm normalizers.now form (reported.new ≡ reported.old) (λ m.
        Reports m (Q.text question.now) (Q.is question.now m) reported.old reported.new) result }
{
    let normalizer = normalizers.numbered(form)?;
    report_by(&normalizer, question, reported)
}

fn report_by<Q: Question>(
    normalizer: &AnyNormalizerBorrowed<'_>,
    question: &Q,
    reported: &mut Q::Answer,
) -> Result<(), Fault>
    ensures { Reports (made_by_borrowed normalizer.now) (Q.text question.now)
        (Q.is question.now (made_by_borrowed normalizer.now)) reported.old reported.new result }
{
    *reported = question.ask(normalizer)?;
    Ok(())
}
