//! Units that only clauses read.
ghost use Rattle.std.specs.Prelude.{◌≡◌, List, ◌++◌};
ghost use Rattle.std.specs.Borrow.{ftrue};

use std::marker::{Model, PhantomData};

/// Units that only clauses read. At run time there are none.
#[derive(Drop)]
pub(crate) struct History<T> {
    of: PhantomData<T>,
    pub ghost units: { List T },
}

impl<T> Model for History<T> {
    ghost also_owns = { λ _. ftrue };
}

impl<T> History<T> {
    /// Returns these units.
    pub(crate) fn of(_units: &[T]) -> History<T>
        ensures { result.units ≡ _units.now }
    {
        History { of: PhantomData }
    }

    /// Returns the units followed by others.
    pub(crate) fn and(&self, _units: &[T]) -> History<T>
        ensures { result.units ≡ self.now.units ++ _units.now }
    {
        History { of: PhantomData }
    }
}
