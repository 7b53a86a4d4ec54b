//! Normalizers that several handles share.
ghost use Rattle.std.specs.Prelude.{◌≡◌, IfOk};
ghost use Rattle.std.specs.Arc.{arc_value};

use crate::normalizers::Normalizers;
use std::alloc::{AllocError, Global};
use std::sync::Arc;

/// A share in normalizers. The last of its shares that is dropped frees them.
#[derive(Drop)]
pub struct Owner {
    /// The normalizers.
    pub normalizers: Arc<Normalizers>,
}

impl Owner {
    /// Returns the only share in normalizers.
    pub(crate) fn of(alloc: Global, normalizers: Normalizers) -> Result<Box<Owner>, AllocError>
        ensures { IfOk result (λ owner. arc_value owner.value.normalizers ≡ normalizers) }
    {
        let normalizers = Arc::new(alloc, normalizers)?;
        Ok(Box::new(alloc, Owner { normalizers })?)
    }

    /// Returns another share in the same normalizers.
    pub(crate) fn another(&self, alloc: Global) -> Result<Box<Owner>, AllocError>
        ensures { IfOk result (λ owner. arc_value owner.value.normalizers ≡ arc_value self.now.normalizers) }
    {
        let normalizers = Arc::try_clone(&self.normalizers)?;
        Ok(Box::new(alloc, Owner { normalizers })?)
    }
}
