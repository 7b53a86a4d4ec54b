//! The first record at fault, if records are refused.
ghost use Rattle.std.specs.Prelude.{◌≡◌, ◌≢◌, IfOk};
ghost use Rattle.std.specs.Fn.{FnReturnsAt};
ghost use Rattle.normalizer_records.specs.declared.records.BuildError.TheVariants.{Memory};
ghost use Rattle.normalizer_records.specs.AtFault.{IsFirstFound, character_of, first_of};

use crate::records::BuildError;
use normalizer_tables::places::HasCharacter;
use std::alloc::AllocError;

/// A record at fault, by its character.
#[derive(Clone, Copy, PartialEq, Eq, Debug)]
pub enum RecordAtFault {
    /// A record of the character.
    OfCharacter(char),
    /// The mapper's record of the character.
    OfMapper(char),
}

impl RecordAtFault {
    /// Returns the character of the record.
    pub fn character(self) -> char
        ensures { result ≡ character_of self }
    {
        match self {
            RecordAtFault::OfCharacter(c) | RecordAtFault::OfMapper(c) => c,
        }
    }
}

/// Why records are refused.
#[derive(Clone, Copy, PartialEq, Eq, Debug)]
pub struct Refusal {
    /// The first fault.
    pub error: BuildError,
    /// The first record that shows it. There is none if an allocation failed.
    pub at_fault: Option<RecordAtFault>,
}

impl Refusal {
    /// Returns the record at fault.
    ///
    /// # Errors
    /// [`AllocError`] if an allocation failed.
    pub fn record(self) -> Result<Option<RecordAtFault>, AllocError>
        ensures { IfOk result (λ o. (self.error ≢ Memory) × (o ≡ self.at_fault)) }
    {
        match self.error {
            BuildError::Memory => Err(AllocError),
            _ => Ok(self.at_fault),
        }
    }
}

impl From<AllocError> for Refusal {
    ghost use Rattle.std.specs.Prelude.{None};

    ghost from_gives = { λ _ refusal. refusal ≡ record { error = Memory; at_fault = None } };

    fn from(_error: AllocError) -> Refusal {
        Refusal {
            error: BuildError::Memory,
            at_fault: None,
        }
    }
}

impl From<Refusal> for BuildError {
    ghost from_gives = { λ refusal error. error ≡ refusal.error };

    fn from(refusal: Refusal) -> BuildError {
        refusal.error
    }
}

/// The first record at fault: the mapper's come after the others.
#[tactic(auto, unfolding(crate::specs::AtFault::first_of))]
pub(crate) fn first_of(character: Option<char>, mapped: Option<char>) -> Option<RecordAtFault>
    ensures { result ≡ first_of character mapped }
{
    match character {
        Some(c) => Some(RecordAtFault::OfCharacter(c)),
        None => mapped.map(|c| RecordAtFault::OfMapper(c)),
    }
}

/// Returns the character of the first item that passes a test.
pub fn first_with<T: HasCharacter, F: Fn(&T) -> bool>(items: &[T], test: F) -> Option<char>
    requires { F.IsAlwaysCallable test }
    ensures { IsFirstFound T.character (FnReturnsAt F.Fn test) items.now result }
{
    for item in items {
        if test(item) {
            return Some(item.character());
        }
    }
    None
}
