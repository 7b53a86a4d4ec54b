//! The result of one step of decoding.
ghost use Rattle.std.specs.Prelude.{◌≡◌};

/// One step of decoding: the units of one character, or ill-formed units that read as U+FFFD.
#[derive(Clone, Copy, PartialEq, Eq, Debug)]
pub struct Step {
    // The widest field comes first: unused bytes between the others would be copied one by one, at a great cost.
    /// How many units it takes.
    pub width: usize,
    /// The character, U+FFFD for ill-formed units.
    pub character: char,
    /// Whether the units were ill-formed.
    pub is_error: bool,
}

impl Step {
    ghost use Rattle.normalizer_text.specs.DecodingSteps.{read, replacement_step};

    /// The step of a character that takes this many units.
    #[inline(always)]
    pub(crate) fn read(character: char, width: usize) -> Step
        ensures { result ≡ read character width }
    {
        Step {
            character,
            width,
            is_error: false,
        }
    }

    /// The step of U+FFFD for this many ill-formed units.
    #[inline(always)]
    pub(crate) fn replaced(width: usize) -> Step
        ensures { result ≡ replacement_step width }
    {
        Step {
            character: '\u{FFFD}',
            width,
            is_error: true,
        }
    }
}
