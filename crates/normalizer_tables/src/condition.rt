//! The written conditions on all that is loaded: decomposition data, pairs and the supplement.
ghost use Rattle.std.specs.Prelude.{◌≡◌, false, true};
ghost use Rattle.normalizer_tables.specs.conditions.Conditions.{
  composing_conditions,
  decomposing_conditions,
  number_of,
};
ghost use Rattle.normalizer_tables.specs.conditions.Loaded.{bounds_of_cap};

/// The most items that all tables may have together.
pub const ITEM_LIMIT: usize = 0x1FFF;

/// The greatest cap.
pub const CAP_LIMIT: u16 = 0x0300;

/// A written condition. The part of one that concerns classes alone, or pairs alone, is a variant of its own with the
/// same number.
#[derive(Clone, Copy, PartialEq, Eq, Debug)]
pub enum Condition {
    /// The tables together hold at most 0x1FFF items.
    ItemLimit,
    /// `passthrough_cap` is at most U+0300.
    CapLimit,
    /// U+FFFD reads to itself with class 0, and has NON_ROUND_TRIP alone.
    ReplacementCharacter,
    /// Every surrogate has the word 0xC000FFFD.
    Surrogates,
    /// The word of numbers past the code points has no class form.
    PastTheEnd,
    /// Hangul syllables have the word 1, and the jamo of which they are made read as themselves with class 0.
    Hangul,
    /// The word of every character reads, with a class of 1 to 254 in ordinary class forms; only the nine have the
    /// special form; class forms have BACKWARD_COMBINING; only mapper data have the ignored marker.
    Words,
    /// Every member of a list reads to itself.
    Members,
    /// Lists are in canonical order, begin with a starter, and keep the promises of their words.
    Order,
    /// A character below the bound of decomposing reads to itself with class 0.
    Passthrough,
    /// Pairs strictly rise by second, then first; no second lies in U+1161 to U+11FF; no first and no result has a
    /// class form or is ignored.
    Pairs,
    /// The list of a character without NON_ROUND_TRIP, or below the bound of composing, composes to that character
    /// alone.
    RoundTrip,
    /// The list of a character without BACKWARD_COMBINING, or below the bound of composing, begins with a starter that
    /// is second in no pair.
    SafeBeginning,
    /// The list of each pair's result is the ordered lists of first and second.
    Results,
    /// No word outside the Hangul syllables has the form of U+FDFA, that of no surrogate and no number past the code
    /// points either.
    FdfaForms,
    /// Except for Hangul syllables, a character has a step. It is `Default` if the list is the character alone,
    /// and otherwise the list is the ordered lists of its parts.
    Steps,
    /// The part of `Surrogates` for classes alone: the word of no surrogate has a class form.
    SurrogateClasses,
    /// The part of `Words` for classes alone: ordinary classes are 1 to 254, and only the nine characters with a fixed
    /// list have the special form, with their classes.
    WordClasses,
    /// The part of `Pairs` for pairs alone: they strictly rise, and no second lies in U+1161 to U+11FF.
    PairOrder,
}

/// The numbers below which no word is looked up: by a loop that decomposes, and by one that composes.
#[derive(Clone, Copy, PartialEq, Eq, Debug)]
pub struct Bounds {
    /// The bound of decomposing.
    pub decomposition: u32,
    /// The bound of composing.
    pub composition: u32,
}

/// The greatest bounds: no character below U+00C0 has a canonical mapping, and none below U+0300 a combining class.
pub const GREATEST_BOUNDS: Bounds = Bounds {
    decomposition: 0xC0,
    composition: CAP_LIMIT as u32,
};

impl Bounds {
    /// Returns the bounds of data with this cap.
    pub fn of_cap(cap: u16) -> Self
        ensures { result ≡ bounds_of_cap cap }
    {
        let cap = u32::from(cap);
        Bounds {
            decomposition: cap.min(GREATEST_BOUNDS.decomposition),
            composition: cap.min(GREATEST_BOUNDS.composition),
        }
    }
}

/// All that is required of canonical data, pairs and supplement, in the order of the numbers.
pub const EVERY: [Condition; 16] = [
    Condition::ItemLimit,
    Condition::CapLimit,
    Condition::ReplacementCharacter,
    Condition::Surrogates,
    Condition::PastTheEnd,
    Condition::Hangul,
    Condition::Words,
    Condition::Members,
    Condition::Order,
    Condition::Passthrough,
    Condition::Pairs,
    Condition::RoundTrip,
    Condition::SafeBeginning,
    Condition::Results,
    Condition::FdfaForms,
    Condition::Steps,
];

/// Returns what is required of data for decomposing.
pub fn decomposing_conditions() -> &'static [Condition]
    ensures { result.now ≡ decomposing_conditions }
{
    &EVERY[..10]
}

/// Returns what is required of data and pairs for composing.
pub fn composing_conditions() -> &'static [Condition]
    ensures { result.now ≡ composing_conditions false }
{
    &EVERY[..14]
}

/// Returns what is required of the mapper's data and pairs.
pub fn mapping_conditions() -> &'static [Condition]
    ensures { result.now ≡ composing_conditions true }
{
    &EVERY[..13]
}

/// What is required of canonical data that a caller passes in: nothing of their cap.
pub const NFD_DATA: [Condition; 9] = [
    Condition::ItemLimit,
    Condition::ReplacementCharacter,
    Condition::Surrogates,
    Condition::PastTheEnd,
    Condition::Hangul,
    Condition::Words,
    Condition::Members,
    Condition::Order,
    Condition::Passthrough,
];

/// What is required of data and supplement for single decomposition steps.
pub const STEPPING: [Condition; 8] = [
    Condition::ItemLimit,
    Condition::PastTheEnd,
    Condition::Hangul,
    Condition::Words,
    Condition::Members,
    Condition::Order,
    Condition::FdfaForms,
    Condition::Steps,
];

/// What is required of data of which only classes are read: parts of 4, 5 and 7.
pub const CLASSES: [Condition; 3] = [
    Condition::SurrogateClasses,
    Condition::PastTheEnd,
    Condition::WordClasses,
];

impl Condition {
    /// Returns the number of the condition, by which conditions are ordered.
    pub fn number(self) -> u8
        ensures { result ≡ number_of self }
    {
        match self {
            Condition::ItemLimit => 1,
            Condition::CapLimit => 2,
            Condition::ReplacementCharacter => 3,
            Condition::Surrogates | Condition::SurrogateClasses => 4,
            Condition::PastTheEnd => 5,
            Condition::Hangul => 6,
            Condition::Words | Condition::WordClasses => 7,
            Condition::Members => 8,
            Condition::Order => 9,
            Condition::Passthrough => 10,
            Condition::Pairs | Condition::PairOrder => 11,
            Condition::RoundTrip => 12,
            Condition::SafeBeginning => 13,
            Condition::Results => 14,
            Condition::FdfaForms => 15,
            Condition::Steps => 16,
        }
    }
}
