//! Lists of one, two or three characters, which are held in registers.
#![tactic(auto, unfolding(crate::specs::ShortLists::text_of))]

ghost use Rattle.std.specs.Prelude.{◌≡◌, ◌∷◌, [], ◌<◌, IfSome, Some, slice_get};
ghost use Rattle.normalizer_tables.specs.Characters.{as_text};
ghost use Rattle.normalizer_tables.specs.ShortLists.{text_of};

/// A list of one, two or three characters.
#[derive(Clone, Copy, Debug, PartialEq, Eq)]
pub enum ShortList {
    /// One character.
    One(char),
    /// Two characters.
    Two(char, char),
    /// Three characters.
    Three(char, char, char),
}

impl ShortList {
    /// The list of the character of this number, if it is that of one.
    #[tactic(auto, unfolding(crate::specs::ShortLists::text_of, crate::specs::Characters::as_text))]
    #[inline(always)]
    pub(crate) fn of_one(number: u32) -> Option<Self>
        ensures { IfSome result (λ list. as_text (number ∷ []) ≡ Some (text_of list)) }
    {
        Some(ShortList::One(char::from_u32(number)?))
    }

    /// The list of the two characters of these numbers.
    #[inline(always)]
    pub(crate) fn of_two(first: u32, second: u32) -> Self
        requires first { first < 0xD800 }
        requires second { second < 0xD800 }
        ensures { text_of result ≡ first ∷ second ∷ [] }
    {
        ShortList::Two(low_character(first), low_character(second))
    }

    /// The list of the three characters of these numbers.
    #[inline(always)]
    pub(crate) fn of_three(first: u32, second: u32, third: u32) -> Self
        requires first { first < 0xD800 }
        requires second { second < 0xD800 }
        requires third { third < 0xD800 }
        ensures { text_of result ≡ first ∷ second ∷ third ∷ [] }
    {
        ShortList::Three(
            low_character(first),
            low_character(second),
            low_character(third),
        )
    }

    /// Returns the first character.
    #[inline(always)]
    pub fn first(self) -> char
        ensures { slice_get (text_of self) 0 ≡ Some result }
    {
        match self {
            ShortList::One(first) | ShortList::Two(first, _) | ShortList::Three(first, _, _) => {
                first
            }
        }
    }
}

/// The character of a number below the surrogates.
#[tactic(auto, using(crate::proofs::syllables::HangulLemmas::below_surrogates))]
#[inline(always)]
fn low_character(number: u32) -> char
    requires { number < 0xD800 }
    ensures { result ≡ number }
{
    // A number below the surrogates is that of a character.
    unsafe { char::from_u32_unchecked(number) }
}
