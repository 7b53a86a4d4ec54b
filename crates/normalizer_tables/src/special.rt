//! The nine characters whose fixed list no word spells.
ghost use Rattle.std.specs.Prelude.{◌≡◌};
ghost use Rattle.normalizer_tables.specs.SpecialLists.{FixedList as Fixed, fixed_list_of, fixed_list_with};

use crate::members::Members;
use std::marker::Model;

/// A fixed list, the class of its character, and the classes of its members.
#[derive(Drop)]
pub struct FixedList {
    list: &'static [char],
    class: u8,
    member_classes: &'static [u8],
}

impl Model for FixedList {
    ghost Value = { Fixed };

    ghost view = { λ f. record { list = f.list.now; class = f.class; member_classes = f.member_classes.now } };
}

impl FixedList {
    /// Returns the members of the list.
    pub fn members(&self) -> Members<'static>
        ensures { result ≡ self.now.list }
    {
        Members::of_scalars(self.list)
    }

    /// Returns the list as a slice.
    pub fn list(&self) -> &'static [char]
        ensures { result.now ≡ self.now.list }
    {
        self.list
    }

    /// Returns the canonical combining class of the character.
    pub fn class(&self) -> u8
        ensures { result ≡ self.now.class }
    {
        self.class
    }

    /// Returns the canonical combining classes of the members.
    pub fn member_classes(&self) -> &'static [u8]
        ensures { result.now ≡ self.now.member_classes }
    {
        self.member_classes
    }
}

/// Returns the fixed list of a character, if it is one of the nine.
#[tactic(auto, unfolding(crate::specs::SpecialLists::fixed_list_of))]
pub fn fixed_list_of(character: char) -> Option<FixedList>
    ensures { result ≡ fixed_list_of character }
{
    let (list, class, member_classes): (&[char], u8, &[u8]) = match character {
        '\u{340}' => (&['\u{300}'], 230, &[230]),
        '\u{341}' => (&['\u{301}'], 230, &[230]),
        '\u{343}' => (&['\u{313}'], 230, &[230]),
        '\u{344}' => (&['\u{308}', '\u{301}'], 230, &[230, 230]),
        '\u{F73}' => (&['\u{F71}', '\u{F72}'], 0, &[129, 130]),
        '\u{F75}' => (&['\u{F71}', '\u{F74}'], 0, &[129, 132]),
        '\u{F81}' => (&['\u{F71}', '\u{F80}'], 0, &[129, 130]),
        '\u{FF9E}' => (&['\u{3099}'], 0, &[8]),
        '\u{FF9F}' => (&['\u{309A}'], 0, &[8]),
        _ => return None,
    };
    Some(FixedList {
        list,
        class,
        member_classes,
    })
}
