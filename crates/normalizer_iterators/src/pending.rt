//! Characters that were read from a delegate, with their words.
ghost use Rattle.std.specs.Prelude.{◌≡◌, ◌↔◌, ◌∷◌, [], ℕ, List, false, IfSome, IsTrue};
ghost use Rattle.std.specs.Iterator.{IsFinite};
ghost use Rattle.normal_forms.specs.ShortRuns.{continues};
ghost use Rattle.normalizer_tables.specs.Characters.{Characters, class_of, has_class_form, list_of, word_of};
ghost use Rattle.normalizer_tables.specs.ShortLists.{text_of};
ghost use Rattle.normalizer_tables.specs.Ignored.{ignored_list};
ghost use Rattle.normalizer_tables.specs.Readings.{reading_by};
ghost use Rattle.normalizer_tables.specs.Passthrough.{IsPassthrough};
ghost use Rattle.normalizer_iterators.specs.Delegate.{HasRead, IsReadyAfter};
ghost use Rattle.normalizer_iterators.specs.Reads.{character_of, HasNoFlag, HasOwnWord, HasOwnWords};

use normalizer_tables::characters::{CharacterData, IgnoredCharacters};
use normalizer_tables::members::Members;
use normalizer_tables::short_list::ShortList;
use normalizer_tables::word::{
    HANGUL_WORD, is_backward_combining, is_class_form, is_non_round_trip, is_special_class_form,
};

/// The bits of a word that are all 0 if the character is its own list, a starter.
const PLAIN: u32 = 0x3FFF_FFFF;

/// The bits of a word that are all 0 if its list is neither two characters nor in a table.
const HIGH: u32 = 0x3FFF_0000;

/// The bits of a word that are all 0 if its list is in a table and as short as one can be there.
const LOW: u32 = 0xFFFF;

/// In place of the word of a character that is passthrough: it is plain, as that of such a character.
const PASSTHROUGH: u32 = 0xC000_0000;

/// In place of any other word that wasn't looked up.
const NOT_LOOKED_UP: u32 = 0xFFFF_FFFF;

/// A character that was read, with its word. A word that is in place of another is looked up when it is needed.
#[derive(Clone, Copy)]
pub(crate) struct PendingChar {
    pub(crate) character: char,
    word: u32,
}

impl PendingChar {
    /// A character that was read. Its word is looked up from this number on, unless it is passthrough.
    #[inline(always)]
    pub(crate) fn new(characters: &CharacterData<'_>, bound: u32, character: char) -> Self
        ensures character { result.character ≡ character }
        ensures word { HasOwnWord characters.now result }
    {
        let word = if characters.is_passthrough(character) {
            PASSTHROUGH
        } else if (character as u32) < bound {
            NOT_LOOKED_UP
        } else {
            characters.word_of(character)
        };
        PendingChar { character, word }
    }

    /// The word of the character. It is looked up if it wasn't before.
    #[inline(always)]
    pub(crate) fn word_by(self, characters: &CharacterData<'_>) -> u32
        requires { HasOwnWord characters.now self }
        ensures { result ≡ word_of characters.now self.character }
    {
        if self.word == PASSTHROUGH || self.word == NOT_LOOKED_UP {
            characters.word_of(self.character)
        } else {
            self.word
        }
    }

    /// Whether its word says, or it is known unseen, that the character is its own list, a starter without class form.
    #[inline(always)]
    pub(crate) fn is_plain(self) -> bool
        ensures { (s : Characters) → HasOwnWord s self → IsTrue result → IsPassthrough s self.character }
    {
        self.word & PLAIN == 0
    }

    /// Whether its word was looked up and has neither flag: the words in place of others have both.
    #[inline(always)]
    pub(crate) fn has_no_flag(self) -> bool
        ensures { (s : Characters) → HasOwnWord s self → IsTrue result → HasNoFlag s self.character }
    {
        !is_non_round_trip(self.word) && !is_backward_combining(self.word)
    }

    /// Whether a boundary precedes the character: it has no class form, and its list has members.
    #[tactic(auto, unfolding(normalizer_tables::specs::Characters::has_class_form))]
    #[inline(always)]
    pub(crate) fn has_boundary_before(
        self,
        characters: &CharacterData<'_>,
        ignored: IgnoredCharacters,
    ) -> bool
        requires { HasOwnWord characters.now self }
        ensures { IsTrue result ↔ (continues (has_class_form characters.now)
            (reading_by characters.now ignored []) self.character ≡ false) }
    {
        if self.is_plain() {
            return true;
        }
        let word = self.word_by(characters);
        !is_class_form(word) && characters.has_members(self.character, word, ignored)
    }

    /// The class of the character if it is its own list.
    #[inline(always)]
    pub(crate) fn class_of_itself(self, characters: &CharacterData<'_>) -> Option<u8>
        requires { HasOwnWord characters.now self }
        ensures itself { (ignored : List ℕ) →
            IfSome result (λ _. list_of characters.now ignored self.character ≡ self.character ∷ []) }
        ensures class { IfSome result (λ class. class ≡ class_of characters.now self.character) }
    {
        if self.is_plain() {
            return Some(0);
        }
        characters.class_of_itself(self.character, self.word_by(characters))
    }

    /// The member of the list of the character, if it is seen to have one. `None` says nothing.
    #[tactic(auto, unfolding(normalizer_tables::specs::ShortLists::text_of))]
    #[inline(always)]
    pub(crate) fn one_member(
        self,
        characters: &CharacterData<'_>,
        ignored: IgnoredCharacters,
    ) -> Option<char>
        requires { HasOwnWord characters.now self }
        ensures { IfSome result (λ member.
            list_of characters.now (ignored_list ignored) self.character ≡ member ∷ []) }
    {
        if self.is_plain() {
            return Some(self.character);
        }
        if self.word & HIGH != 0 {
            return None;
        }
        if is_special_class_form(self.word) {
            return one_of(&self.members(characters, ignored));
        }
        match characters.short_list(self.character, self.word_by(characters)) {
            Some(ShortList::One(member)) => Some(member),
            _ => None,
        }
    }

    /// Whether its word says that its list is in a table, and has one or two members, or is that of a Hangul syllable. It
    /// says nothing of other lists.
    #[inline(always)]
    pub(crate) fn has_short_list(self) -> bool {
        self.word == HANGUL_WORD || self.word & LOW == 0 && self.word & HIGH != 0
    }

    /// The list of the character, if it is held in registers. `None` says nothing.
    #[inline(always)]
    pub(crate) fn short_list(self, characters: &CharacterData<'_>) -> Option<ShortList>
        requires { HasOwnWord characters.now self }
        ensures { (ignored : List ℕ) →
            IfSome result (λ list. list_of characters.now ignored self.character ≡ text_of list) }
    {
        if self.is_plain() {
            return None;
        }
        characters.short_list(self.character, self.word_by(characters))
    }

    /// The list of the character.
    #[inline(always)]
    pub(crate) fn members<'a>(
        self,
        characters: &CharacterData<'a>,
        ignored: IgnoredCharacters,
    ) -> Members<'a>
        requires { HasOwnWord characters.now self }
        ensures { result ≡ list_of characters.now (ignored_list ignored) self.character }
    {
        if self.is_plain() {
            return Members::one(self.character);
        }
        characters.members_by(self.character, self.word_by(characters), ignored)
    }
}

/// The member of a list, if there is one.
#[inline(always)]
fn one_of(members: &Members<'_>) -> Option<char>
    ensures { IfSome result (λ member. members.now ≡ member ∷ []) }
{
    if members.len() == 1 {
        Some(members.at(0))
    } else {
        None
    }
}

/// Reads a character from a delegate. Its word is looked up from this number on, unless it is passthrough.
#[inline(always)]
pub(crate) fn read_from<I: Iterator<Item = char> + Drop>(
    characters: &CharacterData<'_>,
    bound: u32,
    delegate: &mut I,
) -> Option<PendingChar>
    requires can { I.can_next delegate.old }
    requires ends { IsFinite (I.remaining delegate.old) }
    ensures read { HasRead I.next_gives I.remaining delegate.old (character_of result) delegate.new }
    ensures ready { IsReadyAfter I.can_next I.remaining (character_of result) delegate.new }
    ensures word { HasOwnWords characters.now result }
{
    Some(PendingChar::new(characters, bound, delegate.next()?))
}
