//! A character with its word and reading, which are looked up once.
ghost use Rattle.std.specs.Prelude.{◌≡◌};
ghost use Rattle.normalizer_tables.specs.Characters.{word_of};
ghost use Rattle.normalizer_tables.specs.Read.{IsRead};

use crate::characters::{CharacterData, IgnoredCharacters};
use crate::members::Members;
use crate::word::WordReading;

/// A character with its word, how the word reads, and its list.
#[derive(Drop)]
pub struct ReadCharacter<'a> {
    /// The character.
    pub character: char,
    /// Its word.
    pub word: u32,
    /// What the word says.
    pub reading: WordReading,
    /// Whether the word reads.
    pub reads: bool,
    /// The list: the character itself if its word doesn't read.
    pub list: Members<'a>,
}

/// Returns a character with its reading.
pub fn read_character<'a>(data: &CharacterData<'a>, character: char) -> ReadCharacter<'a>
    ensures read { IsRead data.now result }
    ensures same { result.character ≡ character }
{
    read_by_word(data, character, data.word_of(character))
}

/// Returns a character with the reading of its word, which was looked up before.
#[tactic(auto, unfolding(crate::specs::Characters::list_of))]
pub fn read_by_word<'a>(data: &CharacterData<'a>, character: char, word: u32) -> ReadCharacter<'a>
    requires { word ≡ word_of data.now character }
    ensures read { IsRead data.now result }
    ensures same { result.character ≡ character }
{
    let reading = data.reading_by(character, word);
    let members = data.members_of(character, reading, IgnoredCharacters::Dropped);
    ReadCharacter {
        character,
        word,
        reading,
        reads: members.is_some(),
        list: members.unwrap_or(Members::one(character)),
    }
}
