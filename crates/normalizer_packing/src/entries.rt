//! Entries that are sorted by character, looked up.
#![tactic(auto, unfolding(normalizer_tables::specs::Entries::class_in, normalizer_tables::specs::Entries::entry_of, normalizer_tables::specs::Entries::list_in))]

ghost use Rattle.std.specs.Prelude.{◌≡◌, [], ◌∷◌, IsTrue, option_copied};
ghost use Rattle.normalizer_tables.specs.Entries.{class_in, list_in};

use normalizer_tables::entry::{Entry, Kind};
use normalizer_tables::places::ByCharacter;

/// Entries of different characters, in their order.
pub type Entries<'a> = ByCharacter<'a, Entry>;

/// The canonical combining class of a character: 0 without an entry.
pub fn class_of(entries: &Entries<'_>, character: char) -> u8
    ensures { result ≡ class_in entries.now character }
{
    entries.get(character).map_or(0, |entry| entry.class)
}

/// The list of a character in one kind of data, or `alone` if the character has no entry. None if the mapper ignores
/// the character.
pub fn list_of<'b>(
    entries: &'b Entries<'_>,
    kind: Kind,
    character: char,
    alone: &'b [char],
) -> Option<&'b [char]>
    requires { alone.now ≡ character ∷ [] }
    ensures { option_copied result ≡ list_in kind entries.now character }
{
    entries
        .get(character)
        .map_or(Some(alone), |entry| entry.list(kind))
}

/// Whether a character has the same list in two kinds of data.
pub fn have_one_list(entries: &Entries<'_>, kind: Kind, other: Kind, character: char) -> bool
    ensures { IsTrue result → list_in kind entries.now character ≡ list_in other entries.now character }
{
    match entries.get(character) {
        Some(entry) => entry.list(kind) == entry.list(other),
        None => true,
    }
}
