//! The words of one kind of data.
#![tactic(auto, using(crate::proofs::words_of_lists::SpelledWords::packed_words, crate::proofs::lists::ListPlaces::listed_places), unfolding(normalizer_tables::specs::Entries::kept_list))]

ghost use Rattle.std.specs.Prelude.{◌≡◌, ◌<◌, [], true, None};
ghost use Rattle.normalizer_tables.specs.conditions.Conditions.{item_limit};
ghost use Rattle.normalizer_packing.specs.inner.Beside.{IsReplacedWord, IsWordBeside};
ghost use Rattle.normalizer_packing.specs.inner.PackedWords.{AreOf, ArePacked, CanPoint, SharesWords};
ghost use Rattle.normalizer_packing.specs.Packing.{IsPackedWord};
ghost use Rattle.normalizer_packing.specs.Stored.{is_among, item_of, listed_in};

use crate::disallowed::is_in;
use crate::entries::{have_one_list, list_of};
use crate::flags::flagged;
use crate::pointing::pointing_word;
use crate::spelled::SpelledEntries;
use crate::spelling::{Spelling, final_word};
use crate::stores::Stores;
use crate::table_words::Words;
use normalizer_tables::entry::Kind;
use normalizer_tables::word::SURROGATE_WORD;
use normalizer_tables::{CanonicalCompositions, CodePointTable};

/// What the words of one kind of data are made of.
#[derive(Clone, Copy)]
pub struct PackedWords<'a, 'e> {
    /// The entries of all characters.
    pub entries: &'a SpelledEntries<'e>,
    /// The pairs.
    pub compositions: &'a CanonicalCompositions,
    /// The lists in tables.
    pub stores: &'a Stores<'e>,
    /// The ranges of characters whose list is U+FFFD, whatever their entries say.
    pub replaced: &'a [(char, char)],
    /// The kind of data.
    pub kind: Kind,
    /// The words of another kind of data.
    pub other: Option<OtherWords<'a>>,
}

/// The words of another kind of data: a character with the same list there has the same word.
#[derive(Clone, Copy)]
pub struct OtherWords<'a> {
    /// The other kind.
    pub kind: Kind,
    /// Its table.
    pub table: &'a CodePointTable,
}

impl Words for PackedWords<'_, '_> {
    ghost is_ready = { λ w. CanPoint w.entries.now w.stores.now
        × ArePacked w.entries.now w.compositions.now w.other };

    ghost is_word = { λ w. IsWordBeside w.replaced.now w.kind w.entries.now w.compositions.now };

    fn word_of(&self, number: u32) -> u32 {
        match char::from_u32(number) {
            Some(character) if is_in(self.replaced, number) => self.replaced_word(character),
            Some(character) => self.word_of_character(character),
            None => SURROGATE_WORD,
        }
    }
}

impl<'a, 'e> PackedWords<'a, 'e> {
    /// What the words of canonical data are made of.
    pub fn new(
        entries: &'a SpelledEntries<'e>,
        compositions: &'a CanonicalCompositions,
        stores: &'a Stores<'e>,
    ) -> Self
        ensures sources { AreOf entries.now compositions.now stores.now result }
        ensures kind { result.kind ≡ Kind.Canonical }
        ensures replaced { result.replaced.now ≡ [] }
        ensures other { result.other ≡ None }
    {
        PackedWords {
            entries,
            compositions,
            stores,
            replaced: &[],
            kind: Kind::Canonical,
            other: None,
        }
    }

    /// The same for another kind of data, if characters in these ranges are replaced. The table is that of this kind.
    pub fn with(&self, kind: Kind, replaced: &'a [(char, char)], table: &'a CodePointTable) -> Self
        ensures sources { AreOf self.now.entries.now self.now.compositions.now self.now.stores.now result }
        ensures kind { result.kind ≡ kind }
        ensures replaced { result.replaced.now ≡ replaced.now }
        ensures other { SharesWords self.now.kind table.now result.other }
    {
        PackedWords {
            replaced,
            kind,
            other: Some(OtherWords {
                kind: self.kind,
                table,
            }),
            ..*self
        }
    }
}

impl PackedWords<'_, '_> {
    /// The word of a character whose list is U+FFFD.
    fn replaced_word(&self, character: char) -> u32
        ensures { IsReplacedWord self.now.entries.now self.now.compositions.now character result }
    {
        match final_word(character) {
            Some(word) => word,
            None => flagged(
                self.entries.by_character(),
                self.compositions,
                character,
                &['\u{FFFD}'],
                0xFFFD,
            ),
        }
    }

    fn word_of_character(&self, character: char) -> u32
        requires stored { CanPoint self.now.entries.now self.now.stores.now }
        requires other { ArePacked self.now.entries.now self.now.compositions.now self.now.other }
        ensures { IsPackedWord self.now.kind self.now.entries.now self.now.compositions.now character result }
    {
        let entries = self.entries.by_character();
        match self.other {
            Some(other) if have_one_list(entries, self.kind, other.kind, character) => {
                other.table.get(character)
            }
            _ => self.word_by_list(character),
        }
    }

    /// The word of a character, by the spelling of its list.
    fn word_by_list(&self, character: char) -> u32
        requires { CanPoint self.now.entries.now self.now.stores.now }
        ensures { IsPackedWord self.now.kind self.now.entries.now self.now.compositions.now character result }
    {
        let entries = self.entries.by_character();
        let alone = [character];
        let list = list_of(entries, self.kind, character, &alone).unwrap_or(&[]);
        match self.entries.spelling(self.kind, character) {
            Spelling::Final(word) => word,
            Spelling::Short(word) => flagged(entries, self.compositions, character, list, word),
            Spelling::Listed => {
                let word = pointing_word(entries, list, self.item_of(list));
                flagged(entries, self.compositions, character, list, word)
            }
        }
    }

    /// The first item of a list in the four tables, put one after another.
    fn item_of(&self, list: &[char]) -> u32
        requires ready { CanPoint self.now.entries.now self.now.stores.now }
        requires listed { is_among list.now (listed_in self.now.entries.now self.now.kind) ≡ true }
        ensures within { result < item_limit }
        ensures item { result ≡ item_of self.now.entries.now list.now }
    {
        let canonical = &self.stores.canonical;
        let supplementary = &self.stores.supplementary;
        match canonical.place_of(list) {
            Some(place) => canonical.item_at(list, place) as u32,
            None => {
                let place = supplementary.place_of(list).unwrap();
                (canonical.len() + supplementary.item_at(list, place)) as u32
            }
        }
    }
}
