//! The supplement: one step of decomposition, if the word of canonical data doesn't determine it.
#![tactic(auto, using(crate::proofs::words_of_lists::StoredSteps::no_step, crate::proofs::words_of_lists::StoredSteps::step_among), unfolding(crate::specs::StepWords::asked_step, crate::specs::StepWords::asks_supplement, crate::specs::StepWords::are_narrow, crate::specs::StepWords::stored_step, crate::specs::StepWords::stored_steps, crate::specs::Stored::first_come, crate::specs::StepWords::step_in, crate::specs::StepWords::word_of_step, crate::specs::StepWords::step_lists))]

ghost use Rattle.std.specs.Prelude.{◌≡◌, true, false, [], ◌∷◌, List, Some, IfOk};
ghost use Rattle.normalizer_tables.specs.Entries.{EntryValue, class_in};
ghost use Rattle.normalizer_tables.specs.Pairs.{Pair};
ghost use Rattle.normalizer_packing.specs.Spelling.{spelling};
ghost use Rattle.normalizer_packing.specs.Stored.{first_come, is_among, place_of};
ghost use Rattle.normalizer_packing.specs.inner.Stores.{Holds};
ghost use Rattle.normalizer_packing.specs.StepWords.{are_narrow, asked_step, asks_supplement, step_in, step_lists};
ghost use Rattle.normalizer_packing.specs.StepWords.{stored_step, stored_steps, word_of_place, word_of_step};
ghost use Rattle.normalizer_packing.specs.StepWords.{PacksSteps};
ghost use Rattle.normalizer_packing.specs.inner.Breakpoints.{AreBreakpoints};

use crate::spelled::SpelledEntries;
use crate::spelling::Spelling;
use crate::store::Store;
use crate::table_words::{Words, table_of};
use normalizer_tables::NonRecursiveDecompositionSupplement;
use normalizer_tables::entry::{Entry, Kind};
use normalizer_tables::step::Step;
use normalizer_tables::word::is_class_form;
use std::alloc::{AllocError, Global};

/// The step of a character that needs the supplement, if its canonical list is so spelled.
fn asked_step(entry: &Entry, spelled: Spelling) -> Step
    ensures { (entries : List EntryValue) →
        spelled ≡ spelling (class_in entries) entry.now.character (Some entry.now.canonical) →
        result ≡ asked_step entries entry.now }
{
    let length = entry.canonical().len();
    let is_greek = '\u{1F71}' <= entry.character && entry.character <= '\u{1FFB}';
    match spelled {
        Spelling::Short(word) if length == 2 && is_greek && !is_class_form(word) => entry.mapping,
        Spelling::Listed if 2 < length && entry.character != '\u{212B}' => entry.mapping,
        _ => Step::Default,
    }
}

/// Whether a word of the supplement spells two characters.
fn are_narrow(first: char, second: char) -> bool
    ensures { result ≡ are_narrow first second }
{
    first <= '\u{FFFF}' && second <= '\u{FFFF}'
}

/// The two characters of a step that only the table can hold.
fn stored_step(step: Step) -> Option<[char; 2]>
    ensures { result ≡ stored_step step }
{
    match step {
        Step::Expansion(first, second) if !are_narrow(first, second) => Some([first, second]),
        _ => None,
    }
}

/// The steps that only the table can hold.
fn stored_steps(alloc: Global, entries: &SpelledEntries<'_>) -> Result<Vec<[char; 2]>, AllocError>
    ensures { IfOk result (λ v. v.items ≡ stored_steps entries.now) }
{
    let mut steps = Vec::new(alloc);
    for place in 0..entries.len() {
        let (entry, spellings) = entries.at(place);
        let step = asked_step(entry, spellings.of(Kind::Canonical));
        if let Some(step) = stored_step(step) {
            steps.push(step)?;
        }
    }
    Ok(steps)
}

/// The store of lists of two, equal ones once.
fn store_of<'s>(alloc: Global, steps: &'s [[char; 2]]) -> Result<Store<'s>, AllocError>
    ensures { IfOk result (Holds (first_come steps.now)) }
{
    let mut store = Store::new(alloc);
    for step in steps {
        store.put(step)?;
    }
    Ok(store)
}

/// The most items of the supplement's table.
const STEP_LIMIT: usize = 0xFFFE;

/// The last place of two characters in it.
const LAST_PLACE: usize = STEP_LIMIT - 2;

/// What the words of the supplement are made of.
#[derive(Drop)]
struct StepWords<'a, 'e, 's> {
    entries: &'a SpelledEntries<'e>,
    store: Store<'s>,
}

impl Words for StepWords<'_, '_, '_> {
    ghost is_ready = { λ w. Holds (step_lists w.entries.now) w.store };

    ghost is_word = { λ w n v. v ≡ word_of_step (step_lists w.entries.now) (step_in w.entries.now n) };

    fn word_of(&self, number: u32) -> u32 {
        match char::from_u32(number) {
            Some(character) => self.word_of_character(character),
            None => 0,
        }
    }
}

impl StepWords<'_, '_, '_> {
    /// The step that the supplement has of a character.
    #[tactic(auto, unfolding(normalizer_tables::specs::Entries::entry_of, crate::specs::StepWords::step_in))]
    fn step_of(&self, character: char) -> Step
        ensures { result ≡ step_in self.now.entries.now character }
    {
        match self.entries.by_character().get(character) {
            Some(entry) => asked_step(entry, self.entries.spelling(Kind::Canonical, character)),
            None => Step::Default,
        }
    }

    fn word_of_character(&self, character: char) -> u32
        requires { Holds (step_lists self.now.entries.now) self.now.store }
        ensures { result ≡ word_of_step (step_lists self.now.entries.now) (step_in self.now.entries.now character) }
    {
        match self.step_of(character) {
            Step::Singleton(member) if member <= '\u{FFFF}' => member as u32,
            Step::Expansion(first, second) if are_narrow(first, second) => {
                first as u32 + second as u32 * 0x10000
            }
            Step::Expansion(first, second) => self.word_of_stored(first, second),
            _ => 0,
        }
    }

    /// The word that points to a step in the table, or none if it is past what the table may have.
    fn word_of_stored(&self, first: char, second: char) -> u32
        requires ready { Holds (step_lists self.now.entries.now) self.now.store }
        requires stored { is_among (first ∷ second ∷ []) (step_lists self.now.entries.now) ≡ true }
        ensures { result ≡ word_of_place (place_of (step_lists self.now.entries.now) (first ∷ second ∷ [])) }
    {
        match self.store.place_of(&[first, second]) {
            Some(place) if place <= LAST_PLACE => (place as u32 + 1) * 0x10000,
            _ => 0,
        }
    }
}

/// Returns the supplement of the entries.
///
/// # Errors
/// [`AllocError`] if an allocation failed.
pub fn supplement_of(
    alloc: Global,
    entries: &SpelledEntries<'_>,
    breakpoints: &[char],
) -> Result<NonRecursiveDecompositionSupplement, AllocError>
    requires { (pairs : List Pair) × AreBreakpoints entries.now pairs breakpoints.now }
    ensures { IfOk result (PacksSteps entries.now) }
{
    let steps = stored_steps(alloc, entries)?;
    let store = store_of(alloc, steps.as_slice())?;
    let words = StepWords { entries, store };
    let table = table_of(alloc, &words, breakpoints)?;
    let StepWords { store, .. } = words;
    let mut scalars24 = store.into_scalars24();
    scalars24.truncate(STEP_LIMIT);
    Ok(NonRecursiveDecompositionSupplement {
        table,
        scalars24: scalars24.into(),
    })
}
