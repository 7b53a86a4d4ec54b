//! Decomposing text character by character (The Unicode Standard, D118 and D119).
ghost use Rattle.std.specs.Prelude.{◌≡◌, ℕ, List, [], None, Some, drop, slice_get, false, Ok, IfOk, IfErr, IfSome, OnOk, OnErr, IsOk};
ghost use Rattle.std.specs.Prelude.{IsTrue, length, ◌≤◌};
ghost use Rattle.std.specs.Option.{ForSome};
ghost use Rattle.std.specs.Iterator.{at_most, IsFinite, MakesProgress};
ghost use Rattle.normal_forms.specs.Forms.{nfd};
ghost use Rattle.normal_forms.specs.ShortRuns.{continues};
ghost use Rattle.normal_forms.specs.Order.{order};
ghost use Rattle.normal_forms.specs.Reading.{Reading};
ghost use Rattle.normalizer_tables.specs.Characters.{class_of, has_class_form, characters_from, list_of};
ghost use Rattle.normalizer_tables.specs.Ignored.{ignored_list};
ghost use Rattle.normalizer_tables.specs.conditions.NfdData.{IsSoundNfdData};
ghost use Rattle.normalizer_tables.specs.Readings.{reading_by};
ghost use Rattle.normalizer_tables.specs.ShortLists.{text_of};
ghost use Rattle.normalizer_tables.specs.declared.characters.IgnoredCharacters.TheVariants.{Dropped};
ghost use Rattle.normalizer_text.specs.DecodingSteps.{Spells};
ghost use Rattle.normalizer_iterators.specs.Delegate.{HasRead, IsReadyAfter, MayYield};
ghost use Rattle.normalizer_iterators.specs.Iterating.{YieldsFormBy};
ghost use Rattle.normalizer_iterators.specs.LazyReading.{HasClassesFrom, SuitsLazyReading};
ghost use Rattle.normalizer_iterators.specs.NextItem.{IsFormOfSource};
ghost use Rattle.normalizer_iterators.specs.WaitingList.{AgreesWith, ordered_text, unordered_text};
ghost use Rattle.normalizer_iterators.specs.Waiting.{HasClassesOf};
ghost use Rattle.normalizer_iterators.specs.Reads.{character_of, HasOwnWord, HasOwnWords};
ghost use Rattle.normalizer_iterators.specs.inner.ReadingOn.{ReadsChunkAfter, ChunkDidNotFitAfter, IsShortChunk};
ghost use Rattle.normalizer_iterators.specs.inner.ReadingOn.{HasYieldedLongBy, IfShortRuns};
ghost use Rattle.normalizer_iterators.specs.ComposingInPlace.{ComposesInPlace};

use crate::error::NormalizeError;
use crate::pending::{PendingChar, read_from};
use crate::reading::{first_of_list, hold_short, is_at_boundary, read_leading, read_on, short_of};
use crate::waiting::{ClassedChar, WaitingList};
use normalizer_tables::characters::{CharacterData, IgnoredCharacters, Purpose};
use normalizer_tables::condition::GREATEST_BOUNDS;
use normalizer_tables::short_list::ShortList;
use normalizer_tables::{CanonicalCompositions, DecompositionData, DecompositionTables};
use std::alloc::AllocError;

/// An iterator over the characters of a text, decomposed and in canonical order.
///
/// It reads its delegate up to the first boundary when it is made. After an error, and after the end, it returns
/// `None` forever; after its delegate's first `None` it does not call it again.
#[derive(Drop)]
pub struct Decomposition<'data, I> {
    pub(crate) characters: CharacterData<'data>,
    pub(crate) delegate: I,
    pub(crate) pending: Option<PendingChar>,
    // Not before `delegate`: seven unused bytes there would be copied each time the iterator is moved.
    ignored: IgnoredCharacters,
    pub(crate) waiting: WaitingList,
    ghost suits: { SuitsLazyReading (has_class_form characters) (reading_by characters ignored []) },
    ghost at_boundary: { ForSome (character_of pending) (λ c. continues (has_class_form characters)
        (reading_by characters ignored []) c ≡ false) },
    ghost word: { HasOwnWords characters pending },
    ghost settled: { unordered_text waiting ≡ [] },
    ghost classes: { HasClassesOf (reading_by characters ignored []) waiting.entries.items },
}

impl<'data, I: Iterator<Item = char> + Drop> Decomposition<'data, I> {
    ghost use Rattle.normalizer_iterators.specs.inner.Chunk.{ChunkComes, ChunkIsRefused};
    ghost use Rattle.normalizer_iterators.specs.DecompositionItems.{
      CanDecompose,
      DecompositionSteps,
      IsLong,
      StaysShort,
      WillYield,
      item_of,
      items_left,
    };

    /// Returns an iterator over the NFD of what `delegate` yields, using canonical data that the caller has checked.
    ///
    /// The caller must have checked that `check_nfd_data` of `normalizer_check` returned `Ok` for exactly these
    /// values.
    ///
    /// # Errors
    /// `Memory` if an allocation failed, now or from an item. None is made unless more than 17 characters are
    /// buffered at a time.
    #[inline(always)]
    pub fn new(
        delegate: I,
        decompositions: &'data DecompositionData,
        tables: &'data DecompositionTables,
    ) -> Result<Self, NormalizeError>
        requires can { I.can_next delegate }
        requires ends { IsFinite (I.remaining delegate) }
        requires sound { IsSoundNfdData decompositions.now tables.now }
        ensures form { YieldsFormBy I.next_gives ⟦<Decomposition<'data, I> as Iterator>⟧.next_gives
            (characters_from decompositions.now tables.now None) Dropped [] nfd delegate result }
        ensures ready { IfOk result ⟦<Decomposition<'data, I> as Iterator>⟧.can_next }
    {
        let characters = CharacterData::new(decompositions, tables, None, Purpose::Forms);
        let characters = characters.with_passthrough_bound(GREATEST_BOUNDS.decomposition);
        Decomposition::over(characters, IgnoredCharacters::Dropped, delegate)
    }

    /// Returns an iterator over the decomposed form of what a delegate yields, using data that may be read lazily. It
    /// reads the delegate up to the first boundary.
    ///
    /// # Errors
    /// `Memory` if an allocation failed.
    #[inline(always)]
    pub fn over(
        characters: CharacterData<'data>,
        ignored: IgnoredCharacters,
        mut delegate: I,
    ) -> Result<Self, NormalizeError>
        requires can { I.can_next delegate }
        requires ends { IsFinite (I.remaining delegate) }
        requires suits { SuitsLazyReading (has_class_form characters) (reading_by characters ignored []) }
        ensures form { YieldsFormBy I.next_gives ⟦<Decomposition<'data, I> as Iterator>⟧.next_gives
            characters.entry ignored [] nfd delegate result }
        ensures text { IfOk result (λ it. (x : List ℕ) → Spells I.next_gives delegate x →
            WillYield (Spells I.next_gives) it (nfd (reading_by characters.entry ignored []) x)) }
        ensures came { IfOk result (IsFormOfSource I.next_gives (λ e. WillYield (MayYield I.next_gives e))
            (nfd (reading_by characters.entry ignored [])) delegate) }
        ensures short { IfOk result (λ it.
            IfShortRuns I.next_gives characters.entry ignored delegate (StaysShort I.next_gives it)) }
        ensures long { IfOk result (λ it. IsLong I.next_gives it →
            HasYieldedLongBy I.next_gives characters.entry ignored delegate) }
        ensures succeeds { IfShortRuns I.next_gives characters.entry ignored delegate (IsOk result) }
        ensures ready { IfOk result (CanDecompose I.can_next I.remaining) }
        ensures kept { IfOk result (λ it. (it.characters ≡ characters.entry) × (it.ignored ≡ ignored)) }
        ensures refused { IfErr result (λ e. (e ≡ NormalizeError.Memory)
            × HasYieldedLongBy I.next_gives characters.entry ignored delegate) }
    {
        let first = read_from(&characters, 0, &mut delegate);
        if is_at_boundary(&characters, ignored, first) {
            // The list is made in its place. If it was made before anything is read on, it would be copied.
            return Ok(Decomposition {
                waiting: WaitingList::new(characters.allocator()),
                characters,
                ignored,
                delegate,
                pending: first,
            });
        }
        let mut waiting = WaitingList::new(characters.allocator());
        // Moved, so that only what is read on is borrowed: a delegate that is borrowed is kept in memory.
        let mut rest = delegate;
        match read_leading(&characters, ignored, first, &mut rest, &mut waiting) {
            Ok(pending) => Ok(Decomposition {
                characters,
                ignored,
                delegate: rest,
                pending,
                waiting,
            }),
            Err(_) => Err(NormalizeError::Memory),
        }
    }

    /// The first member of the list of the character that was pending. The one after it was read.
    #[inline(always)]
    pub(crate) fn next_chunk(
        &mut self,
        read: PendingChar,
        following: Option<PendingChar>,
    ) -> Result<char, NormalizeError>
        requires empty { ordered_text self.old.waiting ≡ [] }
        requires at_boundary { continues (has_class_form self.old.characters)
            (reading_by self.old.characters self.old.ignored []) read.character ≡ false }
        requires word { HasOwnWord self.old.characters read }
        requires words { HasOwnWords self.old.characters following }
        requires ready { IsReadyAfter I.can_next I.remaining (character_of following) self.old.delegate }
        requires read { (before : I) ×
            HasRead I.next_gives I.remaining before (character_of following) self.old.delegate }
        ensures ok { IfOk result (λ first. ChunkComes I.Iterator self.old read.character
            (character_of following) first self.new) }
        ensures err { IfErr result (λ e. ChunkIsRefused I.next_gives I.remaining self.old read.character
            (character_of following) e self.new) }
        ensures kept { (self.new.characters ≡ self.old.characters) × (self.new.ignored ≡ self.old.ignored) }
    {
        let (characters, waiting) = (&self.characters, &mut self.waiting);
        if let Some(first) = short_chunk(characters, self.ignored, read, following, waiting) {
            self.pending = following;
            return Ok(first);
        }
        match read_chunk(
            &self.characters,
            self.ignored,
            read,
            following,
            &mut self.pending,
            &mut self.delegate,
            &mut self.waiting,
        ) {
            Ok(first) => Ok(first),
            Err(_) => {
                self.pending = None;
                self.waiting.clear();
                Err(NormalizeError::Memory)
            }
        }
    }

    /// Composes a starter with what is buffered after it, up to the next starter that doesn't join. Returns what it
    /// becomes; the marks that stay are next.
    #[inline(always)]
    pub(crate) fn compose_buffered(&mut self, pairs: &CanonicalCompositions, starter: char) -> char
        ensures text { ComposesInPlace pairs.now starter self.old.waiting result self.new.waiting }
        ensures fewer { length (ordered_text self.new.waiting) ≤ length (ordered_text self.old.waiting) }
        ensures kept { (self.new.characters ≡ self.old.characters) × (self.new.ignored ≡ self.old.ignored) }
        ensures unread { (self.new.pending ≡ self.old.pending) × (self.new.delegate ≡ self.old.delegate) }
    {
        self.waiting.compose(pairs, starter)
    }

    /// The next character with its canonical combining class.
    #[inline(always)]
    pub(crate) fn next_with_class(&mut self) -> Option<Result<ClassedChar, NormalizeError>>
        requires { CanDecompose I.can_next I.remaining self.old }
        ensures class { IfSome result (λ item. IfOk item (λ given.
            given.class ≡ class_of self.old.characters given.character)) }
        ensures starter { ordered_text self.old.waiting ≡ [] → IfSome result (λ item. IfOk item (λ given.
            given.class ≡ 0)) }
        ensures steps { DecompositionSteps I.Iterator self.old (item_of result) self.new }
    {
        if let Some(given) = self.waiting.pop_front() {
            return Some(Ok(given));
        }
        let read = self.pending?;
        let following = read_from(&self.characters, 0, &mut self.delegate);
        match self.next_chunk(read, following) {
            Ok(character) => Some(Ok(ClassedChar {
                character,
                class: 0,
            })),
            Err(error) => Some(Err(error)),
        }
    }
}

/// The first member of a list that is seen to have one, two or three, if a boundary follows its character; the others
/// are buffered. If there is none, what is buffered is unspecified.
#[inline(always)]
fn short_chunk(
    characters: &CharacterData<'_>,
    ignored: IgnoredCharacters,
    read: PendingChar,
    following: Option<PendingChar>,
    waiting: &mut WaitingList,
) -> Option<char>
    requires empty { ordered_text waiting.old ≡ [] }
    requires settled { unordered_text waiting.old ≡ [] }
    requires classes { AgreesWith (reading_by characters.now ignored []) waiting.old }
    requires word { HasOwnWord characters.now read }
    requires words { HasOwnWords characters.now following }
    ensures { IfSome result (λ first. IsShortChunk (has_class_form characters.now)
        (reading_by characters.now ignored []) read.character (character_of following) first waiting.new) }
{
    if let Some(member) = read.one_member(characters, ignored) {
        return if is_at_boundary(characters, ignored, following) {
            Some(member)
        } else {
            None
        };
    }
    if read.has_short_list() {
        listed_chunk(characters, ignored, read, following, waiting)
    } else {
        None
    }
}

/// The same of any list of one, two or three. It isn't inlined, so that the loop over other characters stays short.
#[inline(never)]
fn listed_chunk(
    characters: &CharacterData<'_>,
    ignored: IgnoredCharacters,
    read: PendingChar,
    following: Option<PendingChar>,
    waiting: &mut WaitingList,
) -> Option<char>
    requires empty { ordered_text waiting.old ≡ [] }
    requires settled { unordered_text waiting.old ≡ [] }
    requires classes { AgreesWith (reading_by characters.now ignored []) waiting.old }
    requires word { HasOwnWord characters.now read }
    requires words { HasOwnWords characters.now following }
    ensures { IfSome result (λ first. IsShortChunk (has_class_form characters.now)
        (reading_by characters.now ignored []) read.character (character_of following) first waiting.new) }
{
    if !is_at_boundary(characters, ignored, following) {
        return None;
    }
    let list = short_list_of(characters, ignored, read)?;
    if let ShortList::One(member) = list {
        return Some(member);
    }
    let Ok(()) = hold_short(characters, list, waiting) else {
        return None;
    };
    let Ok(()) = waiting.put_in_order() else {
        return None;
    };
    Some(list.first())
}

/// The list of a character, if it has one, two or three members.
#[inline(always)]
fn short_list_of(
    characters: &CharacterData<'_>,
    ignored: IgnoredCharacters,
    read: PendingChar,
) -> Option<ShortList>
    requires { HasOwnWord characters.now read }
    ensures { IfSome result (λ list. list_of characters.now (ignored_list ignored) read.character ≡ text_of list) }
{
    match read.short_list(characters) {
        Some(list) => Some(list),
        None => short_of(&read.members(characters, ignored)),
    }
}

/// The first member of the list of a character after a boundary; the others are buffered, with the lists of the
/// characters that continue it, up to the next boundary. The character after it was read before. What is read last is
/// then pending.
fn read_chunk<I: Iterator<Item = char> + Drop>(
    characters: &CharacterData<'_>,
    ignored: IgnoredCharacters,
    read: PendingChar,
    following: Option<PendingChar>,
    pending: &mut Option<PendingChar>,
    delegate: &mut I,
    waiting: &mut WaitingList,
) -> Result<char, AllocError>
    requires ready { IsReadyAfter I.can_next I.remaining (character_of following) delegate.old }
    requires word { HasOwnWord characters.now read }
    requires words { HasOwnWords characters.now following }
    requires at_boundary { continues (has_class_form characters.now)
        (reading_by characters.now ignored []) read.character ≡ false }
    ensures ok { IfOk result (λ first. ReadsChunkAfter I.Iterator characters.now ignored read.character
        (character_of following) delegate.old first (character_of pending.new) delegate.new waiting.new) }
    ensures words { OnOk result (HasOwnWords characters.now pending.new) }
    ensures classes { OnOk result (AgreesWith (reading_by characters.now ignored []) waiting.new) }
    ensures err { OnErr result (ChunkDidNotFitAfter I.next_gives I.remaining characters.now ignored read.character
        (character_of following) delegate.old) }
{
    let first = first_of_list(characters, ignored, read, waiting)?;
    *pending = read_on(characters, ignored, following, delegate, waiting)?;
    Ok(first)
}

impl<'data, I: Iterator<Item = char> + Drop> Iterator for Decomposition<'data, I> {
    ghost use Rattle.normalizer_iterators.specs.DecompositionItems.{DecompositionSteps, CanDecompose, items_left};

    type Item = Result<char, NormalizeError>;

    ghost can_next = { CanDecompose I.can_next I.remaining };

    ghost next_gives = { DecompositionSteps I.Iterator };

    ghost remaining = { λ s. at_most (items_left I.remaining s) };

    #[inline(always)]
    fn next(&mut self) -> Option<Result<char, NormalizeError>> {
        match self.next_with_class() {
            Some(Ok(given)) => Some(Ok(given.character)),
            Some(Err(error)) => Some(Err(error)),
            None => None,
        }
    }
}
