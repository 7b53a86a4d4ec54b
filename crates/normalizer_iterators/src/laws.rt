//! What one call returns of an iterator that spells a text. Each function does nothing: its contract is the law, and
//! its proof is in `proofs/`. A loop that relies on a law calls it.
ghost use Rattle.std.specs.Prelude.{◌≡◌, ℕ, List, [], Option, Some, None, Result, Ok, Err};
ghost use Rattle.normalizer_iterators.specs.Items.{HasEnded, SpellsOk, SpellsUnless};
ghost use Rattle.normalizer_iterators.specs.NextItem.{YieldedFirst};

/// If an iterator spells a text unless there is a fault, one call returns the first of the remaining characters, or
/// `None` if none remains, or that fault; after the last two nothing comes.
pub fn text_comes_unless_a_fault_does<E, I: Iterator<Item = Result<char, E>>>()
    ensures next { (fault : E) (s t : I) (c : ℕ) (x : List ℕ) → I.next_gives s (Some (Ok c)) t →
        SpellsUnless I.next_gives fault s x → YieldedFirst (SpellsUnless I.next_gives fault) x t c }
    ensures end { (fault : E) (s t : I) (x : List ℕ) → I.next_gives s None t →
        SpellsUnless I.next_gives fault s x → (x ≡ []) × HasEnded I.next_gives t }
    ensures refused { (fault : E) (s t : I) (e : E) (x : List ℕ) → I.next_gives s (Some (Err e)) t →
        SpellsUnless I.next_gives fault s x → (e ≡ fault) × HasEnded I.next_gives t }
{}

/// If an iterator spells a text without faults, one call returns the first of the remaining characters, or `None` if
/// none remains; so it also spells the text unless there is a fault, whichever that is.
pub fn text_comes_without_faults<E, I: Iterator<Item = Result<char, E>>>()
    ensures next { (s t : I) (c : ℕ) (x : List ℕ) → I.next_gives s (Some (Ok c)) t →
        SpellsOk I.next_gives s x → YieldedFirst (SpellsOk I.next_gives) x t c }
    ensures end { (s t : I) (x : List ℕ) → I.next_gives s None t →
        SpellsOk I.next_gives s x → (x ≡ []) × HasEnded I.next_gives t }
    ensures refused { (s t : I) (e : E) (x : List ℕ) → I.next_gives s (Some (Err e)) t → SpellsOk I.next_gives s x → ⊥ }
    ensures unless { (fault : E) (s : I) (x : List ℕ) →
        SpellsOk I.next_gives s x → SpellsUnless I.next_gives fault s x }
{}

/// After the end every call returns `None`.
pub fn nothing_comes_after_the_end<E, I: Iterator<Item = Result<char, E>>>()
    ensures { (s t : I) (r : Option (Result ℕ E)) → I.next_gives s r t →
        HasEnded I.next_gives s → (r ≡ None) × HasEnded I.next_gives t }
{}
