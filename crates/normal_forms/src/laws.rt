//! The laws of the normal forms, for any reading of characters and both forms. Each function does nothing: its
//! contract is the law, and its proof is in `proofs/`.

ghost use Rattle.std.specs.Prelude.{◌≡◌, ◌≢◌, ℕ, ◌≤◌, ◌<◌, ◌⊎◌, ◌+◌, ◌-◌, ◌↔◌, Bool, true, false, Option, Some, None};
ghost use Rattle.std.specs.Prelude.{List, [], ◌∷◌, ◌++◌, length, take, drop, slice_get, All};
ghost use Rattle.std.specs.List.{AllPass};
ghost use Rattle.normal_forms.specs.Reading.{Reading, IsStarter, IsMark, IsSecondInNoPair, IsText, ReadsAsItself};
ghost use Rattle.normal_forms.specs.Alike.{AreAlike};
ghost use Rattle.normal_forms.specs.Decomposition.{expand};
ghost use Rattle.normal_forms.specs.Boundary.{BeginsWithStarter, BeginsAtBoundary};
ghost use Rattle.normal_forms.specs.Chunks.{BeginsChunk};
ghost use Rattle.normal_forms.specs.MarkRun.{compose_marks, IsLastBelow};
ghost use Rattle.normal_forms.specs.ShortRuns.{continues, leading_length, buffer_limit, HasShortRuns};
ghost use Rattle.normal_forms.specs.Order.{EndsUpTo, InOrder, order};
ghost use Rattle.normal_forms.specs.Composition.{compose, is_blocked};
ghost use Rattle.normal_forms.specs.CompositionByStarters.{is_above, compose_after, compose_by_starters};
ghost use Rattle.normal_forms.specs.Forms.{Form, Decomposing, Composing, nfd, nfc, normal_form, IsNormalized};
ghost use Rattle.normal_forms.specs.Equivalence.{Equivalent, EquivalentTexts};
ghost use Rattle.normal_forms.specs.Cut.{QualifiesForCut, IsCut, IsCommonFront, IsFront};
ghost use Rattle.normal_forms.specs.Offence.{IsFirstOffence, IsOffenceOf};
ghost use Rattle.normal_forms.specs.Hypotheses.{
  HasFullLists,
  HasStarterResults,
  HasNonemptyLists,
  HasScalarResults,
  HasTextLists,
  SuitsForm,
};

/// Exactly one list is in canonical order for a text: the relation by runs and the function agree (D109).
pub fn canonical_order()
    ensures { (d : Reading) (x y : List ℕ) → InOrder d x y ↔ (y ≡ order d x) }
{}

/// Composition by visits (D117) equals composition by starters, if what a pair joins to is a starter.
pub fn composition_by_starters()
    ensures { (d : Reading) → HasStarterResults d → (x : List ℕ) → compose d x ≡ compose_by_starters d x }
{}

/// A common prefix cancels: if two texts with a common prefix have equal order, so have the texts after it.
pub fn left_cancellation()
    ensures { (d : Reading) (u v w : List ℕ) → order d (u ++ v) ≡ order d (u ++ w) → order d v ≡ order d w }
{}

/// Two texts are equivalent if and only if their normal forms are equal: for the decomposing form, if their full
/// decompositions in canonical order are (D70). They are so through texts alone if characters decompose to texts.
pub fn canonicity()
    ensures lists { (d : Reading) (form : Form) → SuitsForm d form → (x y : List ℕ) →
        Equivalent d x y ↔ (normal_form d form x ≡ normal_form d form y) }
    ensures texts { (d : Reading) (form : Form) → SuitsForm d form → HasTextLists d →
        (x y : List ℕ) → IsText x → IsText y →
        EquivalentTexts d x y ↔ (normal_form d form x ≡ normal_form d form y) }
{}

/// No two texts are equivalent only through lists that aren't texts.
pub fn equivalence_stays_within_texts()
    ensures { (d : Reading) → HasFullLists d → HasTextLists d → (x y : List ℕ) → IsText x → IsText y →
        Equivalent d x y ↔ EquivalentTexts d x y }
{}

/// The forms of a text are texts, if characters decompose to texts and join to characters.
pub fn forms_are_texts()
    ensures decomposing { (d : Reading) → HasTextLists d → (x : List ℕ) → IsText x → IsText (nfd d x) }
    ensures forms { (d : Reading) (form : Form) → HasTextLists d → HasScalarResults d →
        (x : List ℕ) → IsText x → IsText (normal_form d form x) }
{}

/// A normal form is its own normal form.
pub fn twice_is_once()
    ensures { (d : Reading) (form : Form) → SuitsForm d form → (x : List ℕ) →
        IsNormalized d form (normal_form d form x) }
{}

/// The two forms of a text have the same decomposing form and the same composing form; so two texts have equal
/// composing forms if and only if they have equal decomposing forms.
pub fn composing_keeps_decomposing()
    ensures decomposed { (d : Reading) → SuitsForm d Composing → (x : List ℕ) → nfd d (nfc d x) ≡ nfd d x }
    ensures composed { (d : Reading) → HasFullLists d → (x : List ℕ) → nfc d (nfd d x) ≡ nfc d x }
    ensures equal_together { (d : Reading) → SuitsForm d Composing → (x y : List ℕ) →
        (nfc d x ≡ nfc d y) ↔ (nfd d x ≡ nfd d y) }
{}

/// A number qualifies for the cut if and only if that many characters are a common front of the text and its form. So 0
/// qualifies, and every number below one that does.
pub fn cut_is_common_front()
    ensures exactly { (d : Reading) (form : Form) → SuitsForm d form → (x : List ℕ) (n : ℕ) →
        QualifiesForCut d form x n ↔ IsCommonFront x (normal_form d form x) n }
    ensures none { (d : Reading) (form : Form) (x : List ℕ) → QualifiesForCut d form x 0 }
    ensures fewer { (d : Reading) (form : Form) → SuitsForm d form → (x : List ℕ) (n m : ℕ) →
        QualifiesForCut d form x n → m ≤ n → QualifiesForCut d form x m }
{}

/// Every text has exactly one cut. If the laws hold, it is the length of the longest common prefix of the text and its
/// form.
pub fn one_cut()
    ensures exists { (d : Reading) (form : Form) (x : List ℕ) → (n : ℕ) × IsCut d form x n }
    ensures unique { (d : Reading) (form : Form) (x : List ℕ) (n m : ℕ) → IsCut d form x n → IsCut d form x m → n ≡ m }
    ensures longest { (d : Reading) (form : Form) → SuitsForm d form → (x : List ℕ) (n : ℕ) → IsCut d form x n →
        (m : ℕ) → IsCommonFront x (normal_form d form x) m → m ≤ n }
{}

/// The prefix at the cut is normalized; the rest is empty or is not.
pub fn parts_at_cut()
    ensures prefix { (d : Reading) (form : Form) → SuitsForm d form → (x : List ℕ) (n : ℕ) → IsCut d form x n →
        IsNormalized d form (take n x) }
    ensures rest { (d : Reading) (form : Form) (x : List ℕ) (n : ℕ) → IsCut d form x n →
        IsNormalized d form (drop n x) → drop n x ≡ [] }
{}

/// Every prefix and every suffix of a normal form is a normal form.
pub fn parts_of_normal_form()
    ensures front { (d : Reading) (form : Form) → SuitsForm d form → (x front rest : List ℕ) →
        normal_form d form x ≡ front ++ rest → IsNormalized d form front }
    ensures suffix { (d : Reading) (form : Form) → SuitsForm d form → (x front rest : List ℕ) →
        normal_form d form x ≡ front ++ rest → IsNormalized d form rest }
{}

/// A text is normalized if and only if it is a prefix of its form, and if and only if its cut is its length.
pub fn normalized_is_front()
    ensures front { (d : Reading) (form : Form) → SuitsForm d form → (x : List ℕ) →
        IsNormalized d form x ↔ IsFront x (normal_form d form x) }
    ensures cut { (d : Reading) (form : Form) (x : List ℕ) → IsNormalized d form x ↔ IsCut d form x (length x) }
{}

/// A text that isn't normalized has exactly one first mismatch, and the character found there is not the one expected.
pub fn first_offence()
    ensures exists { (d : Reading) (form : Form) → HasNonemptyLists d → (x : List ℕ) → normal_form d form x ≢ x →
        (place : ℕ) × (found : ℕ) × (wanted : ℕ) × IsFirstOffence d form x place found wanted }
    ensures unique { (d : Reading) (form : Form) (x : List ℕ) (place found wanted place' found' wanted' : ℕ) →
        IsFirstOffence d form x place found wanted → IsFirstOffence d form x place' found' wanted' →
        (place ≡ place') × (found ≡ found') × (wanted ≡ wanted') }
    ensures differ { (d : Reading) (form : Form) → SuitsForm d form → (x : List ℕ) (place found wanted : ℕ) →
        IsFirstOffence d form x place found wanted → found ≢ wanted }
{}

/// A search for the first mismatch of a text has exactly one result: none if and only if the text is normalized.
pub fn offence_of_text()
    ensures exists { (d : Reading) (form : Form) → HasNonemptyLists d → (x : List ℕ) →
        (o : Option (ℕ × ℕ × ℕ)) × IsOffenceOf d form x o }
    ensures unique { (d : Reading) (form : Form) (x : List ℕ) (o p : Option (ℕ × ℕ × ℕ)) →
        IsOffenceOf d form x o → IsOffenceOf d form x p → o ≡ p }
    ensures none { (d : Reading) (form : Form) (x : List ℕ) (o : Option (ℕ × ℕ × ℕ)) →
        IsOffenceOf d form x o → (o ≡ None) ↔ IsNormalized d form x }
{}

/// The character found is in the text at the place of the first mismatch, and the one expected in the form of the
/// whole.
pub fn characters_at_offence()
    ensures found { (d : Reading) (form : Form) (x : List ℕ) (place found wanted : ℕ) →
        IsFirstOffence d form x place found wanted → slice_get x place ≡ Some found }
    ensures wanted { (d : Reading) (form : Form) (x : List ℕ) (place found wanted : ℕ) →
        IsFirstOffence d form x place found wanted → slice_get (normal_form d form x) place ≡ Some wanted }
{}

/// Appending never removes the first mismatch of a text: the longer text has one too, at a place no later.
pub fn offence_under_continuation()
    ensures cut { (d : Reading) (form : Form) → SuitsForm d form → (x y : List ℕ) (n m : ℕ) →
        normal_form d form x ≢ x → IsCut d form x n → IsCut d form (x ++ y) m → m ≤ n }
    ensures differs { (d : Reading) (form : Form) → SuitsForm d form → (x y : List ℕ) → normal_form d form x ≢ x →
        normal_form d form (x ++ y) ≢ (x ++ y) }
    ensures offence { (d : Reading) (form : Form) → SuitsForm d form → HasNonemptyLists d →
        (x y : List ℕ) (n found wanted : ℕ) → IsFirstOffence d form x n found wanted →
        (place : ℕ) × (found' : ℕ) × (wanted' : ℕ) × IsFirstOffence d form (x ++ y) place found' wanted' × (place ≤ n) }
{}

/// If a text begins with the form of one of its prefixes, that prefix is normalized. So no text is its form followed by
/// more.
pub fn offered_front()
    ensures piece { (d : Reading) (form : Form) → SuitsForm d form → HasNonemptyLists d → (u v : List ℕ) →
        IsFront (normal_form d form u) (u ++ v) → IsNormalized d form u }
    ensures whole { (d : Reading) (form : Form) → SuitsForm d form → HasNonemptyLists d → (x : List ℕ) →
        IsFront (normal_form d form x) x → IsNormalized d form x }
{}

/// Each part is normalized apart if the second begins with a starter, for the composing form one that is second in no
/// pair (UAX #15, section 1.4).
pub fn safe_boundary()
    ensures decomposing { (d : Reading) (u v : List ℕ) → BeginsWithStarter d (expand d v) →
        nfd d (u ++ v) ≡ nfd d u ++ nfd d v }
    ensures composing { (d : Reading) → HasStarterResults d → (u v : List ℕ) → BeginsAtBoundary d (expand d v) →
        nfc d (u ++ v) ≡ nfc d u ++ nfc d v }
{}

/// A run of characters, each normalized and with a list that begins like that, stays as it is before such a second
/// part.
pub fn passthrough_run()
    ensures decomposing { (d : Reading) (u run v : List ℕ) →
        All (λ c. (nfd d (c ∷ []) ≡ c ∷ []) × BeginsWithStarter d (d.list c)) run → BeginsWithStarter d (expand d v) →
        nfd d (u ++ (run ++ v)) ≡ nfd d u ++ (run ++ nfd d v) }
    ensures composing { (d : Reading) → HasStarterResults d → (u run v : List ℕ) →
        All (λ c. (nfc d (c ∷ []) ≡ c ∷ []) × BeginsAtBoundary d (d.list c)) run → BeginsAtBoundary d (expand d v) →
        nfc d (u ++ (run ++ v)) ≡ nfc d u ++ (run ++ nfc d v) }
{}

/// A mark that is its own list stays at the end of a text, and changes nothing before it, if its class isn't below that of
/// the last character of the form before it, and if it is second in no pair (for the composing form).
pub fn mark_at_end()
    ensures { (d : Reading) (form : Form) → SuitsForm d form → (x : List ℕ) (m : ℕ) → ReadsAsItself d m → IsMark d m →
        (form ≡ Composing → IsSecondInNoPair d m) → EndsUpTo d (d.class m) (normal_form d form x) →
        normal_form d form (x ++ m ∷ []) ≡ normal_form d form x ++ m ∷ [] }
{}

/// The decomposing form may be read lazily: first what comes before the first chunk, in order; then for each chunk the
/// first of its character's list, and, in order, the rest of that list and the lists of what follows up to the next
/// chunk. Characters with an empty list may be anywhere in a chunk.
pub fn lazy_reading()
    ensures leading { (d : Reading) (leading rest : List ℕ) → BeginsChunk d rest →
        nfd d (leading ++ rest) ≡ order d (expand d leading) ++ nfd d rest }
    ensures chunk { (d : Reading) (c first : ℕ) (tail following rest : List ℕ) →
        d.list c ≡ first ∷ tail → IsStarter d first → BeginsChunk d rest →
        nfd d (c ∷ (following ++ rest)) ≡ first ∷ (order d (tail ++ expand d following) ++ nfd d rest) }
{}

/// Short runs pass to every rest, and bound what is buffered: the lists of the leading characters that continue, and
/// the list of another character after its first with the lists of those that continue after it.
pub fn short_runs()
    ensures rest { (has_class_form : ℕ → Bool) (d : Reading) (front rest : List ℕ) →
        HasShortRuns has_class_form d (front ++ rest) → HasShortRuns has_class_form d rest }
    ensures leading { (has_class_form : ℕ → Bool) (d : Reading) (leading rest : List ℕ) →
        HasShortRuns has_class_form d (leading ++ rest) → AllPass (continues has_class_form d) leading →
        length (expand d leading) ≤ buffer_limit }
    ensures chunk { (has_class_form : ℕ → Bool) (d : Reading) (c first : ℕ) (tail following rest : List ℕ) →
        HasShortRuns has_class_form d (c ∷ (following ++ rest)) → continues has_class_form d c ≡ false →
        d.list c ≡ first ∷ tail → AllPass (continues has_class_form d) following →
        length (tail ++ expand d following) ≤ buffer_limit }
{}

/// Over a run of marks composition is one pass, which yields a starter and the marks that stay. A character joins
/// after ordered marks if and only if none stays or the last one has a lower class.
pub fn composition_over_marks()
    ensures pass { (d : Reading) (a : ℕ) (waiting marks rest : List ℕ) → All (IsMark d) marks →
        compose_after d a waiting (marks ++ rest) ≡
        compose_after d (compose_marks d a waiting marks).0 (compose_marks d a waiting marks).1 rest }
    ensures last_decides { (d : Reading) (waiting : List ℕ) (c : ℕ) →
        All (IsMark d) waiting → order d waiting ≡ waiting →
        (is_above d waiting c ≡ true) ↔ ((waiting ≡ []) ⊎ IsLastBelow d waiting c) }
{}

/// Readings that agree on every character and every pair make the same forms, and satisfy the same hypotheses.
pub fn alike_readings_make_the_same_forms()
    ensures same { (d e : Reading) → AreAlike d e → (form : Form) (x : List ℕ) →
        normal_form d form x ≡ normal_form e form x }
    ensures suits { (d e : Reading) → AreAlike d e → (form : Form) → SuitsForm d form → SuitsForm e form }
    ensures are_nonempty { (d e : Reading) → AreAlike d e → HasNonemptyLists d → HasNonemptyLists e }
    ensures texts { (d e : Reading) → AreAlike d e → HasTextLists d → HasTextLists e }
    ensures scalars { (d e : Reading) → AreAlike d e → HasScalarResults d → HasScalarResults e }
{}

/// The decomposing form doesn't depend on pairs: readings of the same lists and classes have the same one.
pub fn decomposing_looks_at_no_pairs()
    ensures { (d e : Reading) → ((c : ℕ) → d.list c ≡ e.list c) → ((c : ℕ) → d.class c ≡ e.class c) →
        (x : List ℕ) → nfd d x ≡ nfd e x }
{}

/// A starter from which a character isn't blocked is the last before it: only marks are between (D115).
pub fn unblocked_starter_is_last()
    ensures { (d : Reading) (between : List ℕ) (c : ℕ) → is_blocked d between c ≡ false → All (IsMark d) between }
{}
