//! The laws of the cut and of the first mismatch of an input of bytes or 16-bit units, well-formed or not. Each
//! function does nothing: its contract is the law, for both encodings, every reading and both forms.

ghost use Rattle.std.specs.Prelude.{◌≡◌, ◌≢◌, ◌↔◌, ◌⊎◌, ℕ, suc, ◌≤◌, List, [], ◌∷◌, ◌++◌, length, take, drop};
ghost use Rattle.std.specs.Prelude.{Option, Some, None, slice_get, encode_utf8_all};
ghost use Rattle.std.specs.List.{slice_range};
ghost use Rattle.std.specs.Str.{chars};
ghost use Rattle.normal_forms.specs.Reading.{Reading};
ghost use Rattle.normal_forms.specs.declared.Form.{Form};
ghost use Rattle.normal_forms.specs.Forms.{normal_form, IsNormalized};
ghost use Rattle.normal_forms.specs.Cut.{QualifiesForCut, IsCut, IsCommonFront, IsFront};
ghost use Rattle.normal_forms.specs.Offence.{IsFirstOffence};
ghost use Rattle.normal_forms.specs.Hypotheses.{HasNonemptyLists, HasScalarResults, HasTextLists, SuitsForm};
ghost use Rattle.normalizer_text.specs.DecodingSteps.{IsWellFormed, IsBoundary};
ghost use Rattle.normalizer_text.specs.Encodings.{Encoding, first_in, encoded_in, decoded_in};
ghost use Rattle.normalizer_text.specs.InputCut.{IsInputNormalized, QualifiesForInputCut, IsInputCut};
ghost use Rattle.normalizer_text.specs.InputCut.{characters_before, IsErrorFreeBoundary, IsErrorAt};
ghost use Rattle.normalizer_text.specs.InputOffence.{IsInputOffence, IsInputOffenceOf};
ghost use Rattle.normalizer_text.specs.EncodedForm.{encoded_form, IsEncodedFront};
ghost use Rattle.normalizer_text.specs.declared.offence.Offence.{Offence};

/// The first n units are well-formed if and only if n is a boundary at or before the first error.
pub fn well_formed_front_ends_at_boundary()
    ensures { (e : Encoding) (units : List ℕ) (n : ℕ) →
        ((n ≤ length units) × IsWellFormed (first_in e) (take n units)) ↔ IsErrorFreeBoundary e units n }
{}

/// A number qualifies for the cut if and only if it is a boundary at or before the first error and what comes before it
/// decodes to a common prefix of the decoded text and its form. So 0 qualifies, and every boundary before one that
/// does.
pub fn input_cut_is_common_front()
    ensures exactly { (e : Encoding) (d : Reading) (form : Form) → SuitsForm d form → (units : List ℕ) (n : ℕ) →
        QualifiesForInputCut e d form units n ↔ (IsErrorFreeBoundary e units n ×
        IsCommonFront (decoded_in e units) (normal_form d form (decoded_in e units)) (characters_before e units n)) }
    ensures characters { (e : Encoding) (d : Reading) (form : Form) (units : List ℕ) (n : ℕ) →
        QualifiesForInputCut e d form units n ↔ (IsErrorFreeBoundary e units n ×
        QualifiesForCut d form (decoded_in e units) (characters_before e units n)) }
    ensures none { (e : Encoding) (d : Reading) (form : Form) (units : List ℕ) → QualifiesForInputCut e d form units 0 }
    ensures fewer { (e : Encoding) (d : Reading) (form : Form) → SuitsForm d form → (units : List ℕ) (n m : ℕ) →
        QualifiesForInputCut e d form units n → IsErrorFreeBoundary e units m → m ≤ n →
        QualifiesForInputCut e d form units m }
{}

/// Every input has exactly one cut: the end of the longest common prefix before the first error. As many characters
/// come before it as before the cut of the decoded text, or fewer, and then an error follows it.
pub fn one_input_cut()
    ensures exists { (e : Encoding) (d : Reading) (form : Form) (units : List ℕ) →
        (n : ℕ) × IsInputCut e d form units n }
    ensures unique { (e : Encoding) (d : Reading) (form : Form) (units : List ℕ) (n m : ℕ) →
        IsInputCut e d form units n → IsInputCut e d form units m → n ≡ m }
    ensures longest { (e : Encoding) (d : Reading) (form : Form) → SuitsForm d form → (units : List ℕ) (n : ℕ) →
        IsInputCut e d form units n → (m : ℕ) → IsErrorFreeBoundary e units m →
        IsCommonFront (decoded_in e units) (normal_form d form (decoded_in e units)) (characters_before e units m) →
        m ≤ n }
    ensures characters { (e : Encoding) (d : Reading) (form : Form) → SuitsForm d form → (units : List ℕ) (n k : ℕ) →
        IsInputCut e d form units n → IsCut d form (decoded_in e units) k →
        (characters_before e units n ≤ k) × ((characters_before e units n ≡ k) ⊎ IsErrorAt e units n) }
{}

/// The prefix at the cut is well-formed and normalized; the rest is empty or is not both.
pub fn parts_at_input_cut()
    ensures prefix { (e : Encoding) (d : Reading) (form : Form) → SuitsForm d form → (units : List ℕ) (n : ℕ) →
        IsInputCut e d form units n → IsInputNormalized e d form (take n units) }
    ensures rest { (e : Encoding) (d : Reading) (form : Form) (units : List ℕ) (n : ℕ) →
        IsInputCut e d form units n → IsInputNormalized e d form (drop n units) → drop n units ≡ [] }
{}

/// An input is well-formed and normalized if and only if its cut is its length.
pub fn normalized_input_is_cut_at_its_end()
    ensures { (e : Encoding) (d : Reading) (form : Form) (units : List ℕ) →
        IsInputNormalized e d form units ↔ IsInputCut e d form units (length units) }
{}

/// If an input is well-formed and normalized, so is each well-formed beginning of it, and so is the rest after one.
pub fn parts_of_normalized_input()
    ensures front { (e : Encoding) (d : Reading) (form : Form) → SuitsForm d form → (front rest : List ℕ) →
        IsWellFormed (first_in e) front → IsInputNormalized e d form (front ++ rest) →
        IsInputNormalized e d form front }
    ensures rest { (e : Encoding) (d : Reading) (form : Form) → SuitsForm d form → (front rest : List ℕ) →
        IsWellFormed (first_in e) front → IsInputNormalized e d form (front ++ rest) →
        IsInputNormalized e d form rest }
{}

/// An input that is not well-formed and normalized has exactly one first mismatch. The character found there is not
/// the one expected, or an error is there.
pub fn first_input_offence()
    ensures exists { (e : Encoding) (d : Reading) (form : Form) → HasNonemptyLists d → (units : List ℕ) →
        (IsInputNormalized e d form units → ⊥) →
        (place : ℕ) × (found : ℕ) × (wanted : ℕ) × IsInputOffence e d form units place found wanted }
    ensures unique { (e : Encoding) (d : Reading) (form : Form) (units : List ℕ) (n found wanted m found' wanted' : ℕ) →
        IsInputOffence e d form units n found wanted → IsInputOffence e d form units m found' wanted' →
        (n ≡ m) × (found ≡ found') × (wanted ≡ wanted') }
    ensures differ { (e : Encoding) (d : Reading) (form : Form) → SuitsForm d form → (units : List ℕ) →
        (place found wanted : ℕ) → IsInputOffence e d form units place found wanted →
        (found ≢ wanted) ⊎ IsErrorAt e units place }
{}

/// A search for the first mismatch of an input has exactly one result. The character found is the one of the decoded
/// text, and the one expected that of its form, after as many characters as come before the place.
pub fn offence_of_input()
    ensures exists { (e : Encoding) (d : Reading) (form : Form) → HasNonemptyLists d → (units : List ℕ) →
        (answer : Option Offence) × IsInputOffenceOf e d form units answer }
    ensures unique { (e : Encoding) (d : Reading) (form : Form) (units : List ℕ) (one other : Option Offence) →
        IsInputOffenceOf e d form units one → IsInputOffenceOf e d form units other → one ≡ other }
    ensures none { (e : Encoding) (d : Reading) (form : Form) (units : List ℕ) (answer : Option Offence) →
        IsInputOffenceOf e d form units answer → (answer ≡ None) ↔ IsInputNormalized e d form units }
    ensures found { (e : Encoding) (d : Reading) (form : Form) (units : List ℕ) (place found wanted : ℕ) →
        IsInputOffence e d form units place found wanted →
        slice_get (decoded_in e units) (characters_before e units place) ≡ Some found }
    ensures wanted { (e : Encoding) (d : Reading) (form : Form) (units : List ℕ) (place found wanted : ℕ) →
        IsInputOffence e d form units place found wanted →
        slice_get (normal_form d form (decoded_in e units)) (characters_before e units place) ≡ Some wanted }
{}

/// Appending to a well-formed input never removes its first mismatch, whether what is appended is well-formed or not:
/// the longer input has one too, at a place no later.
pub fn input_offence_under_continuation()
    ensures cut { (e : Encoding) (d : Reading) (form : Form) → SuitsForm d form → (units more : List ℕ) (n m : ℕ) →
        IsWellFormed (first_in e) units → (IsInputNormalized e d form units → ⊥) →
        IsInputCut e d form units n → IsInputCut e d form (units ++ more) m → m ≤ n }
    ensures differs { (e : Encoding) (d : Reading) (form : Form) → SuitsForm d form → (units more : List ℕ) →
        IsWellFormed (first_in e) units → (IsInputNormalized e d form units → ⊥) →
        IsInputNormalized e d form (units ++ more) → ⊥ }
    ensures offence { (e : Encoding) (d : Reading) (form : Form) → SuitsForm d form → HasNonemptyLists d →
        (units more : List ℕ) (n found wanted : ℕ) → IsWellFormed (first_in e) units →
        IsInputOffence e d form units n found wanted →
        (m : ℕ) × (found' : ℕ) × (wanted' : ℕ) × IsInputOffence e d form (units ++ more) m found' wanted' × (m ≤ n) }
{}

/// A well-formed input is normalized if and only if its text is. Its cut and its first mismatch are those of its text:
/// after the units of as many characters.
pub fn well_formed_input_goes_by_its_text()
    ensures normalized { (e : Encoding) (d : Reading) (form : Form) (units : List ℕ) → IsWellFormed (first_in e) units →
        IsInputNormalized e d form units ↔ IsNormalized d form (decoded_in e units) }
    ensures cut { (e : Encoding) (d : Reading) (form : Form) (units : List ℕ) (n k : ℕ) →
        IsWellFormed (first_in e) units → IsCut d form (decoded_in e units) k →
        IsInputCut e d form units n ↔ (n ≡ length (encoded_in e (take k (decoded_in e units)))) }
    ensures offence { (e : Encoding) (d : Reading) (form : Form) (units : List ℕ) (place found wanted : ℕ) →
        IsWellFormed (first_in e) units → IsInputOffence e d form units place found wanted ↔
        ((k : ℕ) × IsFirstOffence d form (decoded_in e units) k found wanted ×
        (place ≡ length (encoded_in e (take k (decoded_in e units))))) }
    ensures cut_characters { (e : Encoding) (d : Reading) (form : Form) (units : List ℕ) (n : ℕ) →
        IsWellFormed (first_in e) units → IsInputCut e d form units n →
        IsCut d form (decoded_in e units) (characters_before e units n) }
    ensures offence_characters { (e : Encoding) (d : Reading) (form : Form) (units : List ℕ) (n found wanted : ℕ) →
        IsWellFormed (first_in e) units → IsInputOffence e d form units n found wanted →
        IsFirstOffence d form (decoded_in e units) (characters_before e units n) found wanted }
{}

/// A `str` is cut after the bytes of as many characters as come before the cut of its text, and its first mismatch is
/// there too.
pub fn str_goes_by_its_characters(text: &str)
    ensures normalized { (d : Reading) (form : Form) →
        IsInputNormalized Encoding.Utf8 d form text.now ↔ IsNormalized d form (chars text.now) }
    ensures cut { (d : Reading) (form : Form) (n k : ℕ) → IsCut d form (chars text.now) k →
        IsInputCut Encoding.Utf8 d form text.now n ↔ (n ≡ length (encode_utf8_all (take k (chars text.now)))) }
    ensures offence { (d : Reading) (form : Form) (place found wanted : ℕ) →
        IsInputOffence Encoding.Utf8 d form text.now place found wanted ↔
        ((k : ℕ) × IsFirstOffence d form (chars text.now) k found wanted ×
        (place ≡ length (encode_utf8_all (take k (chars text.now))))) }
{}

/// An input is well-formed and normalized if and only if it is the encoding of the form of what it decodes to.
pub fn normalized_input_is_its_encoded_form()
    ensures { (e : Encoding) (d : Reading) (form : Form) → HasTextLists d → HasScalarResults d → (units : List ℕ) →
        IsInputNormalized e d form units ↔ (encoded_form e d form units ≡ units) }
{}

/// The first characters of the form, encoded, are at the beginning of an input if an error-free boundary with as
/// many characters before it ends a common prefix of the decoded text and its form. The longest such prefix ends at the
/// cut.
pub fn encoded_front_ends_at_boundary()
    ensures exactly { (e : Encoding) (d : Reading) (form : Form) → HasTextLists d → HasScalarResults d →
        (units : List ℕ) (n k : ℕ) →
        IsEncodedFront e d form units n k ↔ (IsErrorFreeBoundary e units n × (characters_before e units n ≡ k) ×
        IsCommonFront (decoded_in e units) (normal_form d form (decoded_in e units)) k) }
    ensures stands { (e : Encoding) (d : Reading) (form : Form) (units : List ℕ) (n k : ℕ) →
        IsEncodedFront e d form units n k ↔ ((k ≤ length (normal_form d form (decoded_in e units))) ×
        IsFront (encoded_in e (take k (normal_form d form (decoded_in e units)))) units ×
        (n ≡ length (encoded_in e (take k (normal_form d form (decoded_in e units)))))) }
    ensures fewer { (e : Encoding) (d : Reading) (form : Form) (units : List ℕ) (n k j : ℕ) →
        IsEncodedFront e d form units n k → j ≤ k → (m : ℕ) × IsEncodedFront e d form units m j × (m ≤ n) }
    ensures longest { (e : Encoding) (d : Reading) (form : Form) → SuitsForm d form → HasTextLists d →
        HasScalarResults d → (units : List ℕ) (n k : ℕ) → IsEncodedFront e d form units n k →
        ((m : ℕ) → IsEncodedFront e d form units m (suc k) → ⊥) → IsInputCut e d form units n }
    ensures at_cut { (e : Encoding) (d : Reading) (form : Form) → SuitsForm d form → (units : List ℕ) (n : ℕ) →
        IsInputCut e d form units n → IsEncodedFront e d form units n (characters_before e units n) }
{}

/// If the encoded form of a front up to a boundary is at the beginning of the input, that prefix is well-formed and
/// normalized. So no input is a proper extension of its encoded form.
pub fn offered_input()
    ensures front { (e : Encoding) (d : Reading) (form : Form) → SuitsForm d form → HasNonemptyLists d →
        HasTextLists d → HasScalarResults d → (units : List ℕ) (n : ℕ) → IsBoundary (first_in e) units n →
        IsFront (encoded_form e d form (take n units)) units → IsInputNormalized e d form (take n units) }
    ensures whole { (e : Encoding) (d : Reading) (form : Form) → SuitsForm d form → HasNonemptyLists d →
        HasTextLists d → HasScalarResults d → (units : List ℕ) →
        IsFront (encoded_form e d form units) units → encoded_form e d form units ≡ units }
{}

/// What is between two boundaries at or before the first error is well-formed and decodes apart.
pub fn units_between_boundaries()
    ensures well_formed { (e : Encoding) (units : List ℕ) (n m : ℕ) → IsErrorFreeBoundary e units n →
        IsErrorFreeBoundary e units m → n ≤ m → IsWellFormed (first_in e) (slice_range units n m) }
    ensures text { (e : Encoding) (units : List ℕ) (n m : ℕ) → IsErrorFreeBoundary e units n →
        IsErrorFreeBoundary e units m → n ≤ m → decoded_in e units ≡
        decoded_in e (take n units) ++ decoded_in e (slice_range units n m) ++ decoded_in e (drop m units) }
{}

/// For every reading, bytes that end within a character are not well-formed, and may become so by what is appended:
/// the law of continuations holds only for well-formed inputs.
pub fn broken_sequence_may_be_completed()
    ensures broken { (d : Reading) (form : Form) → IsInputNormalized Encoding.Utf8 d form (0xE2 ∷ 0x98 ∷ []) → ⊥ }
    ensures completed { (d : Reading) (form : Form) → IsNormalized d form (0x2603 ∷ []) →
        IsInputNormalized Encoding.Utf8 d form (0xE2 ∷ 0x98 ∷ 0x83 ∷ []) }
{}

/// An error cuts an input whose text is normalized, and there the character found is the one expected.
pub fn error_may_be_found_as_wanted()
    ensures { (d : Reading) (form : Form) → SuitsForm d form → IsNormalized d form (0x61 ∷ 0xFFFD ∷ 0x61 ∷ []) →
        IsInputOffence Encoding.Utf8 d form (0x61 ∷ 0xFF ∷ 0x61 ∷ []) 1 0xFFFD 0xFFFD }
{}
