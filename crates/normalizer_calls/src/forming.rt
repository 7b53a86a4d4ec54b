//! What the decomposing and the composing form differ in, as one trait: every call on text is written once over it.
ghost use Rattle.std.specs.Prelude.{◌≡◌, ◌↔◌, ◌∷◌, [], ℕ, List, Bool, true, false, IfNone, IfOk, IfSome};
ghost use Rattle.std.specs.Prelude.{All, IsTrue, IsOk, IsOkUnless, IsErrOf, MatchOption};
ghost use Rattle.std.specs.Char.{IsScalar};
ghost use Rattle.normal_forms.specs.ShortRuns.{HasShortRuns};
ghost use Rattle.normalizer_check.specs.RequiredConditions.{SuitsTexts};
ghost use Rattle.normalizer_tables.specs.Characters.{Characters};
ghost use Rattle.normalizer_tables.specs.Readings.{reading_by};
ghost use Rattle.normalizer_tables.specs.declared.characters.IgnoredCharacters.TheVariants.{Dropped};
ghost use Rattle.normalizer_text.specs.Encodings.{Encoding, decoded_in};
ghost use Rattle.normalizer_iterators.specs.LazyReading.{HasShortLazyRuns};
ghost use Rattle.normalizer_iterators.specs.Segment.{Agrees, IsDecomposed};
ghost use Rattle.normalizer_iterators.specs.declared.segment.SegmentBuffer.{SegmentBuffer};
ghost use Rattle.normalizer_calls.specs.BoundaryBefore.{HasBoundaryBefore};
ghost use Rattle.normalizer_calls.specs.Forms.{form_in, form_of, HasShortUnits, MadeForm};
ghost use Rattle.normalizer_calls.specs.inner.FormsLeft.{form_left, HoldsForm};
ghost use Rattle.normalizer_calls.specs.inner.Offences.{IsFirstOrNone};
ghost use Rattle.normalizer_calls.specs.inner.PassthroughRuns.{AreBytesOf};
ghost use Rattle.normalizer_calls.specs.inner.WrittenParts.{NothingOffered, WritesText};

use normalizer_iterators::{NormalizeError, SegmentBuffer};
use normalizer_passing::PassBytes;
use normalizer_tables::characters::CharacterData;
use normalizer_tables::members::Members;
use normalizer_text::Units;
use normalizer_text::output::Output;

/// A form with the data that it is made by.
pub trait Forming {
    /// The form, and the reading by which it is made.
    ghost made_form: { Self → MadeForm };

    /// The data by which segments are buffered: pairs don't matter.
    ghost read_by: { Self → Characters };

    /// Whether the last starter is held back, with the marks after it, if a character follows that doesn't pass.
    ghost held_back: { Bool };

    /// Which characters begin a new part.
    ghost beginning: { Self → ℕ → Bool };

    /// Returns the data by which segments are buffered.
    fn characters(&self) -> &CharacterData<'_>
        ensures { result.now ≡ read_by self.now };

    /// Returns the bytes by which characters pass.
    fn bytes(&self) -> &PassBytes
        ensures { let m = made_form self.now in AreBytesOf m.reading m.form held_back result.now };

    /// Whether a starter that passes may be changed by what follows it.
    fn holds_back(&self) -> bool
        ensures { result ≡ held_back };

    /// Whether what begins with a character is normalized apart from what comes before, and if so, whether a run may begin
    /// with it. It is looked up once.
    fn run_may_begin(&self, character: char) -> Option<bool>
        ensures { MatchOption result (beginning self.now character ≡ false) (λ _. beginning self.now character ≡ true) };

    /// Returns the list of a character, if that is its form.
    fn form_of_one(&self, character: char) -> Option<Members<'_>>
        ensures { IfSome result (λ list. form_of (made_form self.now) (character ∷ []) ≡ list) };

    /// Takes the next character of the form of what is buffered, if one is left.
    fn pop(&self, buffer: &mut SegmentBuffer) -> Option<char>
        ensures some { Agrees (made_form self.now).reading buffer.old → IfSome result (λ c.
            form_left (made_form self.now) buffer.old ≡ c ∷ form_left (made_form self.now) buffer.new) }
        ensures none { IfNone result (form_left (made_form self.now) buffer.old ≡ []) }
        ensures agrees { Agrees (made_form self.now).reading buffer.old → Agrees (made_form self.now).reading buffer.new };

    /// Does nothing: what is left of a buffer in canonical order is the form, and short runs are short without pairs.
    fn what_is_buffered_is_the_form(&self)
        ensures form { (e : Encoding) (units : List ℕ) (end : ℕ) (b : SegmentBuffer) →
            IsDecomposed (reading_by (read_by self.now) Dropped []) e units end b →
            HoldsForm (made_form self.now) e units end b }
        ensures short { (e : Encoding) (units : List ℕ) → HasShortUnits (made_form self.now) e units →
            HasShortLazyRuns (read_by self.now) Dropped (decoded_in e units) };

    /// Writes the form of what the units decode to as an iterator yields it.
    fn write_items<U: Units, O: Output<U>>(
        &self,
        units: U,
        output: &mut O,
    ) -> Result<(), NormalizeError>
        ensures text { WritesText U.encoding O.Output NothingOffered
            (form_in (made_form self.now) U.encoding (U.units units)) output.old result output.new }
        ensures room { HasShortUnits (made_form self.now) U.encoding (U.units units) →
            ¬ IsErrOf result NormalizeError.Memory };

    /// Returns the first character of the form of what the units decode to, if there is one.
    fn first_item<U: Units>(&self, units: U) -> Result<Option<char>, NormalizeError>
        ensures first { IfOk result (IsFirstOrNone (form_in (made_form self.now) U.encoding (U.units units))) }
        ensures room { HasShortUnits (made_form self.now) U.encoding (U.units units) → IsOk result }
        ensures refused { IsOkUnless result NormalizeError.Memory };

    /// Returns whether an iterator over the form of the characters that units are yields exactly these.
    fn is_own_by_items(&self, units: &[u32]) -> Result<bool, NormalizeError>
        requires { All IsScalar units.now }
        ensures own { let m = made_form self.now in IfOk result (λ own. IsTrue own ↔ (form_of m units.now ≡ units.now)) }
        ensures room { let m = made_form self.now in
            HasShortRuns m.has_class_form m.reading units.now → IsOk result }
        ensures refused { IsOkUnless result NormalizeError.Memory };

    /// The data satisfy the hypotheses of the laws of the form.
    ghost suits: { (f : Self) → SuitsTexts (made_form f).reading (made_form f).form };

    /// What begins a new part is normalized apart from what comes before.
    ghost apart: { (f : Self) → (c : ℕ) → IsScalar c → beginning f c ≡ true →
        HasBoundaryBefore (made_form f).reading (made_form f).form c };
}
