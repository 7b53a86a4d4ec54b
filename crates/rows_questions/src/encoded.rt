//! What the calls of a normalizer return for an input, in each of the three encodings.
use crate::language::fault::{Fault, agreed};
use crate::language::input::Input;
use crate::language::items::are;
use icu_normalizer::{AnyNormalizerBorrowed as Normalizer, Chars, NormalizeError, Offence, Units};
use std::alloc::Global;
use std::borrow::{CowSlice, CowStr};

/// What the calls return for an input. Places are in its units.
#[derive(Drop, PartialEq)]
pub struct Results {
    /// The form.
    pub form: Vec<char>,
    /// Whether the input is well-formed and normalized, so that the form is the input, borrowed.
    pub is_own: bool,
    /// How many units may be cut off.
    pub cut: usize,
    /// The first mismatch.
    pub offence: Option<Offence>,
}

/// A text in an encoding.
#[derive(Clone, Copy)]
pub enum Encoded<'t> {
    Text(&'t str),
    Bytes(&'t [u8]),
    Units(&'t [u16]),
}

impl<'t> Encoded<'t> {
    /// An input as a row has it.
    pub fn of(input: &'t Input) -> Encoded<'t> {
        match input {
            Input::Text(text) => Encoded::Text(text.as_str()),
            Input::Bytes(bytes) => Encoded::Bytes(bytes.as_slice()),
            Input::Units(units) => Encoded::Units(units.as_slice()),
        }
    }

    fn len(self) -> usize {
        match self {
            Encoded::Text(text) => text.len(),
            Encoded::Bytes(bytes) => bytes.len(),
            Encoded::Units(units) => units.len(),
        }
    }

    /// How many characters it has, if it is well-formed and these begin with them.
    fn count_in(self, characters: &[char]) -> Option<usize> {
        match self {
            Encoded::Text(text) => count_in(text, characters),
            Encoded::Bytes(bytes) => count_in(str::from_utf8(bytes).ok()?, characters),
            Encoded::Units(units) if is_utf16(units) => count_in(units, characters),
            Encoded::Units(_) => None,
        }
    }

    /// Whether it is well-formed, and these are its characters.
    fn is(self, characters: &[char]) -> bool {
        self.count_in(characters) == Some(characters.len())
    }

    /// The characters of the form.
    fn form(self, alloc: Global, normalizer: &Normalizer<'_>) -> Result<Vec<char>, NormalizeError> {
        match self {
            Encoded::Text(text) => normalizer.form_of_characters(alloc, Chars::new(text)),
            Encoded::Bytes(bytes) => normalizer.form_of_characters(alloc, Chars::new(bytes)),
            Encoded::Units(units) => normalizer.form_of_characters(alloc, Chars::new(units)),
        }
    }

    /// Makes the call of a normalizer that has this name, and returns whether its result goes with the form. This
    /// allocates nothing else.
    ///
    /// # Errors
    /// [`Fault::Memory`] if the call returned it, and left a beginning of the form in a sink; [`Fault::MemoryOfItem`]
    /// if it is the only item of an iterator.
    pub fn agrees(
        self,
        alloc: Global,
        normalizer: &Normalizer<'_>,
        call: &str,
        form: &[char],
    ) -> Result<bool, Fault> {
        let is_own = self.is(form);
        match call {
            "normalize" => self.is_returned(normalizer, form),
            "normalize_to" => self.is_written(alloc, normalizer, "", form),
            "normalize_iter" => self.is_yielded(normalizer, form),
            "is_normalized" => Ok(is_own == self.is_normalized(normalizer)?),
            "split_normalized" => Ok(is_own == (self.cut(normalizer)? == self.len())),
            "first_offence" => Ok(is_own == self.offence(normalizer)?.is_none()),
            _ => Err(Fault::Unreadable),
        }
    }

    /// Whether the form is returned, borrowed if it is the text.
    fn is_returned(self, normalizer: &Normalizer<'_>, form: &[char]) -> Result<bool, Fault> {
        let (is_form, is_borrowed) = match self {
            Encoded::Text(text) => of_returned_text(normalizer.normalize(text)?, form),
            Encoded::Bytes(bytes) => of_returned_text(normalizer.normalize_utf8(bytes)?, form),
            Encoded::Units(units) => {
                let returned = normalizer.normalize_utf16(units)?;
                let is_borrowed = matches!(returned, CowSlice::Borrowed(_));
                (Encoded::Units(returned.as_slice()).is(form), is_borrowed)
            }
        };
        Ok(is_form && is_borrowed == self.is(form))
    }

    /// Whether the form is written to a sink after what is there, which makes it this text. A failed write leaves a
    /// beginning of that. Besides the sink this allocates nothing else.
    fn is_written(
        self,
        alloc: Global,
        normalizer: &Normalizer<'_>,
        before: &str,
        text: &[char],
    ) -> Result<bool, Fault> {
        match self {
            Encoded::Text(input) => {
                let mut sink = String::from_str(alloc, before)?;
                let written = normalizer.normalize_to(input, &mut sink);
                Encoded::Text(&sink).holds(written, text)
            }
            Encoded::Bytes(input) => {
                let mut sink = String::from_str(alloc, before)?;
                let written = normalizer.normalize_utf8_to(input, &mut sink);
                Encoded::Text(&sink).holds(written, text)
            }
            Encoded::Units(input) => {
                let mut sink: Vec<u16> = before.encode_utf16().collect(alloc)?;
                let written = normalizer.normalize_utf16_to(input, &mut sink);
                Encoded::Units(&sink).holds(written, text)
            }
        }
    }

    /// Whether a sink holds all of a text, or after a fault a beginning of it.
    fn holds(self, written: Result<(), NormalizeError>, text: &[char]) -> Result<bool, Fault> {
        match (self.count_in(text), written) {
            (Some(count), Ok(())) => Ok(count == text.len()),
            (Some(_), Err(_)) => Err(Fault::Memory),
            (None, _) => Ok(false),
        }
    }

    /// Whether the iterator over the characters yields the form.
    fn is_yielded(self, normalizer: &Normalizer<'_>, form: &[char]) -> Result<bool, Fault> {
        match self {
            Encoded::Text(text) => are_yielded(normalizer, Chars::new(text), form),
            Encoded::Bytes(bytes) => are_yielded(normalizer, Chars::new(bytes), form),
            Encoded::Units(units) => are_yielded(normalizer, Chars::new(units), form),
        }
    }

    fn is_normalized(self, normalizer: &Normalizer<'_>) -> Result<bool, NormalizeError> {
        match self {
            Encoded::Text(text) => normalizer.is_normalized(text),
            Encoded::Bytes(bytes) => normalizer.is_normalized_utf8(bytes),
            Encoded::Units(units) => normalizer.is_normalized_utf16(units),
        }
    }

    /// The length of the prefix that may be cut off, if the two parts are the input.
    fn cut(self, normalizer: &Normalizer<'_>) -> Result<usize, Fault> {
        let (cut, are_the_input) = match self {
            Encoded::Text(text) => {
                let (front, rest) = normalizer.split_normalized(text)?;
                (front.len(), text.strip_prefix(front) == Some(rest))
            }
            Encoded::Bytes(bytes) => {
                let (front, rest) = normalizer.split_normalized_utf8(bytes)?;
                let front = front.as_bytes();
                (front.len(), bytes.strip_prefix(front) == Some(rest))
            }
            Encoded::Units(units) => {
                let (front, rest) = normalizer.split_normalized_utf16(units)?;
                (front.len(), units.strip_prefix(front) == Some(rest))
            }
        };
        agreed(are_the_input)?;
        Ok(cut)
    }

    fn offence(self, normalizer: &Normalizer<'_>) -> Result<Option<Offence>, NormalizeError> {
        match self {
            Encoded::Text(text) => normalizer.first_offence(text),
            Encoded::Bytes(bytes) => normalizer.first_offence_utf8(bytes),
            Encoded::Units(units) => normalizer.first_offence_utf16(units),
        }
    }
}

/// How many characters a text has, if these begin with them.
fn count_in<U: Units>(text: U, characters: &[char]) -> Option<usize> {
    let mut count = 0usize;
    for character in Chars::new(text) {
        if characters.get(count) != Some(&character) {
            return None;
        }
        count = count.saturating_add(1);
    }
    Some(count)
}

/// Whether units are the UTF-16 of a text.
fn is_utf16(units: &[u16]) -> bool {
    for item in char::decode_utf16(units.iter().copied()) {
        if item.is_err() {
            return false;
        }
    }
    true
}

/// Whether a text that is returned is this form, and whether it is borrowed.
fn of_returned_text(returned: CowStr<'_, Global>, form: &[char]) -> (bool, bool) {
    let is_borrowed = matches!(returned, CowStr::Borrowed(_));
    (Encoded::Text(returned.as_str()).is(form), is_borrowed)
}

/// Whether the iterator over characters yields a form.
fn are_yielded<U: Units>(
    normalizer: &Normalizer<'_>,
    characters: Chars<U>,
    form: &[char],
) -> Result<bool, Fault> {
    match normalizer {
        Normalizer::Decomposing(n) => are(n.normalize_iter(characters)?, form),
        Normalizer::Composing(n) => are(n.normalize_iter(characters)?, form),
    }
}

/// The calls of a normalizer on an input.
const CALLS: [&str; 6] = [
    "normalize",
    "normalize_to",
    "normalize_iter",
    "is_normalized",
    "split_normalized",
    "first_offence",
];

/// What a sink holds before the form is written to it.
const BEFORE: &str = "held: ";

/// What the calls return, if they agree.
fn results_of(
    alloc: Global,
    normalizer: &Normalizer<'_>,
    input: Encoded<'_>,
) -> Result<Results, Fault> {
    let form = input.form(alloc, normalizer)?;
    for call in CALLS {
        agreed(input.agrees(alloc, normalizer, call, &form)?)?;
    }
    let mut written: Vec<char> = BEFORE.chars().collect(alloc)?;
    written.extend_from_slice(&form)?;
    agreed(input.is_written(alloc, normalizer, BEFORE, &written)?)?;
    Ok(Results {
        is_own: input.is(&form),
        form,
        cut: input.cut(normalizer)?,
        offence: input.offence(normalizer)?,
    })
}

/// What the calls return for an input in its encoding, or for a text in all three.
pub fn results_of_input(
    alloc: Global,
    normalizer: &Normalizer<'_>,
    input: &Input,
) -> Result<Results, Fault> {
    match input {
        Input::Text(text) => results_of_text(alloc, normalizer, text),
        Input::Bytes(_) | Input::Units(_) => results_of(alloc, normalizer, Encoded::of(input)),
    }
}

/// What the calls return for a text, if they agree in the three encodings.
fn results_of_text(
    alloc: Global,
    normalizer: &Normalizer<'_>,
    text: &str,
) -> Result<Results, Fault> {
    let of_text = results_of(alloc, normalizer, Encoded::Text(text))?;
    let units: Vec<u16> = text.encode_utf16().collect(alloc)?;
    let of_units = results_of(alloc, normalizer, Encoded::Units(&units))?;
    agreed(
        results_of(alloc, normalizer, Encoded::Bytes(text.as_bytes()))? == of_text
            && of_units.form == of_text.form
            && of_units.is_own == of_text.is_own
            && Some(of_units.cut) == in_units(text, of_text.cut)
            && of_units.offence == offence_in_units(text, of_text.offence),
    )?;
    Ok(of_text)
}

/// A place of a text in 16-bit units.
fn in_units(text: &str, place: usize) -> Option<usize> {
    Some(text.get(..place)?.encode_utf16().count())
}

fn offence_in_units(text: &str, offence: Option<Offence>) -> Option<Offence> {
    let offence = offence?;
    Some(Offence {
        place: in_units(text, offence.place)?,
        found: offence.found,
        wanted: offence.wanted,
    })
}
