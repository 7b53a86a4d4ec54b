//! Questions about decoding: the characters of an input, from the beginning, from the back and in turn; the same of
//! bytes, also between letters; and how many strings of some bytes are decoded as by std: all.
use crate::language::fault::{Answer, Fault, agreed};
use crate::language::input::Input;
use crate::language::words::{all, decimal, first_of, spelled_all};
use icu_normalizer::{Chars, Units};
use std::alloc::Global;

/// The characters that an input decodes to.
pub fn decoded(alloc: Global, input: &[&str]) -> Answer {
    let characters = match Input::read(alloc, input)? {
        Input::Text(text) => from_everywhere(alloc, text.as_str())?,
        Input::Bytes(bytes) => from_everywhere(alloc, bytes.as_slice())?,
        Input::Units(units) => from_everywhere(alloc, units.as_slice())?,
    };
    spelled_all(alloc, &characters)
}

/// The characters from the beginning, if they are the same from the end and from both in turn.
fn from_everywhere<U: Units>(alloc: Global, units: U) -> Result<Vec<char>, Fault> {
    let front: Vec<char> = Chars::new(units).collect(alloc)?;
    agreed(Chars::new(units).rev().eq(front.iter().rev().copied()) && come_in_turn(units, &front))?;
    Ok(front)
}

/// Whether the characters come from the end and from the beginning in turn, and each time the others are left.
fn come_in_turn<U: Units>(units: U, characters: &[char]) -> bool {
    let mut chars = Chars::new(units);
    let mut left = characters;
    for place in 0..characters.len() {
        let parted = if place.is_multiple_of(2) {
            left.split_last()
        } else {
            left.split_first()
        };
        let Some((wanted, others)) = parted else {
            return false;
        };
        if next_in_turn(&mut chars, place) != Some(*wanted) || !is_left(&chars, others) {
            return false;
        }
        left = others;
    }
    chars.next().is_none() && chars.next_back().is_none()
}

fn next_in_turn<U: Units>(chars: &mut Chars<U>, place: usize) -> Option<char> {
    if place.is_multiple_of(2) {
        chars.next_back()
    } else {
        chars.next()
    }
}

fn is_left<U: Units>(chars: &Chars<U>, characters: &[char]) -> bool {
    let left = chars.as_slice();
    Units::is_empty(left) == characters.is_empty()
        && Chars::new(left).eq(characters.iter().copied())
}

/// What bytes decode to, if they do so in each place.
pub fn head(alloc: Global, input: &[&str]) -> Answer {
    let head: Vec<u8> = all(alloc, input)?;
    let alone = from_everywhere(alloc, head.as_slice())?;
    for (before, after) in [("", "b"), ("a", ""), ("a", "b")] {
        agreed(stands_between(alloc, before, (&head, &alone), after)?)?;
    }
    spelled_all(alloc, &alone)
}

/// Whether bytes between ASCII letters decode to these characters between the letters.
fn stands_between(
    alloc: Global,
    before: &str,
    head: (&[u8], &[char]),
    after: &str,
) -> Result<bool, Fault> {
    let mut bytes = before.as_bytes().to_vec(alloc)?;
    bytes.extend_from_slice(head.0)?;
    bytes.extend_from_slice(after.as_bytes())?;
    let text = from_everywhere(alloc, bytes.as_slice())?;
    let wanted = before
        .chars()
        .chain(head.1.iter().copied())
        .chain(after.chars());
    Ok(text.iter().copied().eq(wanted))
}

/// How many strings of some bytes, of this length, decode as in std.
pub fn every(alloc: Global, question: &[&str]) -> Answer {
    let (length, letters) = first_of(question)?;
    let letters: Vec<u8> = all(alloc, letters)?;
    let count = count_of_alike(alloc, decimal(length)?, &letters)?;
    Ok(format!(in alloc; "{count}")?)
}

fn count_of_alike(alloc: Global, length: u32, letters: &[u8]) -> Result<usize, Fault> {
    let mut count = 0usize;
    for number in 0..letters.len().saturating_pow(length) {
        if decodes_as_in_std(alloc, &string_of(alloc, number, length, letters)?)? {
            count = count.saturating_add(1);
        }
    }
    Ok(count)
}

/// The bytes whose places among the letters are the digits of a number.
fn string_of(alloc: Global, number: usize, length: u32, letters: &[u8]) -> Result<Vec<u8>, Fault> {
    let mut bytes = Vec::new(alloc);
    let mut rest = number;
    for _ in 0..length {
        let digit = rest.checked_rem(letters.len()).ok_or(Fault::Unreadable)?;
        bytes.push(*letters.get(digit).ok_or(Fault::Unreadable)?)?;
        rest = rest.checked_div(letters.len()).ok_or(Fault::Unreadable)?;
    }
    Ok(bytes)
}

fn decodes_as_in_std(alloc: Global, bytes: &[u8]) -> Result<bool, Fault> {
    let characters = from_everywhere(alloc, bytes)?;
    let text = String::from_utf8_lossy(alloc, bytes)?;
    Ok(text.as_str().chars().eq(characters.iter().copied()))
}
