//! Words of a row, and the characters, bytes, numbers and forms that they say.
use crate::language::fault::Fault;
use icu_normalizer::NormalForm;
use std::alloc::Global;

/// The words of a text. `3*0308` means `0308 0308 0308`, and `2*0308,0323` for `0308 0323 0308 0323`.
pub fn words<'a>(alloc: Global, text: &'a str) -> Result<Vec<&'a str>, Fault> {
    let mut words = Vec::new(alloc);
    for word in text.split_whitespace() {
        match word.split_once('*') {
            Some((count, pieces)) => push_times(&mut words, decimal(count)?, pieces)?,
            None => words.push(word)?,
        }
    }
    Ok(words)
}

fn push_times<'a>(words: &mut Vec<&'a str>, count: u32, pieces: &'a str) -> Result<(), Fault> {
    for _ in 0..count {
        for piece in pieces.split(',') {
            words.push(piece)?;
        }
    }
    Ok(())
}

/// The word, if there is one and no other.
pub fn only<'a>(words: &[&'a str]) -> Result<&'a str, Fault> {
    match words {
        [word] => Ok(*word),
        _ => Err(Fault::Unreadable),
    }
}

/// The first word, and the others.
pub fn first_of<'w, 'a>(words: &'w [&'a str]) -> Result<(&'a str, &'w [&'a str]), Fault> {
    match words {
        [first, others @ ..] => Ok((*first, others)),
        [] => Err(Fault::Unreadable),
    }
}

/// The number of decimal digits.
pub fn decimal(digits: &str) -> Result<u32, Fault> {
    Ok(u32::from_str_radix(digits, 10)?)
}

/// The number of hexadecimal digits.
pub fn hexadecimal(digits: &str) -> Result<u32, Fault> {
    Ok(u32::from_str_radix(digits, 16)?)
}

/// The character of a number in hexadecimal digits.
pub fn character(digits: &str) -> Result<char, Fault> {
    char::from_u32(hexadecimal(digits)?).ok_or(Fault::Unreadable)
}

/// What rows write by its number in hexadecimal digits.
pub trait Spelled: Copy + Drop {
    /// What the digits say.
    fn read(digits: &str) -> Result<Self, Fault>;

    /// The digits.
    fn spelled(self, alloc: Global) -> Result<String, Fault>;
}

impl Spelled for char {
    fn read(digits: &str) -> Result<char, Fault> {
        character(digits)
    }

    fn spelled(self, alloc: Global) -> Result<String, Fault> {
        Ok(format!(in alloc; "{:04X}", u32::from(self))?)
    }
}

impl Spelled for u8 {
    fn read(digits: &str) -> Result<u8, Fault> {
        Ok(u8::from_str_radix(digits, 16)?)
    }

    fn spelled(self, alloc: Global) -> Result<String, Fault> {
        Ok(format!(in alloc; "{:02X}", self)?)
    }
}

impl Spelled for u16 {
    fn read(digits: &str) -> Result<u16, Fault> {
        Ok(u16::from_str_radix(digits, 16)?)
    }

    fn spelled(self, alloc: Global) -> Result<String, Fault> {
        Ok(format!(in alloc; "{:04X}", self)?)
    }
}

/// The characters, bytes or units that words say.
pub fn all<T: Spelled>(alloc: Global, words: &[&str]) -> Result<Vec<T>, Fault> {
    let mut all = Vec::new(alloc);
    for word in words {
        all.push(T::read(word)?)?;
    }
    Ok(all)
}

/// Characters, bytes or units with a space between each two.
pub fn spelled_all<T: Spelled>(alloc: Global, all: &[T]) -> Result<String, Fault> {
    let mut text = String::new(alloc);
    for one in all {
        if !text.is_empty() {
            text.push(' ')?;
        }
        text.push_str(one.spelled(alloc)?.as_str())?;
    }
    Ok(text)
}

/// The form of this name.
pub fn form_named(name: &str) -> Result<NormalForm, Fault> {
    match name {
        "nfd" => Ok(NormalForm::Nfd),
        "nfc" => Ok(NormalForm::Nfc),
        "nfkd" => Ok(NormalForm::Nfkd),
        "nfkc" => Ok(NormalForm::Nfkc),
        _ => Err(Fault::Unreadable),
    }
}
