//! Inputs as rows write them: characters `0061 0308`, or `bytes 61 CC 88`, or `units 0061 0308`.
use crate::language::fault::Fault;
use crate::language::words::{all, character, spelled_all};
use std::alloc::Global;

/// An input in one of the three encodings.
#[derive(Drop)]
pub enum Input {
    Text(String),
    Bytes(Vec<u8>),
    Units(Vec<u16>),
}

impl Input {
    /// The input that words spell.
    pub fn read(alloc: Global, words: &[&str]) -> Result<Input, Fault> {
        match words {
            ["bytes", input @ ..] => Ok(Input::Bytes(all(alloc, input)?)),
            ["units", input @ ..] => Ok(Input::Units(all(alloc, input)?)),
            characters => Ok(Input::Text(text(alloc, characters)?)),
        }
    }

    /// The two parts at a cut.
    pub fn spelled_parts(&self, alloc: Global, cut: usize) -> Result<String, Fault> {
        let (front, rest) = match self {
            Input::Text(text) => {
                let (front, rest) = text.split_at_checked(cut).ok_or(Fault::Divided)?;
                (spelled_text(alloc, front)?, spelled_text(alloc, rest)?)
            }
            Input::Bytes(bytes) => {
                let (front, rest) = bytes.split_at_checked(cut).ok_or(Fault::Divided)?;
                (spelled_all(alloc, front)?, spelled_all(alloc, rest)?)
            }
            Input::Units(units) => {
                let (front, rest) = units.split_at_checked(cut).ok_or(Fault::Divided)?;
                (spelled_all(alloc, front)?, spelled_all(alloc, rest)?)
            }
        };
        Ok(format!(in alloc; "{front} | {rest}")?)
    }
}

/// The text that words spell, a character each.
pub fn text(alloc: Global, words: &[&str]) -> Result<String, Fault> {
    let mut text = String::new(alloc);
    for word in words {
        text.push(character(word)?)?;
    }
    Ok(text)
}

/// The characters of a text.
fn spelled_text(alloc: Global, text: &str) -> Result<String, Fault> {
    let characters: Vec<char> = text.chars().collect(alloc)?;
    spelled_all(alloc, &characters)
}
