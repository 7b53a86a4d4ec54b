//! Data made by hand, by rows such as `range nfd 1161..1175 80000000`. A part that no row sets is not held, and neither
//! is one after `no nfd words`, `no nfd lists` or `no pairs`.
use crate::language::fault::Fault;
use crate::language::words::{Spelled, all, character, hexadecimal, only};
use icu_normalizer::{
    CanonicalCompositions, CodePointTable, DecompositionData, DecompositionTables,
    NonRecursiveDecompositionSupplement, Scalars16, Scalars24,
};
use std::alloc::{AllocError, Global};

/// First number, last number and word.
pub type Range = (u32, u32, u32);

/// Second character, first character and composite.
pub type Pair = (char, char, char);

/// What rows set.
#[derive(Clone, Drop)]
pub struct ByHand {
    pub canonical: Part,
    pub compatibility: Part,
    pub mapper: Part,
    pub supplement: Part,
    pairs: Option<Vec<Pair>>,
}

impl ByHand {
    /// What no rows set.
    pub fn nothing(alloc: Global) -> ByHand {
        ByHand {
            canonical: Part::nothing(alloc),
            compatibility: Part::nothing(alloc),
            mapper: Part::nothing(alloc),
            supplement: Part::nothing(alloc),
            pairs: None,
        }
    }

    /// Takes a row that sets a part, or removes one. One that has a fault sets nothing.
    pub fn take(&mut self, alloc: Global, row: &[&str]) -> Result<(), Fault> {
        match row {
            ["no", "pairs"] => self.pairs = None,
            ["pairs", characters @ ..] => {
                self.pairs = Some(pairs_of(alloc, characters)?);
            }
            ["pair", characters @ ..] => self.take_pairs(alloc, pairs_of(alloc, characters)?)?,
            [name, "nfd", rest @ ..] => self.canonical.take(alloc, name, rest)?,
            [name, "nfkd", rest @ ..] => self.compatibility.take(alloc, name, rest)?,
            [name, "uts46", rest @ ..] => self.mapper.take(alloc, name, rest)?,
            [name, "supplement", rest @ ..] => self.supplement.take(alloc, name, rest)?,
            _ => return Err(Fault::Unreadable),
        }
        Ok(())
    }

    fn take_pairs(&mut self, alloc: Global, mut more: Vec<Pair>) -> Result<(), Fault> {
        let mut pairs = self.pairs.take().unwrap_or(Vec::new(alloc));
        pairs.append(&mut more)?;
        self.pairs = Some(pairs);
        Ok(())
    }

    /// The pairs.
    pub fn compositions(&self) -> Result<Option<CanonicalCompositions>, Fault> {
        match &self.pairs {
            Some(pairs) => Ok(Some(CanonicalCompositions::from_pairs(pairs.clone()?)?)),
            None => Ok(None),
        }
    }
}

/// What rows set of one kind of data.
#[derive(Clone, Drop)]
pub struct Part {
    has_words: bool,
    ranges: Vec<Range>,
    past: u32,
    cap: u16,
    has_lists: bool,
    scalars16: Vec<u16>,
    scalars24: Vec<char>,
}

impl Part {
    fn nothing(alloc: Global) -> Part {
        Part {
            has_words: false,
            ranges: Vec::new(alloc),
            past: 0,
            cap: 0,
            has_lists: false,
            scalars16: Vec::new(alloc),
            scalars24: Vec::new(alloc),
        }
    }

    fn take(&mut self, alloc: Global, name: &str, rest: &[&str]) -> Result<(), Fault> {
        match name {
            "range" => self.ranges = with_range(alloc, &self.ranges, range_of(rest)?)?,
            "cap" => self.cap = u16::read(only(rest)?)?,
            "past" => self.past = hexadecimal(only(rest)?)?,
            "scalars16" => self.scalars16 = all(alloc, rest)?,
            "scalars24" => self.scalars24 = all(alloc, rest)?,
            "no" => return self.take_none(only(rest)?),
            _ => return Err(Fault::Unreadable),
        }
        if name.starts_with("scalars") {
            self.has_lists = true;
        } else {
            self.has_words = true;
        }
        Ok(())
    }

    fn take_none(&mut self, part: &str) -> Result<(), Fault> {
        match part {
            "lists" => self.has_lists = false,
            "words" => {
                self.has_words = false;
                self.ranges.clear();
            }
            _ => return Err(Fault::Unreadable),
        }
        Ok(())
    }

    fn table(&self) -> Result<Option<CodePointTable>, Fault> {
        if !self.has_words {
            return Ok(None);
        }
        Ok(Some(CodePointTable::from_ranges(self.ranges.clone()?, self.past)?))
    }

    /// The words, as data.
    pub fn data(&self) -> Result<Option<DecompositionData>, Fault> {
        let passthrough_cap = self.cap;
        Ok(
            self.table()?.map(|table| DecompositionData {
                table,
                passthrough_cap,
            }),
        )
    }

    /// The lists, as tables.
    pub fn tables(&self) -> Result<Option<DecompositionTables>, Fault> {
        if !self.has_lists {
            return Ok(None);
        }
        let scalars16 = self.scalars16.clone()?;
        Ok(Some(DecompositionTables {
            scalars16: Scalars16::from(scalars16),
            scalars24: Scalars24::from(self.scalars24.clone()?),
        }))
    }

    /// The words and the characters, as a supplement.
    pub fn supplement(&self) -> Result<Option<NonRecursiveDecompositionSupplement>, Fault> {
        let scalars24 = Scalars24::from(self.scalars24.clone()?);
        Ok(self.table()?.map(|table| NonRecursiveDecompositionSupplement { table, scalars24 }))
    }
}

/// The numbers that a word such as `1161..1175` says, or that of one alone, twice.
pub fn numbers(word: &str) -> Result<(u32, u32), Fault> {
    let (first, last) = word.split_once("..").unwrap_or((word, word));
    Ok((hexadecimal(first)?, hexadecimal(last)?))
}

/// The range and the word that two words say.
fn range_of(words: &[&str]) -> Result<Range, Fault> {
    let [range, word] = words else {
        return Err(Fault::Unreadable);
    };
    let (first, last) = numbers(range)?;
    Ok((first, last, hexadecimal(word)?))
}

/// The ranges that words say, by two each.
pub fn ranges_of(alloc: Global, words: &[&str]) -> Result<Vec<Range>, Fault> {
    let mut ranges = Vec::new(alloc);
    for two in words.chunks(2) {
        ranges.push(range_of(two)?)?;
    }
    Ok(ranges)
}

/// The ranges, with the word of one in place of those that its numbers had.
fn with_range(alloc: Global, ranges: &[Range], range: Range) -> Result<Vec<Range>, AllocError> {
    let mut all = Vec::new(alloc);
    for &(first, last, word) in ranges {
        if first < range.0 {
            all.push((first, last.min(range.0 - 1), word))?;
        }
    }
    all.push(range)?;
    for &(first, last, word) in ranges {
        if range.1 < last {
            all.push((first.max(range.1 + 1), last, word))?;
        }
    }
    Ok(all)
}

/// The pairs that words say by three characters each.
pub fn pairs_of(alloc: Global, characters: &[&str]) -> Result<Vec<Pair>, Fault> {
    let mut pairs = Vec::new(alloc);
    for three in characters.chunks(3) {
        let [second, first, composite] = three else {
            return Err(Fault::Unreadable);
        };
        pairs.push((character(second)?, character(first)?, character(composite)?))?;
    }
    Ok(pairs)
}
