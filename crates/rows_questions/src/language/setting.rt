//! What questions are about: records, and data that they build or that rows make by hand.
use crate::language::by_hand::{ByHand, numbers};
use crate::language::fault::Fault;
use crate::language::held::Held;
use crate::language::record_rows::{mapper_record_of, record_of, records_of};
use crate::language::words::{character, form_named, words};
use icu_normalizer::{
    AnyNormalizer, BuildError, FormData, NormalForm, Record, Records, Uts46Record,
};
use normtool_command::{mapper_records, records};
use std::alloc::Global;

/// What questions are about.
pub struct Setting {
    pub alloc: Global,
    /// The records that rows set.
    pub records: Vec<Record>,
    /// The records of the mapper that rows set.
    pub mapper: Vec<Uts46Record>,
    by_hand: ByHand,
    is_by_hand: bool,
    held: Held,
    is_held: bool,
    normalizer: Option<(NormalForm, AnyNormalizer)>,
}

// Written out, so that each place that drops one makes one call.
impl Drop for Setting {
    fn drop(self) {
        let Setting {
            alloc: _alloc,
            records: _records,
            mapper: _mapper,
            by_hand: _by_hand,
            is_by_hand: _is_by_hand,
            held: _held,
            is_held: _is_held,
            normalizer: _normalizer,
        } = self;
    }
}

impl Setting {
    /// No records, and no data by hand.
    pub fn new(alloc: Global) -> Setting {
        Setting {
            alloc,
            records: Vec::new(alloc),
            mapper: Vec::new(alloc),
            by_hand: ByHand::nothing(alloc),
            is_by_hand: true,
            held: Held::nothing(),
            is_held: false,
            normalizer: None,
        }
    }

    /// The setting for one question: data by hand with further rows.
    pub fn edited(&self, edits: &str) -> Result<Setting, Fault> {
        let mut edited = Setting::new(self.alloc);
        edited.by_hand = self.by_hand.clone()?;
        for edit in edits.split(" and ") {
            edited.by_hand.take(self.alloc, &words(self.alloc, edit)?)?;
        }
        Ok(edited)
    }

    /// Takes a row that sets records, or a part of data by hand. One that has a fault sets nothing.
    pub fn give(&mut self, row: &str) -> Result<(), Fault> {
        self.is_by_hand = self.take(&words(self.alloc, row)?)?;
        self.is_held = false;
        self.normalizer = None;
        Ok(())
    }

    /// Takes a row, and returns whether it is one of data by hand.
    fn take(&mut self, row: &[&str]) -> Result<bool, Fault> {
        let alloc = self.alloc;
        match row {
            ["record", c, rest @ ..] => self
                .records
                .push(record_of(alloc, character(c)?, rest, 0)?)?,
            ["mapper", c, rest @ ..] => self
                .mapper
                .push(mapper_record_of(alloc, character(c)?, rest)?)?,
            ["records", "rows"] => {
                self.records = records(alloc)?;
                self.mapper = mapper_records(alloc)?;
            }
            ["records", "none"] => {
                self.records.clear();
                self.mapper.clear();
            }
            ["records", range, rest @ ..] => {
                self.records
                    .append(&mut records_of(alloc, numbers(range)?, rest)?)?;
            }
            ["data", "none"] => self.by_hand = ByHand::nothing(alloc),
            row => self.by_hand.take(alloc, row)?,
        }
        Ok(!matches!(row, ["record" | "mapper" | "records", ..]))
    }

    /// Why the records build no data.
    pub fn refusal(&self) -> Option<BuildError> {
        Records::build(self.alloc, &self.records, &self.mapper).err()
    }

    /// The data, which are made once.
    pub fn held(&mut self) -> Result<&Held, Fault> {
        if !self.is_held {
            self.make()?;
            self.is_held = true;
        }
        Ok(&self.held)
    }

    fn make(&mut self) -> Result<(), Fault> {
        if self.is_by_hand {
            return self.held.take_by_hand(&self.by_hand);
        }
        match Records::build(self.alloc, &self.records, &self.mapper) {
            Ok(built) => self.held.take_built(&built),
            Err(error) => Err(Fault::from(error)),
        }
    }

    /// The normalizer to the form of this name, which is kept while the form is the same.
    pub fn normalizer(&mut self, name: &str) -> Result<&AnyNormalizer, Fault> {
        let form = form_named(name)?;
        if !matches!(&self.normalizer, Some((made, _)) if *made == form) {
            self.normalizer = Some((form, self.held()?.normalizer(form)?));
        }
        match &self.normalizer {
            Some((_, normalizer)) => Ok(normalizer),
            None => Err(Fault::Unreadable),
        }
    }
}
