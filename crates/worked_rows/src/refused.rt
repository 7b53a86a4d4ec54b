//! One call of the library, of which a script refuses a growth of memory.
use crate::comparison::difference;
use crate::files;
use rows_questions::language::fault::Fault;
use rows_questions::language::setting::Setting;
use rows_questions::single::make;
use std::alloc::Global;

/// What the status says: that the call returned something else than a fault.
const MADE: u8 = 0;

/// That the call returned that memory ran out, and left what it may.
const MEMORY: u8 = 1;

/// That the call made an iterator, whose only item was that memory ran out.
const MEMORY_OF_ITEM: u8 = 2;

/// That the call returned another fault, or left something else.
const WRONG: u8 = 3;

/// That what comes before the call was not as expected.
const NOT_MADE: u8 = 4;

/// That the row has not the expected result after the call.
const WRONG_AFTER: u8 = 6;

/// The status for a call of the last row, once the other rows have set its data. It stops `before` the call, or after
/// the `call`, or else `after` it compares the row.
pub fn status(alloc: Global, stop: &str, call: &str, rows: &[&str]) -> u8 {
    stopped(alloc, stop, call, rows).unwrap_or(NOT_MADE)
}

fn stopped(alloc: Global, stop: &str, call: &str, rows: &[&str]) -> Result<u8, Fault> {
    let mut setting = Setting::new(alloc);
    let (row, data) = rows.split_last().ok_or(Fault::Unreadable)?;
    for row in data {
        setting.give(row)?;
    }
    let made = match call {
        "table" | "by-files" | "by-records" | "by-prepared" => {
            files::make(&setting, stop, call, row)
        }
        _ => make(&mut setting, stop, call, row),
    };
    let status = match made {
        Err(Fault::Stopped) => return Ok(MADE),
        Ok(()) => MADE,
        Err(Fault::Memory) => MEMORY,
        Err(Fault::MemoryOfItem) => MEMORY_OF_ITEM,
        Err(_) => WRONG,
    };
    if stop == "call" || difference(&mut setting, row)? == None {
        Ok(status)
    } else {
        Ok(WRONG_AFTER)
    }
}
