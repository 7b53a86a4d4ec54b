//! The questions of rows, one per line.
use crate::files;
use rows_questions::language::fault::{Answer, Fault};
use rows_questions::language::held::Held;
use rows_questions::language::printing::{building, spelled_bool};
use rows_questions::language::setting::Setting;
use rows_questions::language::words::first_of;
use rows_questions::{calls, data, decoding, properties, record_questions};
use std::alloc::Global;

/// The result of a question.
pub fn answer(setting: &mut Setting, question: &[&str]) -> Answer {
    let alloc = setting.alloc;
    let (name, rest) = first_of(question)?;
    match name {
        "nfd" | "nfc" | "nfkd" | "nfkc" => of_form(setting, "form", question),
        "is" | "split" | "offence" | "owned" => of_form(setting, name, rest),
        "compose" => properties::composite(alloc, setting, rest),
        "read"
        | "table"
        | "build-files"
        | "by-files"
        | "by-records"
        | "by-prepared"
        | "prepared"
        | "text" => files::asked(setting, "after", name, rest),
        "build" if rest.is_empty() => building(alloc, setting.refusal()),
        "record" => record_questions::record(alloc, &setting.records, rest),
        "mapper" => record_questions::mapper_record(alloc, &setting.mapper, rest),
        "count" => record_questions::count(alloc, setting, rest),
        "said" if matches!(rest, ["build"]) => record_questions::said(setting),
        "decode" => decoding::decoded(alloc, rest),
        "head" => decoding::head(alloc, rest),
        "every" => decoding::every(alloc, rest),
        "ranges" => data::ranges(alloc, rest),
        "pairs" => data::pairs(alloc, rest),
        _ => of_data(alloc, setting.held()?, name, rest),
    }
}

/// The result of a question about an input.
fn of_form(setting: &mut Setting, name: &str, question: &[&str]) -> Answer {
    let (form, input) = first_of(question)?;
    calls::asked(setting.alloc, setting.normalizer(form)?, name, input)
}

/// The result of a question about data.
fn of_data(alloc: Global, held: &Held, name: &str, rest: &[&str]) -> Answer {
    match name {
        "unchecked" => calls::unchecked(alloc, held, rest),
        "map" | "validate" => calls::mapping(alloc, held, name, rest),
        "virama" => properties::virama(alloc, held, rest),
        "class" => properties::class(alloc, held, rest),
        "decompose" => properties::step(alloc, held, rest),
        "shaped" => properties::shaped(alloc, held, rest),
        "try" => data::constructed(alloc, held, rest),
        "said" => data::said(alloc, held, rest),
        "check" => data::checked(alloc, held, rest),
        "word" => data::word(alloc, held, rest),
        "cap" => data::cap(alloc, held, rest),
        "joined" => data::joined(alloc, held, rest),
        "never-second" => data::never_second(alloc, held, rest),
        "blocks" => data::counted(alloc, held, rest),
        "lists" => data::lists(alloc, held, rest),
        "same" => data::same(alloc, held, rest),
        "copies" => spelled_bool(alloc, data::are_copied(held)?),
        _ => Err(Fault::Unreadable),
    }
}
