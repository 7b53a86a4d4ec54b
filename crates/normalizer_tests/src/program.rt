//! The program over other data than its own.
use icu_normalizer::{
    DataError, DataMarker, DataProvider, FormData, MappingData, NormalForm, Record, Records,
    Uts46Record, Uts46Status,
};
use normalizer_io::{Answer, Input, Output};
use normtool_command::arguments::Command;
use normtool_command::ending::ToolFault;
use normtool_command::run::run;
use std::alloc::Global;

/// Whether a run over data ends so, with this much of the input left and nothing written.
fn writes_nothing<P: FormData + MappingData>(
    alloc: Global,
    provider: &P,
    command: Command,
    input: &[u8],
    left: &[u8],
    outcome: Result<Answer, ToolFault>,
) -> bool {
    let mut reader = Input(input);
    let mut writer = Output(Vec::new(alloc));
    run(alloc, provider, command, &mut reader, &mut writer) == outcome
        && reader.0 == left
        && writer.0.is_empty()
}

/// A provider that holds nothing.
struct Lacking;

impl<M: DataMarker> DataProvider<M> for Lacking {
    ghost use Rattle.std.specs.Prelude.{None};

    ghost payload = { λ _. None };

    fn load(&self) -> Result<M::Data, DataError> {
        Err(DataError::Provider(M::INFO))
    }
}

const COMMANDS: [Command; 15] = [
    Command::Write(NormalForm::Nfd),
    Command::Write(NormalForm::Nfc),
    Command::Write(NormalForm::Nfkd),
    Command::Write(NormalForm::Nfkc),
    Command::Check(NormalForm::Nfd),
    Command::Check(NormalForm::Nfc),
    Command::Check(NormalForm::Nfkd),
    Command::Check(NormalForm::Nfkc),
    Command::Locate(NormalForm::Nfd),
    Command::Locate(NormalForm::Nfc),
    Command::Locate(NormalForm::Nfkd),
    Command::Locate(NormalForm::Nfkc),
    Command::Map,
    Command::Validate,
    Command::Label,
];

fn lacks_data(alloc: Global, command: Command) -> bool {
    writes_nothing(alloc, &Lacking, command, b"a", b"a", Err(ToolFault::Data))
}

#[test]
fn nothing_is_read_where_data_are_missing(rt: HostRuntime) {
    for command in COMMANDS {
        assert!(rt; lacks_data(rt.alloc(), command));
    }
}

/// A record with a canonical mapping, or with none if it is empty.
fn record(c: char, class: u8, mapping: Vec<char>) -> Record {
    Record {
        c,
        class,
        mapping,
        compatibility: false,
        excluded: false,
    }
}

/// Records by which mapping yields a letter with diaeresis.
fn records(alloc: Global) -> Option<Vec<Record>> {
    let mapping = ['\u{61}', '\u{308}'].to_vec(alloc).ok()?;
    let mut records = Vec::new(alloc);
    records.push(record('\u{E4}', 0, mapping)).ok()?;
    records.push(record('\u{308}', 230, Vec::new(alloc))).ok()?;
    Some(records)
}

/// A record by which validation maps the letter to another.
fn mapper_records(alloc: Global) -> Option<Vec<Uts46Record>> {
    let status = Uts46Status::Mapped(['\u{62}'].to_vec(alloc).ok()?);
    let mut records = Vec::new(alloc);
    records
        .push(Uts46Record {
            c: '\u{E4}',
            status,
        })
        .ok()?;
    Some(records)
}

/// Validation does not always leave what mapping yields as it is.
fn is_changed_field_dropped(alloc: Global) -> Option<bool> {
    let data = Records::build(alloc, &records(alloc)?, &mapper_records(alloc)?).ok()?;
    Some(writes_nothing(
        alloc,
        &data,
        Command::Label,
        b"a\xCC\x88",
        b"",
        Ok(Answer::No),
    ))
}

#[test]
fn a_field_that_validation_changes_is_not_kept(rt: HostRuntime) {
    assert_eq!(rt; is_changed_field_dropped(rt.alloc()), Some(true));
}
