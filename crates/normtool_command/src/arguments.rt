//! The words after the program's name.
ghost use Rattle.std.specs.Prelude.{◌≡◌, ◌↔◌, Some, map, string_bytes};
ghost use Rattle.normtool_command.specs.Arguments.{AsksFor, NamesCommand, NamesRecords};
ghost use Rattle.normtool_command.specs.declared.arguments.Command.{Command};
ghost use Rattle.normtool_command.specs.declared.arguments.RecordSet.{RecordSet};

use icu_normalizer::NormalForm;

/// What is printed if the words are not the name of a record set and of a command.
pub const USAGE: &str = "normtool: usage: normtool RECORDS COMMAND";

/// The records that the data are built from: the rows built into the program, or none at all.
#[derive(Clone, Copy, Debug, PartialEq, Eq)]
pub enum RecordSet {
    Rows,
    Nothing,
}

/// What is done with the input.
#[derive(Clone, Copy, Debug, PartialEq, Eq)]
pub enum Command {
    /// Its form is written.
    Write(NormalForm),
    /// Whether it is in the form.
    Check(NormalForm),
    /// The first place at which it isn't.
    Locate(NormalForm),
    /// What mapping makes of it is written (UTS #46, section 4).
    Map,
    /// The same with U+FFFD for each ignored character.
    Validate,
    /// The fields of the mapped input that are valid are written, each on a line.
    Label,
}

/// Returns the record set and the command that the words name, if they are these two names, in this order, and no more.
pub fn words(words: &[String]) -> Option<(RecordSet, Command)>
    ensures { (records : RecordSet) (command : Command) →
        (result ≡ Some (records, command)) ↔ AsksFor (map string_bytes words.now) records command }
{
    match words {
        [records, command] => {
            let records = records_named(records.as_str())?;
            let command = command_named(command.as_str())?;
            Some((records, command))
        }
        _ => None,
    }
}

fn records_named(word: &str) -> Option<RecordSet>
    ensures { (records : RecordSet) → (result ≡ Some records) ↔ NamesRecords records word.now }
{
    match word {
        "rows" => Some(RecordSet::Rows),
        "none" => Some(RecordSet::Nothing),
        _ => None,
    }
}

fn command_named(word: &str) -> Option<Command>
    ensures { (command : Command) → (result ≡ Some command) ↔ NamesCommand command word.now }
{
    match word {
        "nfd" => Some(Command::Write(NormalForm::Nfd)),
        "nfc" => Some(Command::Write(NormalForm::Nfc)),
        "nfkd" => Some(Command::Write(NormalForm::Nfkd)),
        "nfkc" => Some(Command::Write(NormalForm::Nfkc)),
        "is-nfd" => Some(Command::Check(NormalForm::Nfd)),
        "is-nfc" => Some(Command::Check(NormalForm::Nfc)),
        "is-nfkd" => Some(Command::Check(NormalForm::Nfkd)),
        "is-nfkc" => Some(Command::Check(NormalForm::Nfkc)),
        "where-nfd" => Some(Command::Locate(NormalForm::Nfd)),
        "where-nfc" => Some(Command::Locate(NormalForm::Nfc)),
        "where-nfkd" => Some(Command::Locate(NormalForm::Nfkd)),
        "where-nfkc" => Some(Command::Locate(NormalForm::Nfkc)),
        "map" => Some(Command::Map),
        "validate" => Some(Command::Validate),
        "label" => Some(Command::Label),
        _ => None,
    }
}
