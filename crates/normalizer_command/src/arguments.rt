//! The words that the program is started with.
ghost use Rattle.std.specs.Prelude.{◌≡◌, codes, map, option_copied, string_bytes, bytes_eq, false, true, IfErr, IfOk};
ghost use Rattle.std.specs.Prelude.{None, OnErr, Some};
ghost use Rattle.clap.specs.Matches.{found_of};
ghost use Rattle.clap.specs.Simple.{app_of, matches_of};
ghost use Rattle.clap.specs.Walk.{rows_of, rule_of};
ghost use Rattle.clap.specs.Takes.{takes};
ghost use Rattle.clap.specs.Values.{kind_of};
ghost use Rattle.clap.specs.declared.error.kind.ErrorKind.TheVariants.{OutOfMemory};
ghost use Rattle.normalizer_command.specs.CommandLine.{after_rule, flag_rule, short_flag_rule, uninorm};
ghost use Rattle.normalizer_command.specs.Arguments.{command_of, form_of, goes_in_place, is_plain, mode_of};
ghost use Rattle.normalizer_command.specs.Arguments.{names_by, or_input, places_by, prepared_by, wanted, wanted_in};
ghost use Rattle.normalizer_command.specs.Arguments.{with_form, AreFlags, Requests};

use crate::command::{Command as FileCommand, LineEnd, Listing, MapperTask, Task};
use clap::{Arg, ArgAction, ArgMatches, Command, Error};
use icu_normalizer::NormalForm;
use normalizer_streams::ErrorMode;
use std::alloc::{AllocError, Global};

/// The message if the command is missing or unknown.
const NO_COMMAND: &str =
    "the command is none of nfc, nfd, nfkc, nfkd, check, where, map, validate and prepare";

/// The message if a command that needs a form has none.
const NO_FORM: &str = "a form is missing: nfc, nfd, nfkc or nfkd";

/// The message if an option has no meaning.
const NO_OPTION: &str =
    "-q, -l and -0 are for check, where and validate, -0 if names are listed; -i is for forms of files";

/// The message if prepared data are requested of files.
const NO_FILE: &str = "prepare takes no file: it writes the prepared data to standard output";

/// What the words request.
#[derive(Drop)]
pub enum Request<'a> {
    /// A command over files.
    Files(FileRequest<'a>),
    /// The versions of the program and of the data, whose path may be named.
    Version(Option<&'a str>),
    /// The data, whose path may be named, as one file.
    Prepare(Option<&'a str>),
    /// Nothing, for this reason.
    Unclear(&'static str),
}

/// A command over files.
#[derive(Drop)]
pub struct FileRequest<'a> {
    /// What to do with each file.
    pub command: FileCommand,
    /// The path of the data, if it is named.
    pub path: Option<&'a str>,
    /// The names of the files; `-` is standard input.
    pub names: Vec<&'a str>,
    /// Whether the files are replaced.
    pub in_place: bool,
}

/// The flags.
#[derive(Clone, Copy)]
pub(crate) struct Flags {
    version: bool,
    strict: bool,
    quiet: bool,
    names: bool,
    null: bool,
    in_place: bool,
}

/// A command, and the names of its files.
type Asked<'n, 'a> = (FileCommand, &'n [&'a str]);

/// Reads the words, the first of which is the program's name.
///
/// # Errors
/// The help if the words request it, or what is wrong with them, or that memory ran out.
pub fn parsed<'a>(alloc: Global, words: &'a [String]) -> Result<Request<'a>, Error>
    ensures requested { IfOk result (Requests (matches_of uninorm (map string_bytes words.now))) }
    ensures taken { IfErr result (λ error. takes uninorm (map string_bytes words.now) ≡ true →
        kind_of error ≡ OutOfMemory) }
{
    let matches = matches(alloc, words)?;
    Ok(request_of(alloc, &matches)?)
}

/// What the words hold, by argument.
fn matches<'a>(alloc: Global, words: &'a [String]) -> Result<ArgMatches<'a>, Error>
    ensures rows { IfOk result (λ m. rows_of (found_of m) ≡ matches_of uninorm (map string_bytes words.now)) }
    ensures taken { IfErr result (λ error. takes uninorm (map string_bytes words.now) ≡ true →
        kind_of error ≡ OutOfMemory) }
{
    command(alloc)?.try_get_matches_from(words)
}

/// What the words request, by argument.
fn request_of<'a>(alloc: Global, matches: &ArgMatches<'a>) -> Result<Request<'a>, AllocError>
    ensures { IfOk result (Requests (rows_of (found_of matches.now))) }
{
    let word = matches.get_str("command").unwrap_or("");
    let after = matches.get_strs("file").unwrap_or(&[]);
    requested(
        alloc,
        word,
        after,
        matches.get_str("data"),
        flags_of(matches),
    )
}

/// The flags, by argument.
fn flags_of(matches: &ArgMatches<'_>) -> Flags
    ensures { AreFlags (rows_of (found_of matches.now)) result }
{
    Flags {
        version: matches.get_flag("version"),
        strict: matches.get_flag("strict"),
        quiet: matches.get_flag("quiet"),
        names: matches.get_flag("name-only"),
        null: matches.get_flag("null"),
        in_place: matches.get_flag("in-place"),
    }
}

/// What a word, those after it, the path that is named and the flags request.
fn requested<'a>(
    alloc: Global,
    word: &str,
    after: &[&'a str],
    path: Option<&'a str>,
    flags: Flags,
) -> Result<Request<'a>, AllocError>
    ensures { IfOk result (λ r. wanted_in r
        ≡ wanted word.now (map (λ name. name.now) after.now) (option_copied path.entry) flags) }
{
    if flags.version {
        return Ok(Request::Version(path));
    }
    if is_same(word, "prepare") {
        return Ok(prepared_by(path, after, flags));
    }
    match command_of(word, after, flags) {
        Ok((command, names)) if !flags.in_place || goes_in_place(command, names) => {
            Ok(Request::Files(FileRequest {
                command,
                path,
                names: or_input(alloc, names)?,
                in_place: flags.in_place,
            }))
        }
        Ok(_) => Ok(Request::Unclear(NO_OPTION)),
        Err(reason) => Ok(Request::Unclear(reason)),
    }
}

/// Whether what the command makes of the files may take their places.
fn goes_in_place(command: FileCommand, names: &[&str]) -> bool
    ensures { result ≡ goes_in_place (command, map (λ name. name.now) names.now) }
{
    match command {
        FileCommand::OfForm(Task::Write, ..) => !names.is_empty() && !names.contains(&"-"),
        _ => false,
    }
}

/// Prepared data, if no file is named and nothing is to be listed.
fn prepared_by<'a>(path: Option<&'a str>, names: &[&'a str], flags: Flags) -> Request<'a>
    ensures { wanted_in result
        ≡ prepared_by (option_copied path.entry) (map (λ name. name.now) names.now) flags }
{
    if !names.is_empty() {
        return Request::Unclear(NO_FILE);
    }
    if is_plain(flags) && !flags.in_place {
        Request::Prepare(path)
    } else {
        Request::Unclear(NO_OPTION)
    }
}

/// The command of a word and those after it, if the flags have a meaning for it, or what is wrong.
fn command_of<'n, 'a>(
    word: &str,
    after: &'n [&'a str],
    flags: Flags,
) -> Result<Asked<'n, 'a>, &'static str>
    ensures asked { IfOk result (λ asked. command_of word.now (map (λ name. name.now) after.now) flags
        ≡ Some (asked.0, map (λ name. name.now) asked.1.now)) }
    ensures unclear { OnErr result (command_of word.now (map (λ name. name.now) after.now) flags ≡ None) }
{
    let mode = mode_of(flags);
    if is_same(word, "check") {
        return with_form(names_by(flags), mode, after);
    }
    if is_same(word, "where") {
        return match places_by(flags) {
            Some(listing) => with_form(listing, mode, after),
            None => Err(NO_OPTION),
        };
    }
    if is_same(word, "validate") {
        return match places_by(flags) {
            Some(listing) => Ok((
                FileCommand::OfMapper(MapperTask::Validate(listing), mode),
                after,
            )),
            None => Err(NO_OPTION),
        };
    }
    if !is_plain(flags) {
        return Err(NO_OPTION);
    }
    if is_same(word, "map") {
        return Ok((FileCommand::OfMapper(MapperTask::Map, mode), after));
    }
    match form_of(word) {
        Some(form) => Ok((FileCommand::OfForm(Task::Write, mode, form), after)),
        None => Err(NO_COMMAND),
    }
}

/// A comparison with the form that is named first, of which this is listed.
fn with_form<'n, 'a>(
    listing: Listing,
    mode: ErrorMode,
    words: &'n [&'a str],
) -> Result<Asked<'n, 'a>, &'static str>
    ensures asked { IfOk result (λ asked. with_form listing mode (map (λ name. name.now) words.now)
        ≡ Some (asked.0, map (λ name. name.now) asked.1.now)) }
    ensures unclear { OnErr result (with_form listing mode (map (λ name. name.now) words.now) ≡ None) }
{
    match words {
        [first, names @ ..] => match form_of(first) {
            Some(form) => Ok((
                FileCommand::OfForm(Task::Compare(listing), mode, form),
                names,
            )),
            None => Err(NO_FORM),
        },
        [] => Err(NO_FORM),
    }
}

/// The form of this name, in any case.
fn form_of(word: &str) -> Option<NormalForm>
    ensures { result ≡ form_of word.now }
{
    if word.eq_ignore_ascii_case("nfc") {
        Some(NormalForm::Nfc)
    } else if word.eq_ignore_ascii_case("nfd") {
        Some(NormalForm::Nfd)
    } else if word.eq_ignore_ascii_case("nfkc") {
        Some(NormalForm::Nfkc)
    } else if word.eq_ignore_ascii_case("nfkd") {
        Some(NormalForm::Nfkd)
    } else {
        None
    }
}

fn mode_of(flags: Flags) -> ErrorMode
    ensures { result ≡ mode_of flags }
{
    if flags.strict {
        ErrorMode::Fatal
    } else {
        ErrorMode::Replacement
    }
}

fn names_by(flags: Flags) -> Listing
    ensures { result ≡ names_by flags }
{
    if flags.quiet {
        Listing::Nothing
    } else if flags.null {
        Listing::Names(LineEnd::Nul)
    } else {
        Listing::Names(LineEnd::LineFeed)
    }
}

fn places_by(flags: Flags) -> Option<Listing>
    ensures { result ≡ places_by flags }
{
    if flags.quiet || flags.names {
        Some(names_by(flags))
    } else if flags.null {
        None
    } else {
        Some(Listing::Places)
    }
}

/// Whether there is no flag of what is listed.
fn is_plain(flags: Flags) -> bool
    ensures { result ≡ is_plain flags }
{
    !(flags.quiet || flags.names || flags.null)
}

pub(crate) fn is_same(a: &str, b: &str) -> bool
    ensures { result ≡ bytes_eq a.now b.now }
{
    a == b
}

/// The names, or that of standard input if there are none.
fn or_input<'a>(alloc: Global, names: &[&'a str]) -> Result<Vec<&'a str>, AllocError>
    ensures { IfOk result (λ all. map (λ name. name.now) all.items ≡ or_input (map (λ name. name.now) names.now)) }
{
    let mut all = Vec::new(alloc);
    if names.is_empty() {
        all.push("-")?;
    }
    all.extend_from_slice(names)?;
    Ok(all)
}

/// The arguments of the program.
fn command<'a>(alloc: Global) -> Result<Command<'a>, AllocError>
    ensures { IfOk result (λ command. app_of command ≡ uninorm) }
{
    Command::new(alloc, "uninorm")
        .arg(Arg::new(alloc, "command"))?
        .arg(files(alloc))?
        .arg(Arg::new(alloc, "data").long("data"))?
        .arg(flag(alloc, "strict"))?
        .arg(short_flag(alloc, "quiet", 'q'))?
        .arg(short_flag(alloc, "name-only", 'l'))?
        .arg(short_flag(alloc, "null", '0'))?
        .arg(short_flag(alloc, "in-place", 'i'))?
        .arg(short_flag(alloc, "version", 'V'))
}

fn files<'a>(alloc: Global) -> Arg<'a>
    ensures rule { rule_of result ≡ after_rule }
    ensures local { result.global ≡ false }
{
    Arg::new(alloc, "file")
        .action(ArgAction::Append)
        .num_args(0..)
}

fn flag<'a>(alloc: Global, name: &'a str) -> Arg<'a>
    ensures rule { rule_of result ≡ flag_rule name.now }
    ensures local { result.global ≡ false }
{
    Arg::new(alloc, name).long(name).action(ArgAction::SetTrue)
}

fn short_flag<'a>(alloc: Global, name: &'a str, short: char) -> Arg<'a>
    ensures rule { rule_of result ≡ short_flag_rule name.now short }
    ensures local { result.global ≡ false }
{
    flag(alloc, name).short(short)
}
