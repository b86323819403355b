//! What the arguments ask for.
ghost use Rattle.std.specs.Prelude.{◌≡◌, false, IfOk, IsErr, List, ℕ, [], codes, map};
ghost use Rattle.std.specs.Prelude.{option_map, string_bytes, unwrap_or};
ghost use Rattle.clap.specs.Words.{all_of, app_of, fault_of, found_of, kind_of, rows_of, rule_of};
ghost use Rattle.clap.specs.Words.{FailsBy, HasMatchesOf};
ghost use Rattle.clap.specs.declared.error.kind.ErrorKind.TheVariants as kinds;
ghost use Rattle.qa_arguments.specs.why.Asked as defined;
ghost use Rattle.qa_arguments.specs.why.Words as words;

use clap::error::ErrorKind;
use clap::parser::ValueSource;
use clap::{Arg, ArgAction, ArgMatches, Command, Error};
use qa_format::Form;
use std::alloc::{AllocError, Global};

/// The arguments, by the names that the parser has for them.
const FILE: &str = "FILE";

const QUIET: &str = "quiet";

const WARN: &str = "warn";

const JSON: &str = "json";

const ROWS: &str = "rows";

const ALL: &str = "all";

const AROUND: &str = "around";

/// The options that exclude each other.
const EXCLUSIVE: [(&str, &str); 4] = [(ROWS, JSON), (ROWS, QUIET), (ROWS, WARN), (ROWS, AROUND)];

/// The most lines before a refusal or a violation that may be asked for.
const MOST_AROUND: i64 = 1000;

/// The version of the program.
const VERSION: &str = "0.3.0";

/// What is told of each trace.
#[derive(Clone, Copy)]
pub enum Told {
    /// Why it is refused, in this form.
    Why(Form),
    /// All violations of sender rules, and how it ends past them, in this form.
    All(Form),
    /// What the machine held behind each of its lines.
    Rows,
    /// The same, behind violations too.
    AllRows,
}

/// Which traces to tell of, and what.
#[derive(Drop)]
pub struct Inquiry<'a> {
    /// What is told of each.
    pub told: Told,
    /// Nothing is to be written of accepted traces.
    pub quiet: bool,
    /// What does nothing silently is told of on standard error.
    pub warn: bool,
    /// How many lines before a refusal or a violation are written with it, up to 1000.
    pub around: u16,
    /// The names of files; none for standard input.
    pub files: Vec<&'a str>,
}

/// What arguments ask for.
#[derive(Drop)]
pub enum Asked<'a> {
    /// To tell why.
    Why(Inquiry<'a>),
    /// For this text: the help, or the version.
    Text(String),
    /// For nothing: this text says what is wrong with them.
    Nothing(String),
}

/// Reads what the arguments behind the program's name ask for.
///
/// `AllocError` comes where it is out of memory, and only there.
pub fn parse<'a>(alloc: Global, arguments: &'a [String]) -> Result<Asked<'a>, AllocError>
    ensures { IfOk result (λ asked. defined.request asked
        ≡ words.asked (map string_bytes arguments.now)) }
{
    match matches_of(alloc, arguments) {
        Ok(matches) => asked_of(alloc, &matches),
        Err(error) => text_of(alloc, &error),
    }
}

/// What the parser finds in the arguments.
fn matches_of<'a>(alloc: Global, arguments: &'a [String]) -> Result<ArgMatches<'a>, Error>
    ensures matches { IfOk result (HasMatchesOf defined.parser_of_arguments
        (map string_bytes arguments.now)) }
    ensures kinds { FailsBy (fault_of defined.parser_of_arguments
        (map string_bytes arguments.now)) result }
{
    parser(alloc)?.try_get_matches_from(arguments)
}

/// What the matches ask for: nothing, where two options exclude each other.
fn asked_of<'a>(alloc: Global, matches: &ArgMatches<'a>) -> Result<Asked<'a>, AllocError>
    ensures { IfOk result (λ asked. defined.request asked
        ≡ defined.asked_in (rows_of (found_of matches.now))) }
{
    if let Some((one, other)) = clash(matches) {
        return Ok(Asked::Nothing(clash_text(alloc, one, other)?));
    }
    Ok(Asked::Why(inquiry_of(alloc, matches)?))
}

/// The first two options that were given and exclude each other.
fn clash(matches: &ArgMatches<'_>) -> Option<(&'static str, &'static str)>
    ensures { option_map (λ pair. (pair.0.now, pair.1.now)) result
        ≡ defined.clash_in (rows_of (found_of matches.now)) }
{
    for (one, other) in EXCLUSIVE {
        if is_given(matches, one) && is_given(matches, other) {
            return Some((one, other));
        }
    }
    None
}

/// Whether the arguments have this option.
fn is_given(matches: &ArgMatches<'_>, name: &str) -> bool
    ensures { result ≡ defined.is_given name.now (rows_of (found_of matches.now)) }
{
    match matches.value_source(name) {
        Some(ValueSource::CommandLine) => true,
        Some(ValueSource::DefaultValue) => false,
        None => false,
    }
}

/// What is said where two options exclude each other.
#[tactic(auto, unfolding(crate::specs::why::Asked::clash_text))]
fn clash_text(alloc: Global, one: &str, other: &str) -> Result<String, AllocError>
    ensures { IfOk result (λ text. string_bytes text ≡ defined.clash_text one.now other.now) }
{
    let mut text = String::new(alloc);
    text.push_str("error: the argument '--")?;
    text.push_str(one)?;
    text.push_str("' cannot be used with '--")?;
    text.push_str(other)?;
    text.push_str(
        "'\n\nUsage: qaudit-why [OPTIONS] [FILE]...\n\nFor more information, try '--help'.\n",
    )?;
    Ok(text)
}

/// What the matches ask to be told.
fn inquiry_of<'a>(alloc: Global, matches: &ArgMatches<'a>) -> Result<Inquiry<'a>, AllocError>
    ensures { IfOk result (λ inquiry. defined.wanted inquiry
        ≡ defined.wanted_in (rows_of (found_of matches.now))) }
{
    Ok(Inquiry {
        told: told_by(matches),
        quiet: flag(matches, QUIET),
        warn: flag(matches, WARN),
        around: number(matches, AROUND),
        files: files(alloc, matches)?,
    })
}

/// What is told, by the options. Rows are in no form.
fn told_by(matches: &ArgMatches<'_>) -> Told
    ensures { result ≡ (defined.wanted_in (rows_of (found_of matches.now))).told }
{
    let form = if flag(matches, JSON) {
        Form::Json
    } else {
        Form::Text
    };
    match (flag(matches, ALL), flag(matches, ROWS)) {
        (true, true) => Told::AllRows,
        (false, true) => Told::Rows,
        (true, false) => Told::All(form),
        (false, false) => Told::Why(form),
    }
}

/// Whether an option with no value was given.
fn flag(matches: &ArgMatches<'_>, name: &str) -> bool
    ensures { result ≡ defined.flag_in name.now (rows_of (found_of matches.now)) }
{
    matches.get_one::<bool>(name).unwrap_or(false)
}

/// The number that an option was given, or 0.
fn number(matches: &ArgMatches<'_>, name: &str) -> u16
    ensures { result ≡ defined.number_in name.now (rows_of (found_of matches.now)) }
{
    matches.get_one::<u16>(name).unwrap_or(0)
}

/// The names of files, in their order.
fn files<'a>(alloc: Global, matches: &ArgMatches<'a>) -> Result<Vec<&'a str>, AllocError>
    ensures { IfOk result (λ names. map (λ name. name.now) names.items
        ≡ unwrap_or (all_of (codes "FILE") (rows_of (found_of matches.now))) []) }
{
    match matches.get_strs(FILE) {
        Some(names) => Vec::from_slice(alloc, names),
        None => Ok(Vec::new(alloc)),
    }
}

/// The text by which the parser ends. An error of its own that says it is out of memory is no text.
fn text_of<'a>(alloc: Global, error: &Error) -> Result<Asked<'a>, AllocError>
    ensures memory { kind_of error.now ≡ kinds.OutOfMemory → IsErr result }
    ensures shown { IfOk result (λ asked. defined.request asked
        ≡ defined.request_of_kind (kind_of error.now)) }
{
    match error.kind() {
        ErrorKind::OutOfMemory => Err(AllocError),
        ErrorKind::DisplayHelp | ErrorKind::DisplayVersion => {
            Ok(Asked::Text(format!(in alloc; "{error}")?))
        }
        _ => Ok(Asked::Nothing(format!(in alloc; "{error}")?)),
    }
}

/// The parser of the command line. It takes options that exclude each other.
fn parser<'a>(alloc: Global) -> Result<Command<'a>, AllocError>
    ensures { IfOk result (λ parser. app_of parser ≡ defined.parser_of_arguments) }
{
    let all = "Go on past rules of conduct, and tell of all departures from them";
    let json = "Write a JSON object for each trace, on one line";
    let quiet = "Write nothing of accepted traces";
    let rows = "Write a JSON object for each line, with the state behind it, and nothing else";
    let warn = "Tell on standard error of what does nothing silently";
    program_parser(alloc)
        .arg(flag_argument(alloc, ALL, 'a', all))?
        .arg(around_argument(alloc))?
        .arg(flag_argument(alloc, JSON, 'j', json))?
        .arg(flag_argument(alloc, QUIET, 'q', quiet))?
        .arg(flag_argument(alloc, ROWS, 'r', rows))?
        .arg(flag_argument(alloc, WARN, 'w', warn))?
        .arg(files_argument(alloc))
}

/// The parser of a program with no argument.
fn program_parser<'a>(alloc: Global) -> Command<'a>
    ensures { app_of result ≡ defined.parser_alone }
{
    Command::new(alloc, "qaudit-why")
        .no_binary_name(true)
        .version(VERSION)
        .about("Says of each trace of a QUIC sender why it is refused, by the rules of RFC 9002")
        .after_help(
            "The exit status is 0 where all traces are accepted, 1 where one is refused,\n2 where one cannot be read, 3 where a file or a stream failed, and 64 where\nthe arguments are refused; the greatest of these counts.",
        )
}

/// An option with no value, by its long name and a character.
fn flag_argument<'a>(alloc: Global, name: &'a str, short: char, help: &'a str) -> Arg<'a>
    ensures rule { rule_of result ≡ defined.flag_rule name.entry.now short }
    ensures local { result.global ≡ false }
{
    Arg::new(alloc, name)
        .short(short)
        .long(name)
        .help(help)
        .action(ArgAction::SetTrue)
}

/// The option for lines before a refusal or a violation.
fn around_argument<'a>(alloc: Global) -> Arg<'a>
    ensures rule { rule_of result ≡ defined.around_rule }
    ensures local { result.global ≡ false }
{
    Arg::new(alloc, AROUND)
        .long(AROUND)
        .value_name("N")
        .help("Write the N lines before a refusal or departure too, with the state behind each")
        .value_parser(clap::value_parser!(u16).range(0..=MOST_AROUND))
        .action(ArgAction::Set)
}

/// The names of files.
fn files_argument<'a>(alloc: Global) -> Arg<'a>
    ensures rule { rule_of result ≡ defined.files_rule }
    ensures local { result.global ≡ false }
{
    Arg::new(alloc, FILE)
        .help("A trace or a qlog; -, or no file, is a trace on standard input")
        .action(ArgAction::Append)
}
