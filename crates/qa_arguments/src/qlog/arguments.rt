//! What the arguments ask for.

use crate::qlog::keys::{HeaderKeys, KEYS, keys_in, wrong_limit};
use clap::error::ErrorKind;
use clap::{Arg, ArgAction, ArgMatches, Command, Error};
use qa_base::{Role, Version};
use std::alloc::{AllocError, Global};

/// The arguments, by the names that the parser has for them.
const FILE: &str = "FILE";

const FORMAT: &str = "format";

const VANTAGE: &str = "vantage";

const CONNECTION: &str = "connection";

const DIALECT: &str = "dialect";

const NOTES: &str = "notes";

const PLACES: &str = "places";

/// The version of the program.
const VERSION: &str = "0.3.0";

const FORMATS: &[&str] = &["1", "2", "3"];

const ROLES: &[&str] = &["client", "server"];

/// The names of the kinds of logs.
const DIALECTS: &[&str] = &[
    "quic-go",
    "quic-go-0.50",
    "quic-go-0.59",
    "ngtcp2",
    "aioquic",
    "openssl",
    "neqo",
    "chromium",
    "quinn",
    "quiche",
    "mvfst",
    "generic",
];

const ABOUT: &str = "Turns the qlog of one QUIC connection into a trace that `qaudit check` reads

Reads qlog 0.3 and 0.4 and drafts before them: one JSON object, JSON-SEQ, or a JSON text a line.
Each guess is at the key `x_guess` of its line, which qaudit ignores. A log whose end is torn off
is converted up to there, and a line on standard error says so.";

const STATUSES: &str =
    "The exit status is 0 for a trace, 2 if the input gives none, 3 if a file or a stream
failed or memory ran out, and 64 for wrong arguments.";

/// What an error of arguments ends in.
const USAGE: &str =
    "\n\nUsage: qlog-to-trace [OPTIONS] [FILE]\n\nFor more information, try '--help'.\n";

/// Which log is converted, and how.
#[derive(Clone, Copy)]
pub struct ConversionRequest<'a> {
    /// The name of its file; None for standard input.
    pub file: Option<&'a str>,
    /// Which side the trace is of, if the log has both or says neither.
    pub vantage: Option<Role>,
    /// Which of the connections, traces or paths of the log, from 1 on.
    pub connection: Option<u64>,
    /// The name of the kind of log, one of those that the help lists.
    pub dialect: Option<&'a str>,
    /// What the header of the trace is to have.
    pub keys: HeaderKeys,
    /// Whether each line says where in the log its record begins.
    pub has_places: bool,
    /// Whether what was guessed and what was left out is counted on standard error.
    pub has_notes: bool,
}

/// What arguments ask for.
#[derive(Drop)]
pub enum Asked<'a> {
    /// For a trace.
    Trace(ConversionRequest<'a>),
    /// For this text: the help, or the version.
    Text(String),
    /// For nothing: this text says what is wrong with them.
    Nothing(String),
}

/// Reads what the arguments after the program's name ask for.
///
/// `AllocError` comes if it is out of memory, and only then.
pub fn parse<'a>(alloc: Global, arguments: &'a [String]) -> Result<Asked<'a>, AllocError> {
    match matches_of(alloc, arguments) {
        Ok(matches) => asked_in(alloc, &matches),
        Err(error) => text_of(alloc, &error),
    }
}

/// What the parser finds in the arguments.
fn matches_of<'a>(alloc: Global, arguments: &'a [String]) -> Result<ArgMatches<'a>, Error> {
    parser(alloc)?.try_get_matches_from(arguments)
}

/// The text by which the parser ends. An error of its own that says it is out of memory is no text.
fn text_of<'a>(alloc: Global, error: &Error) -> Result<Asked<'a>, AllocError> {
    match error.kind() {
        ErrorKind::OutOfMemory => Err(AllocError),
        ErrorKind::DisplayHelp | ErrorKind::DisplayVersion => {
            Ok(Asked::Text(format!(in alloc; "{error}")?))
        }
        _ => Ok(Asked::Nothing(format!(in alloc; "{error}")?)),
    }
}

/// What the matches ask for: nothing, if they do not go together.
fn asked_in<'a>(alloc: Global, matches: &ArgMatches<'a>) -> Result<Asked<'a>, AllocError> {
    let version = version_in(matches);
    if let Some(text) = wrong_limit(matches) {
        let wrong = format!(in alloc;
            "error: invalid value '{text}' for '--timer-late <MICROSECONDS>': it is 0 to 1000000000000000, or no{USAGE}"
        )?;
        return Ok(Asked::Nothing(wrong));
    }
    if let Some((option, needed)) = too_new(matches, version) {
        let wrong = format!(in alloc;
            "error: the argument '--{option}' needs '--format {needed}'{USAGE}"
        )?;
        return Ok(Asked::Nothing(wrong));
    }
    Ok(Asked::Trace(request_in(matches, version)))
}

/// The version of the format of the trace.
fn version_in(matches: &ArgMatches<'_>) -> Version {
    match matches.get_str(FORMAT) {
        Some("1") => Version::One,
        Some("2") => Version::Two,
        _ => Version::Three,
    }
}

/// The first option that was given for a key that this version lacks, and the version that has it.
fn too_new(matches: &ArgMatches<'_>, version: Version) -> Option<(&'static str, u64)> {
    for key in KEYS.iter() {
        if version.number() < key.version.number() && key.is_given(matches) {
            return Some((key.option, key.version.number()));
        }
    }
    None
}

/// Which log the matches ask for, and how it is converted.
fn request_in<'a>(matches: &ArgMatches<'a>, version: Version) -> ConversionRequest<'a> {
    ConversionRequest {
        file: matches.get_str(FILE),
        vantage: matches.get_str(VANTAGE).and_then(Role::named),
        connection: matches.get_one::<u64>(CONNECTION),
        dialect: matches.get_str(DIALECT),
        keys: keys_in(matches, version),
        has_places: matches.get_flag(PLACES),
        has_notes: matches.get_flag(NOTES),
    }
}

/// The parser of the command line. Of an option that is given several times the last counts.
fn parser<'a>(alloc: Global) -> Result<Command<'a>, AllocError> {
    let places = "Say at the key x_place of each line where in the log its record begins";
    let parser = program_parser(alloc)
        .arg(file_argument(alloc))?
        .arg(format_argument(alloc))?
        .arg(vantage_argument(alloc))?
        .arg(connection_argument(alloc))?
        .arg(dialect_argument(alloc))?
        .arg(flag_argument(alloc, NOTES, "Count the guesses on standard error"))?
        .arg(flag_argument(alloc, PLACES, places))?;
    with_keys(alloc, parser)
}

/// The parser of a program with no argument.
fn program_parser<'a>(alloc: Global) -> Command<'a> {
    Command::new(alloc, "qlog-to-trace")
        .no_binary_name(true)
        .args_override_self(true)
        .version(VERSION)
        .about(ABOUT)
        .after_help(STATUSES)
}

/// Adds the options for keys of the header, under a heading of their own.
fn with_keys<'a>(alloc: Global, parser: Command<'a>) -> Result<Command<'a>, AllocError> {
    let mut parser = parser.next_help_heading(
        "Keys of the header, which replace what is known of the kind of log",
    );
    for key in KEYS.iter() {
        parser = parser.arg(key.argument(alloc)?)?;
    }
    Ok(parser)
}

fn file_argument<'a>(alloc: Global) -> Arg<'a> {
    Arg::new(alloc, FILE)
        .help("The qlog (default: standard input)")
        .action(ArgAction::Set)
}

fn format_argument<'a>(alloc: Global) -> Arg<'a> {
    Arg::new(alloc, FORMAT)
        .long(FORMAT)
        .value_name("N")
        .help("Trace format version")
        .default_value("3")
        .value_parser(FORMATS)
        .action(ArgAction::Set)
}

fn vantage_argument<'a>(alloc: Global) -> Arg<'a> {
    Arg::new(alloc, VANTAGE)
        .long(VANTAGE)
        .value_name("SIDE")
        .help("Which side, if the log has both or says neither")
        .value_parser(ROLES)
        .action(ArgAction::Set)
}

fn connection_argument<'a>(alloc: Global) -> Arg<'a> {
    Arg::new(alloc, CONNECTION)
        .long(CONNECTION)
        .value_name("N")
        .help("Which connection, trace or path, from 1 on, if the log has several")
        .value_parser(clap::value_parser!(u64))
        .action(ArgAction::Set)
}

fn dialect_argument<'a>(alloc: Global) -> Arg<'a> {
    Arg::new(alloc, DIALECT)
        .long(DIALECT)
        .value_name("NAME")
        .help("The kind of log, if the log does not say it")
        .value_parser(DIALECTS)
        .action(ArgAction::Set)
}

/// An option with no value, by its long name.
fn flag_argument<'a>(alloc: Global, name: &'a str, help: &'a str) -> Arg<'a> {
    Arg::new(alloc, name)
        .long(name)
        .help(help)
        .action(ArgAction::SetTrue)
}
