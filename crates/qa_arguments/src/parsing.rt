//! What arguments ask for.
ghost use Rattle.std.specs.Prelude.{◌≡◌, ◌⊎◌, ℕ, false, List, [], Some, None, IfOk, IfErr, codes};
ghost use Rattle.std.specs.Prelude.{map, string_bytes, unwrap_or};
ghost use Rattle.clap.specs.Words.{all_of, app_of, found_of, kind_of, new_app, new_rule, rows_of};
ghost use Rattle.clap.specs.Words.{with_rule, with_subcommand, FailsBy, HasMatchesOf, Row};
ghost use Rattle.clap.specs.Words.{fault_of};
ghost use Rattle.clap.specs.Simple.{subcommand_rows_of};
ghost use Rattle.clap.specs.declared.builder.command.Command.TheViews.{out-Command as fields_of};
ghost use Rattle.qa_arguments.specs.Arguments.{asked, fault_of_kind, parser_alone};
ghost use Rattle.qa_arguments.specs.Arguments.{parser_of_arguments, request, without_help};
ghost use Rattle.qa_arguments.specs.Arguments.{HasFiles, IsCommand};

use crate::fault::ArgumentsFault;
use clap::error::ErrorKind;
use clap::{Arg, ArgAction, ArgMatches, Command, Error};
use std::alloc::{AllocError, Global};

/// The subcommands and their arguments, by the names that the parser has for them.
const CHECK: &str = "check";

const EXPLAIN: &str = "explain";

const FILE: &str = "FILE";

/// What the arguments ask for.
#[derive(Drop)]
pub enum Subcommand<'a> {
    /// Audit each of these files, or standard input where there is none.
    Check(Vec<&'a str>),
    /// Explain this file, or standard input where there is none.
    Explain(Option<&'a str>),
}

/// Reads what the arguments behind the program's name ask for.
///
/// `Refused` comes where they ask for nothing.
pub fn parse<'a>(alloc: Global, arguments: &'a [String]) -> Result<Subcommand<'a>, ArgumentsFault>
    ensures ok { IfOk result (λ subcommand. asked (map string_bytes arguments.now)
        ≡ Some (request subcommand)) }
    ensures err { IfErr result (λ fault. (fault ≡ ArgumentsFault.OutOfMemory)
        ⊎ ((fault ≡ ArgumentsFault.Refused) × (asked (map string_bytes arguments.now) ≡ None))) }
{
    match matches_of(alloc, arguments) {
        Ok(matches) => subcommand_of(alloc, &matches),
        Err(error) => Err(fault_of_error(&error)),
    }
}

/// What an error of the parser is told as.
fn fault_of_error(error: &Error) -> ArgumentsFault
    ensures { result ≡ fault_of_kind (kind_of error.now) }
{
    match error.kind() {
        ErrorKind::OutOfMemory => ArgumentsFault::OutOfMemory,
        _ => ArgumentsFault::Refused,
    }
}

/// What the parser finds in the arguments.
fn matches_of<'a>(alloc: Global, arguments: &'a [String]) -> Result<ArgMatches<'a>, Error>
    ensures matches { IfOk result
        (HasMatchesOf parser_of_arguments (map string_bytes arguments.now)) }
    ensures kinds { FailsBy (fault_of parser_of_arguments (map string_bytes arguments.now)) result }
{
    parser(alloc)?.try_get_matches_from(arguments)
}

/// The subcommand that the parser found, with its files.
fn subcommand_of<'a>(
    alloc: Global,
    matches: &ArgMatches<'a>,
) -> Result<Subcommand<'a>, ArgumentsFault>
    ensures ok { IfOk result
        (λ subcommand. (name : List ℕ) (rows : List Row) (names : List (List ℕ))
        → subcommand_rows_of matches.now ≡ Some (name, rows) → HasFiles name names rows
        → request subcommand ≡ (name, names)) }
    ensures err { IfErr result (λ fault. (fault ≡ ArgumentsFault.OutOfMemory)
        ⊎ ((fault ≡ ArgumentsFault.Refused)
        × ((name : List ℕ) (rows : List Row) → subcommand_rows_of matches.now ≡ Some (name, rows)
        → IsCommand name → ⊥))) }
{
    let Some((name, found)) = matches.subcommand() else {
        return Err(ArgumentsFault::Refused);
    };
    match name {
        CHECK => Ok(Subcommand::Check(files(alloc, found)?)),
        EXPLAIN => Ok(Subcommand::Explain(found.get_str(FILE))),
        _ => Err(ArgumentsFault::Refused),
    }
}

/// The parser of the command line.
fn parser<'a>(alloc: Global) -> Result<Command<'a>, AllocError>
    ensures { IfOk result (λ parser. app_of parser ≡ parser_of_arguments) }
{
    let with_check = with_files(alloc, program_parser(alloc), CHECK, ArgAction::Append)?;
    with_files(alloc, with_check, EXPLAIN, ArgAction::Set)
}

/// The parser of the program with no subcommand yet, of which it requires one. It has no help.
fn program_parser<'a>(alloc: Global) -> Command<'a>
    ensures { app_of result ≡ parser_alone }
{
    Command::new(alloc, "qaudit")
        .no_binary_name(true)
        .disable_help_flag(true)
        .disable_help_subcommand(true)
        .subcommand_required(true)
}

/// Adds to a parser the subcommand of this name. Its files are many by `ArgAction::Append`, and one
/// at most by `ArgAction::Set`.
fn with_files<'a>(
    alloc: Global,
    parser: Command<'a>,
    name: &'a str,
    action: ArgAction,
) -> Result<Command<'a>, AllocError>
    ensures { IfOk result (λ more. app_of more
        ≡ with_subcommand (app_of parser.entry)
        (with_rule (without_help (new_app name.entry.now)) (record (new_rule (codes "FILE")) { action = Some action })).top) }
{
    parser.subcommand(files_parser(alloc, name, action)?)
}

/// The parser of such a subcommand. It has no help.
fn files_parser<'a>(
    alloc: Global,
    name: &'a str,
    action: ArgAction,
) -> Result<Command<'a>, AllocError>
    ensures app { IfOk result (λ parser. app_of parser
        ≡ with_rule (without_help (new_app name.entry.now)) (record (new_rule (codes "FILE")) { action = Some action })) }
    ensures local { IfOk result (λ parser. (fields_of parser).has_globals ≡ false) }
{
    let file = Arg::new(alloc, FILE).action(action);
    Command::new(alloc, name).disable_help_flag(true).arg(file)
}

/// The names of files that a subcommand was given.
fn files<'a>(alloc: Global, found: &ArgMatches<'a>) -> Result<Vec<&'a str>, AllocError>
    ensures { IfOk result (λ names. map (λ name. name.now) names.items
        ≡ unwrap_or (all_of (codes "FILE") (rows_of (found_of found.now))) []) }
{
    match found.get_strs(FILE) {
        Some(names) => Vec::from_slice(alloc, names),
        None => Ok(Vec::new(alloc)),
    }
}
