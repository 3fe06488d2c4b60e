//! The words of the command line.
ghost use Rattle.std.specs.Prelude.{◌≡◌, ◌↔◌, ℕ, false, Any, Err, IfOk, IsTrue, MatchOption, Some, codes, map, option_map};
ghost use Rattle.clap.specs.Walk.{rule_of};
ghost use Rattle.clap.specs.Words.{app_of, first_of, found_of, rows_of, subcommand_rows_of, with_subcommand};
ghost use Rattle.server.specs.CommandLine.{AskNothing, AskedBy, IsOption};
ghost use Rattle.server.specs.Subcommands.{IsNatIn, Reads, program_app, required_text, texts_of, words_app};

use clap::error::ErrorKind;
use clap::{Arg, ArgMatches, Command};
use lines::natural;
use std::alloc::{AllocError, Global};
use std::convert::AsStr;

/// The subcommands and the names of their texts.
const SUBCOMMANDS: [(&str, &[&str]); 6] = [
    ("format", &["PATH", "SIDE", "CAPACITY"]),
    ("import", &["PATH", "FILE"]),
    ("serve", &["PATH"]),
    ("table", &["SIDE", "CAPACITY"]),
    ("check", &["PATH"]),
    ("upgrade", &["PATH"]),
];

/// The subcommands of the program.
#[derive(Clone, Copy)]
pub enum Arguments<'a> {
    /// Make a store's file.
    Format {
        path: &'a str,
        side: u32,
        capacity: u32,
    },
    /// Import a tile's file into the store at a path.
    Import {
        path: &'a str,
        tile: &'a str,
    },
    /// Serve lines on the store at a path.
    Serve {
        path: &'a str,
    },
    /// Serve lines on an empty mosaic in memory.
    Table {
        side: u32,
        capacity: u32,
    },
    /// Report on the store at a path.
    Check {
        path: &'a str,
    },
    /// Upgrade the store at a path to the second version.
    Upgrade {
        path: &'a str,
    },
}

/// Why the words aren't accepted.
#[derive(Clone, Copy)]
pub enum ArgumentFault {
    Bad,
    NoMemory,
}

impl<'a> Arguments<'a> {
    /// Parses the words after the program's name. There are no options.
    pub fn parse<S: AsStr>(alloc: Global, words: &'a [S]) -> Result<Arguments<'a>, ArgumentFault>
        ensures ok { IfOk result (AskedBy (map S.text words.now)) }
        ensures bad { result ≡ Err ArgumentFault.Bad → AskNothing (map S.text words.now) }
    {
        if has_option(words) {
            return Err(ArgumentFault::Bad);
        }
        let Ok(command) = command(alloc) else {
            return Err(ArgumentFault::NoMemory);
        };
        match command.try_get_matches_from(words) {
            Ok(matches) => asked(&matches).ok_or(ArgumentFault::Bad),
            Err(error) if error.kind() == ErrorKind::OutOfMemory => Err(ArgumentFault::NoMemory),
            Err(_) => Err(ArgumentFault::Bad),
        }
    }
}

/// Whether any of the words begins with a hyphen.
pub fn has_option<S: AsStr>(words: &[S]) -> bool
    ensures { IsTrue result ↔ Any (λ w. IsOption (S.text w)) words.now }
{
    words.iter().any(|word| is_option(word.as_str()))
}

/// Whether the word begins with a hyphen.
fn is_option(word: &str) -> bool
    ensures { IsTrue result ↔ IsOption word.now }
{
    word.as_bytes().first() == Some(&b'-')
}

/// The program's words, as clap reads them.
fn command<'a>(alloc: Global) -> Result<Command<'a>, AllocError>
    ensures { IfOk result (λ c. app_of c ≡ program_app) }
{
    let mut command = Command::new(alloc, "mosaic")
        .no_binary_name(true)
        .subcommand_required(true);
    for (name, texts) in SUBCOMMANDS {
        command = with_words(alloc, command, name, texts)?;
    }
    Ok(command)
}

/// Adds a subcommand to the command. A failure has no other command to drop here.
fn with_words<'a>(
    alloc: Global,
    command: Command<'a>,
    name: &'static str,
    texts: &[&'static str],
) -> Result<Command<'a>, AllocError>
    ensures { IfOk result (λ c. app_of c ≡ with_subcommand (app_of command.entry) (words_app name.now texts.now).top) }
{
    command.subcommand(words(alloc, name, texts)?)
}

/// A subcommand with its texts, all of them required.
fn words<'a>(
    alloc: Global,
    name: &'static str,
    texts: &[&'static str],
) -> Result<Command<'a>, AllocError>
    ensures { IfOk result (λ c. app_of c ≡ words_app name.now texts.now) }
{
    let mut command = Command::new(alloc, name);
    for text in texts {
        command = command.arg(required(alloc, text))?;
    }
    Ok(command)
}

/// The required text of this name.
fn required(alloc: Global, name: &'static str) -> Arg<'static>
    ensures rule { rule_of result ≡ required_text name.now }
    ensures local { result.global ≡ false }
{
    Arg::new(alloc, name).required(true)
}

/// The arguments in clap's matches.
fn asked<'a>(matches: &ArgMatches<'a>) -> Option<Arguments<'a>>
    ensures { Reads (texts_of (subcommand_rows_of matches.now)) result }
{
    match matches.subcommand() {
        Some(("format", found)) => format(found),
        Some(("import", found)) => import(found),
        Some(("serve", found)) => serve(found),
        Some(("table", found)) => table(found),
        Some(("check", found)) => check(found),
        Some(("upgrade", found)) => upgrade(found),
        _ => None,
    }
}

/// The path, the side and the capacity, if all are given and right.
fn format<'a>(found: &ArgMatches<'a>) -> Option<Arguments<'a>>
    ensures { Reads (texts_of (Some (codes "format", rows_of (found_of found.now)))) result }
{
    let path = text(found, "PATH")?;
    let side = number(found, "SIDE")?;
    let capacity = number(found, "CAPACITY")?;
    Some(Arguments::Format {
        path,
        side,
        capacity,
    })
}

/// The two paths.
fn import<'a>(found: &ArgMatches<'a>) -> Option<Arguments<'a>>
    ensures { Reads (texts_of (Some (codes "import", rows_of (found_of found.now)))) result }
{
    let path = text(found, "PATH")?;
    let tile = text(found, "FILE")?;
    Some(Arguments::Import { path, tile })
}

/// The path.
fn serve<'a>(found: &ArgMatches<'a>) -> Option<Arguments<'a>>
    ensures { Reads (texts_of (Some (codes "serve", rows_of (found_of found.now)))) result }
{
    let path = text(found, "PATH")?;
    Some(Arguments::Serve { path })
}

/// The side and the capacity, where both are NATs.
fn table<'a>(found: &ArgMatches<'a>) -> Option<Arguments<'a>>
    ensures { Reads (texts_of (Some (codes "table", rows_of (found_of found.now)))) result }
{
    let side = number(found, "SIDE")?;
    let capacity = number(found, "CAPACITY")?;
    Some(Arguments::Table { side, capacity })
}

/// The path.
fn check<'a>(found: &ArgMatches<'a>) -> Option<Arguments<'a>>
    ensures { Reads (texts_of (Some (codes "check", rows_of (found_of found.now)))) result }
{
    let path = text(found, "PATH")?;
    Some(Arguments::Check { path })
}

/// The path.
fn upgrade<'a>(found: &ArgMatches<'a>) -> Option<Arguments<'a>>
    ensures { Reads (texts_of (Some (codes "upgrade", rows_of (found_of found.now)))) result }
{
    let path = text(found, "PATH")?;
    Some(Arguments::Upgrade { path })
}

/// The text of this name.
fn text<'a>(found: &ArgMatches<'a>, name: &str) -> Option<&'a str>
    ensures { option_map (λ t. t.now) result ≡ first_of name.now (rows_of (found_of found.now)) }
{
    found.get_str(name)
}

/// The NAT of this name.
fn number(found: &ArgMatches<'_>, name: &str) -> Option<u32>
    ensures { MatchOption result ((n : ℕ) → IsNatIn (first_of name.now (rows_of (found_of found.now))) n → ⊥) (IsNatIn (first_of name.now (rows_of (found_of found.now)))) }
{
    let text = found.get_str(name)?;
    natural(text.as_bytes())
}
