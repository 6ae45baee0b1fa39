// The words of a command line.
ghost use Rattle.std.specs.Prelude.{◌≡◌, ◌&&◌, nat_le, if◌then◌else◌, Some, None, IfOk, map, string_bytes, option_map, option_and_then};
ghost use Rattle.clap.specs.Walk.{first_of, rows_of};
ghost use Rattle.clap.specs.Words.{found_of, subcommand_rows_of};
ghost use Rattle.civl_explain_words.specs.Words.{number_of, budget_among, is_flagged, lines_among, assumed_among, run_of, run_among, numbered, called, asked, asked_of};

use crate::line::command_line;
use crate::memory::Memory;
use clap::ArgMatches;
use clap::error::ErrorKind;
use std::alloc::Global;

/// The most clauses that a search may be allowed to learn.
const MOST_BUDGET: u32 = 10_000_000;

/// How many clauses a search may learn where the words don't say so many.
pub const USUAL_BUDGET: u32 = 200_000;

/// A command, with the numbers that its words give.
#[derive(Clone, Copy, Debug, PartialEq, Eq)]
pub enum Command {
    /// `check`: the verdict on a program, where each search may learn so many clauses.
    Check(u32),
    /// `conditions`: what is found of each condition of a program, where each search may learn so many clauses.
    Conditions(u32),
    /// `run low`: a schedule of the lowest program of a script.
    RunLow,
    /// `run top`: a schedule of its topmost program.
    RunTop,
    /// `prove`: what is found of an outline of a program, where each search may learn so many clauses.
    Prove(u32),
}

/// What the words ask for: a command, whether what it says of places stands in lines for editors (`--lines`), and whether each story of
/// a condition or a goal tells what was assumed too (`--assumed`).
#[derive(Clone, Copy, Debug, PartialEq, Eq)]
pub struct Request {
    pub command: Command,
    pub by_lines: bool,
    pub assumed: bool,
}

/// The number, where it lies between these two.
fn between(number: u32, least: u32, most: u32) -> Option<u32>
    ensures { result ≡ (if nat_le least number && nat_le number most then Some number else None) }
{
    if number < least {
        None
    } else if number > most {
        None
    } else {
        Some(number)
    }
}

/// The number that an argument has, where it lies between these two.
fn number_of(matches: &ArgMatches, id: &str, least: u32, most: u32) -> Option<u32>
    ensures { result ≡ number_of least most id.now (rows_of (found_of matches.now)) }
{
    match matches.get_one::<u32>(id) {
        Some(number) => between(number, least, most),
        None => None,
    }
}

/// The number behind `--budget`.
fn budget_among(matches: &ArgMatches) -> Option<u32>
    ensures { result ≡ budget_among (rows_of (found_of matches.now)) }
{
    number_of(matches, "budget", 0, MOST_BUDGET)
}

/// The command that `run` and a word are.
fn run_of(end: &str) -> Option<Command>
    ensures { result ≡ run_of end.now }
{
    if end == "low" {
        return Some(Command::RunLow);
    }
    if end == "top" {
        return Some(Command::RunTop);
    }
    None
}

/// The first value of an argument, as it was written.
fn word_of<'a>(matches: &ArgMatches<'a>, id: &str) -> Option<&'a str>
    ensures { option_map (λ s. s.now) result ≡ first_of id.now (rows_of (found_of matches.now)) }
{
    matches.get_str(id)
}

/// Whether a flag with this name is among the words.
fn is_flagged(matches: &ArgMatches, id: &str) -> bool
    ensures { result ≡ is_flagged id.now (rows_of (found_of matches.now)) }
{
    match word_of(matches, id) {
        Some(word) => word == "true",
        None => false,
    }
}

/// Whether `--lines` is among the words.
fn lines_among(matches: &ArgMatches) -> bool
    ensures { result ≡ lines_among (rows_of (found_of matches.now)) }
{
    is_flagged(matches, "lines")
}

/// Whether `--assumed` is among the words.
fn assumed_among(matches: &ArgMatches) -> bool
    ensures { result ≡ assumed_among (rows_of (found_of matches.now)) }
{
    is_flagged(matches, "assumed")
}

/// The command that `run` and its value are.
fn run_among(matches: &ArgMatches) -> Option<Command>
    ensures { result ≡ run_among (rows_of (found_of matches.now)) }
{
    match word_of(matches, "end") {
        Some(end) => run_of(end),
        None => None,
    }
}

/// The command that a subcommand with a number is.
fn numbered(name: &str, matches: &ArgMatches) -> Option<Command>
    ensures { result ≡ numbered name.now (rows_of (found_of matches.now)) }
{
    if name == "check" {
        let budget = budget_among(matches)?;
        return Some(Command::Check(budget));
    }
    if name == "conditions" {
        let budget = budget_among(matches)?;
        return Some(Command::Conditions(budget));
    }
    if name == "prove" {
        let budget = budget_among(matches)?;
        return Some(Command::Prove(budget));
    }
    None
}

/// The command that a subcommand and its values are.
fn called(name: &str, matches: &ArgMatches) -> Option<Command>
    ensures { result ≡ called name.now (rows_of (found_of matches.now)) }
{
    if name == "run" {
        return run_among(matches);
    }
    numbered(name, matches)
}

/// The same, whether it is asked for by lines, and whether with what is assumed.
fn asked(name: &str, matches: &ArgMatches) -> Option<Request>
    ensures { result ≡ asked name.now (rows_of (found_of matches.now)) }
{
    let command = called(name, matches)?;
    Some(Request {
        command,
        by_lines: lines_among(matches),
        assumed: assumed_among(matches),
    })
}

/// What `clap` found.
fn found(matches: &ArgMatches) -> Option<Request>
    ensures { result ≡ option_and_then (λ p. asked p.0 p.1) (subcommand_rows_of matches.now) }
{
    match matches.subcommand() {
        Some((name, values)) => asked(name, values),
        None => None,
    }
}

/// What the words after the program's name ask for; None, where they are those of no command. The error is want of memory.
///
/// # Errors
///
/// For want of memory.
pub fn asked_of(alloc: Global, words: &Vec<String>) -> Result<Option<Request>, Memory>
    ensures { IfOk result (λ it. it ≡ asked_of (map string_bytes words.now.items)) }
{
    let line = command_line(alloc)?;
    match line.try_get_matches_from(words.as_slice()) {
        Ok(matches) => Ok(found(&matches)),
        Err(error) => match error.kind() {
            ErrorKind::OutOfMemory => Err(Memory),
            _ => Ok(None),
        },
    }
}
