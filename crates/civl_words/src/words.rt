// The words of a command line.
ghost use Rattle.std.specs.Prelude.{◌≡◌, ◌&&◌, nat_le, if◌then◌else◌, Some, None, IfOk, is_some, map, string_bytes, option_map, option_and_then};
ghost use Rattle.clap.specs.Walk.{first_of, rows_of};
ghost use Rattle.clap.specs.Words.{found_of, subcommand_rows_of};
ghost use Rattle.civl_words.specs.Words.{number_of, budget_among, place_among, run_of, run_among, making_of, replaying_of, proof_of, proof_among, numbered, called, command_of};

use crate::line::command_line;
use crate::memory::Memory;
use clap::ArgMatches;
use clap::error::ErrorKind;
use std::alloc::Global;

/// The most clauses that a search may be allowed to learn.
const MOST_BUDGET: u32 = 10_000_000;

/// How many clauses a search may learn where the words don't say so many.
pub const USUAL_BUDGET: u32 = 200_000;

/// A command, with the numbers that its words give.
#[derive(Clone, Copy, Debug, PartialEq, Eq)]
pub enum Command {
    /// `check`: the verdict on a program, where each search may learn so many clauses.
    Check(u32),
    /// `conditions`: what is found of each condition of a program, where each search may learn so many clauses.
    Conditions(u32),
    /// `fmt`: the canonical text of a program.
    Fmt,
    /// `run low`: a schedule of the lowest program of a script.
    RunLow,
    /// `run top`: a schedule of its topmost program.
    RunTop,
    /// `trial`: the verdict on the trial program of so many copies, from 1 to 8.
    Trial(u32),
    /// `prove`: what is found of an outline of a program, where each search may learn so many clauses.
    Prove(u32),
    /// `proof make`: a certificate of the condition at a place, for which a search may learn so many clauses.
    ProofMake(u32, u32),
    /// `proof replay`: whether a certificate stands.
    ProofReplay,
}

/// The number, where it lies between these two.
fn between(number: u32, least: u32, most: u32) -> Option<u32>
    ensures { result ≡ (if nat_le least number && nat_le number most then Some number else None) }
{
    if number < least {
        None
    } else if number > most {
        None
    } else {
        Some(number)
    }
}

/// The number that an argument has, where it lies between these two.
fn number_of(matches: &ArgMatches, id: &str, least: u32, most: u32) -> Option<u32>
    ensures { result ≡ number_of least most id.now (rows_of (found_of matches.now)) }
{
    match matches.get_one::<u32>(id) {
        Some(number) => between(number, least, most),
        None => None,
    }
}

/// The number behind `--budget`.
fn budget_among(matches: &ArgMatches) -> Option<u32>
    ensures { result ≡ budget_among (rows_of (found_of matches.now)) }
{
    number_of(matches, "budget", 0, MOST_BUDGET)
}

/// The number behind `--at`.
fn place_among(matches: &ArgMatches) -> Option<u32>
    ensures { result ≡ place_among (rows_of (found_of matches.now)) }
{
    number_of(matches, "at", 0, u32::MAX)
}

/// The command that `run` and a word are.
fn run_of(end: &str) -> Option<Command>
    ensures { result ≡ run_of end.now }
{
    if end == "low" {
        return Some(Command::RunLow);
    }
    if end == "top" {
        return Some(Command::RunTop);
    }
    None
}

/// The first value of an argument, as it was written.
fn word_of<'a>(matches: &ArgMatches<'a>, id: &str) -> Option<&'a str>
    ensures { option_map (λ s. s.now) result ≡ first_of id.now (rows_of (found_of matches.now)) }
{
    matches.get_str(id)
}

/// Whether an argument has a value.
fn is_given(matches: &ArgMatches, id: &str) -> bool
    ensures { result ≡ is_some (first_of id.now (rows_of (found_of matches.now))) }
{
    match word_of(matches, id) {
        Some(_) => true,
        None => false,
    }
}

/// The command `proof make`.
fn making_of(matches: &ArgMatches) -> Command
    ensures { result ≡ making_of (rows_of (found_of matches.now)) }
{
    let place = place_among(matches).unwrap_or(0);
    let budget = budget_among(matches).unwrap_or(USUAL_BUDGET);
    Command::ProofMake(place, budget)
}

/// The command `proof replay`, which takes no option.
fn replaying_of(matches: &ArgMatches) -> Option<Command>
    ensures { result ≡ replaying_of (rows_of (found_of matches.now)) }
{
    if is_given(matches, "at") {
        return None;
    }
    if is_given(matches, "budget") {
        return None;
    }
    Some(Command::ProofReplay)
}

/// The command that `proof`, a word and options are.
fn proof_of(matches: &ArgMatches, act: &str) -> Option<Command>
    ensures { result ≡ proof_of (rows_of (found_of matches.now)) act.now }
{
    if act == "make" {
        return Some(making_of(matches));
    }
    if act == "replay" {
        return replaying_of(matches);
    }
    None
}

/// The command that `run` and its value are.
fn run_among(matches: &ArgMatches) -> Option<Command>
    ensures { result ≡ run_among (rows_of (found_of matches.now)) }
{
    match word_of(matches, "end") {
        Some(end) => run_of(end),
        None => None,
    }
}

/// The command that `proof` and its values are.
fn proof_among(matches: &ArgMatches) -> Option<Command>
    ensures { result ≡ proof_among (rows_of (found_of matches.now)) }
{
    match word_of(matches, "act") {
        Some(act) => proof_of(matches, act),
        None => None,
    }
}

/// The command that a subcommand with a number is.
fn numbered(name: &str, matches: &ArgMatches) -> Option<Command>
    ensures { result ≡ numbered name.now (rows_of (found_of matches.now)) }
{
    if name == "check" {
        let budget = budget_among(matches)?;
        return Some(Command::Check(budget));
    }
    if name == "conditions" {
        let budget = budget_among(matches)?;
        return Some(Command::Conditions(budget));
    }
    if name == "prove" {
        let budget = budget_among(matches)?;
        return Some(Command::Prove(budget));
    }
    if name == "trial" {
        let number = number_of(matches, "number", 1, 8)?;
        return Some(Command::Trial(number));
    }
    None
}

/// The command that a subcommand and its values are.
fn called(name: &str, matches: &ArgMatches) -> Option<Command>
    ensures { result ≡ called name.now (rows_of (found_of matches.now)) }
{
    if name == "fmt" {
        return Some(Command::Fmt);
    }
    if name == "run" {
        return run_among(matches);
    }
    if name == "proof" {
        return proof_among(matches);
    }
    numbered(name, matches)
}

/// The command that `clap` found.
fn found(matches: &ArgMatches) -> Option<Command>
    ensures { result ≡ option_and_then (λ p. called p.0 p.1) (subcommand_rows_of matches.now) }
{
    match matches.subcommand() {
        Some((name, values)) => called(name, values),
        None => None,
    }
}

/// The command that the words after the program's name are those of; None, where they are those of none. The error is want of memory.
///
/// # Errors
///
/// For want of memory.
pub fn command_of(alloc: Global, words: &Vec<String>) -> Result<Option<Command>, Memory>
    ensures { IfOk result (λ it. it ≡ command_of (map string_bytes words.now.items)) }
{
    let line = command_line(alloc)?;
    match line.try_get_matches_from(words.as_slice()) {
        Ok(matches) => Ok(found(&matches)),
        Err(error) => match error.kind() {
            ErrorKind::OutOfMemory => Err(Memory),
            _ => Ok(None),
        },
    }
}
