// The command line that `clap` reads.
ghost use Rattle.std.specs.Prelude.{◌≡◌, IfOk, false};
ghost use Rattle.clap.specs.Walk.{rule_of};
ghost use Rattle.clap.specs.declared.builder.Command.TheViews.{out-Command as fields_of};
ghost use Rattle.clap.specs.Simple.{App, app_of};
ghost use Rattle.civl_words.specs.Line.{IsLine, with_line, budget_option, usual_budget_option, place_option, trial_number, wanted_rule, check_line, conditions_line, fmt_line, text_lines, run_line, trial_line, run_lines, prove_line, proof_line, all_lines, command_line};

use clap::{Arg, Command, value_parser};
use std::alloc::{AllocError, Global};

/// `--budget N`
fn budget_option<'a>(alloc: Global) -> Arg<'a>
    ensures rule { rule_of result ≡ budget_option }
    ensures local { result.global ≡ false }
{
    Arg::new(alloc, "budget")
        .long("budget")
        .value_parser(value_parser!(u32).range(0..=10_000_000))
}

/// `--budget N`, with a number where it isn't given.
fn usual_budget_option<'a>(alloc: Global) -> Arg<'a>
    ensures rule { rule_of result ≡ usual_budget_option }
    ensures local { result.global ≡ false }
{
    budget_option(alloc).default_value("200000")
}

/// `--at K`
fn place_option<'a>(alloc: Global) -> Arg<'a>
    ensures rule { rule_of result ≡ place_option }
    ensures local { result.global ≡ false }
{
    Arg::new(alloc, "at")
        .long("at")
        .value_parser(value_parser!(u32))
}

/// N of `trial N`
fn trial_number<'a>(alloc: Global) -> Arg<'a>
    ensures rule { rule_of result ≡ trial_number }
    ensures local { result.global ≡ false }
{
    Arg::new(alloc, "number")
        .required(true)
        .value_parser(value_parser!(u32).range(1..=8))
}

/// A word that is wanted.
fn wanted_word<'a>(alloc: Global, id: &'a str) -> Arg<'a>
    ensures rule { rule_of result ≡ wanted_rule id.entry.now }
    ensures local { result.global ≡ false }
{
    Arg::new(alloc, id).required(true)
}

fn check_line<'a>(alloc: Global) -> Result<Command<'a>, AllocError>
    ensures { IfOk result (IsLine check_line) }
{
    Command::new(alloc, "check").arg(usual_budget_option(alloc))
}

fn conditions_line<'a>(alloc: Global) -> Result<Command<'a>, AllocError>
    ensures { IfOk result (IsLine conditions_line) }
{
    Command::new(alloc, "conditions").arg(usual_budget_option(alloc))
}

fn fmt_line<'a>(alloc: Global) -> Command<'a>
    ensures app { app_of result ≡ fmt_line }
    ensures local { (fields_of result).has_globals ≡ false }
{
    Command::new(alloc, "fmt")
}

fn run_line<'a>(alloc: Global) -> Result<Command<'a>, AllocError>
    ensures { IfOk result (IsLine run_line) }
{
    Command::new(alloc, "run").arg(wanted_word(alloc, "end"))
}

fn trial_line<'a>(alloc: Global) -> Result<Command<'a>, AllocError>
    ensures { IfOk result (IsLine trial_line) }
{
    Command::new(alloc, "trial").arg(trial_number(alloc))
}

fn prove_line<'a>(alloc: Global) -> Result<Command<'a>, AllocError>
    ensures { IfOk result (IsLine prove_line) }
{
    Command::new(alloc, "prove").arg(usual_budget_option(alloc))
}

fn proof_line<'a>(alloc: Global) -> Result<Command<'a>, AllocError>
    ensures { IfOk result (IsLine proof_line) }
{
    Command::new(alloc, "proof")
        .arg(wanted_word(alloc, "act"))?
        .arg(place_option(alloc))?
        .arg(budget_option(alloc))
}

/// A command line with a subcommand more.
fn with<'a>(
    whole: Result<Command<'a>, AllocError>,
    part: Result<Command<'a>, AllocError>,
) -> Result<Command<'a>, AllocError>
    ensures { (a b : App) → IfOk whole.entry (IsLine a) → IfOk part.entry (IsLine b) → IfOk result (IsLine (with_line a b)) }
{
    whole?.subcommand(part?)
}

/// The commands over the text of a program.
fn text_lines<'a>(alloc: Global) -> Result<Command<'a>, AllocError>
    ensures { IfOk result (IsLine text_lines) }
{
    let line = with(Ok(Command::new(alloc, "civl")), check_line(alloc));
    let line = with(line, conditions_line(alloc));
    with(line, Ok(fmt_line(alloc)))
}

/// These, and those that run or try a program.
fn run_lines<'a>(alloc: Global) -> Result<Command<'a>, AllocError>
    ensures { IfOk result (IsLine run_lines) }
{
    let line = with(text_lines(alloc), run_line(alloc));
    with(line, trial_line(alloc))
}

/// All commands.
fn all_lines<'a>(alloc: Global) -> Result<Command<'a>, AllocError>
    ensures { IfOk result (IsLine all_lines) }
{
    let line = with(run_lines(alloc), prove_line(alloc));
    with(line, proof_line(alloc))
}

/// The command line, of the words after the program's name.
pub(crate) fn command_line<'a>(alloc: Global) -> Result<Command<'a>, AllocError>
    ensures { IfOk result (λ c. app_of c ≡ command_line) }
{
    let line = all_lines(alloc)?;
    Ok(line.no_binary_name(true).subcommand_required(true))
}
