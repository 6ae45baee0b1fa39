// The command line that `clap` reads.
ghost use Rattle.std.specs.Prelude.{◌≡◌, IfOk, false};
ghost use Rattle.clap.specs.Walk.{rule_of};
ghost use Rattle.clap.specs.declared.builder.Command.TheViews.{out-Command as fields_of};
ghost use Rattle.clap.specs.Simple.{App, app_of};
ghost use Rattle.civl_explain_words.specs.Line.{IsLine, with_line, budget_option, usual_budget_option, lines_flag, assumed_flag, wanted_rule, check_line, conditions_line, text_lines, run_line, prove_line, all_lines, command_line};

use clap::{Arg, ArgAction, Command, value_parser};
use std::alloc::{AllocError, Global};

/// `--budget N`
fn budget_option<'a>(alloc: Global) -> Arg<'a>
    ensures rule { rule_of result ≡ budget_option }
    ensures local { result.global ≡ false }
{
    Arg::new(alloc, "budget")
        .long("budget")
        .value_parser(value_parser!(u32).range(0..=10_000_000))
}

/// `--budget N`, with a number where it isn't given.
fn usual_budget_option<'a>(alloc: Global) -> Arg<'a>
    ensures rule { rule_of result ≡ usual_budget_option }
    ensures local { result.global ≡ false }
{
    budget_option(alloc).default_value("200000")
}

/// `--lines`
fn lines_flag<'a>(alloc: Global) -> Arg<'a>
    ensures rule { rule_of result ≡ lines_flag }
    ensures local { result.global ≡ false }
{
    Arg::new(alloc, "lines")
        .long("lines")
        .action(ArgAction::SetTrue)
}

/// `--assumed`
fn assumed_flag<'a>(alloc: Global) -> Arg<'a>
    ensures rule { rule_of result ≡ assumed_flag }
    ensures local { result.global ≡ false }
{
    Arg::new(alloc, "assumed")
        .long("assumed")
        .action(ArgAction::SetTrue)
}

/// A word that is wanted.
fn wanted_word<'a>(alloc: Global, id: &'a str) -> Arg<'a>
    ensures rule { rule_of result ≡ wanted_rule id.entry.now }
    ensures local { result.global ≡ false }
{
    Arg::new(alloc, id).required(true)
}

fn check_line<'a>(alloc: Global) -> Result<Command<'a>, AllocError>
    ensures { IfOk result (IsLine check_line) }
{
    Command::new(alloc, "check")
        .arg(usual_budget_option(alloc))?
        .arg(lines_flag(alloc))?
        .arg(assumed_flag(alloc))
}

fn conditions_line<'a>(alloc: Global) -> Result<Command<'a>, AllocError>
    ensures { IfOk result (IsLine conditions_line) }
{
    Command::new(alloc, "conditions")
        .arg(usual_budget_option(alloc))?
        .arg(lines_flag(alloc))?
        .arg(assumed_flag(alloc))
}

fn run_line<'a>(alloc: Global) -> Result<Command<'a>, AllocError>
    ensures { IfOk result (IsLine run_line) }
{
    Command::new(alloc, "run")
        .arg(wanted_word(alloc, "end"))?
        .arg(lines_flag(alloc))
}

fn prove_line<'a>(alloc: Global) -> Result<Command<'a>, AllocError>
    ensures { IfOk result (IsLine prove_line) }
{
    Command::new(alloc, "prove")
        .arg(usual_budget_option(alloc))?
        .arg(lines_flag(alloc))?
        .arg(assumed_flag(alloc))
}

/// A command line with a subcommand more.
fn with<'a>(
    whole: Result<Command<'a>, AllocError>,
    part: Result<Command<'a>, AllocError>,
) -> Result<Command<'a>, AllocError>
    ensures { (a b : App) → IfOk whole.entry (IsLine a) → IfOk part.entry (IsLine b) → IfOk result (IsLine (with_line a b)) }
{
    whole?.subcommand(part?)
}

/// The commands over the text of a program.
fn text_lines<'a>(alloc: Global) -> Result<Command<'a>, AllocError>
    ensures { IfOk result (IsLine text_lines) }
{
    let line = with(Ok(Command::new(alloc, "civl_explain")), check_line(alloc));
    with(line, conditions_line(alloc))
}

/// All commands.
fn all_lines<'a>(alloc: Global) -> Result<Command<'a>, AllocError>
    ensures { IfOk result (IsLine all_lines) }
{
    let line = with(text_lines(alloc), run_line(alloc));
    with(line, prove_line(alloc))
}

/// The command line, of the words after the program's name.
pub(crate) fn command_line<'a>(alloc: Global) -> Result<Command<'a>, AllocError>
    ensures { IfOk result (λ c. app_of c ≡ command_line) }
{
    let line = all_lines(alloc)?;
    Ok(line.no_binary_name(true).subcommand_required(true))
}
