// What the words and the input call for.
ghost use Rattle.std.specs.Prelude.{◌≡◌, ◌≤◌, ℕ, List, length, map, string_bytes, if◌then◌else◌};
ghost use Rattle.civl_explain_words.specs.Words.{AreWordsOf};
ghost use Rattle.civl_frontend.specs.Report.{bytes_of};
ghost use Rattle.civl_frontend.specs.Streams.{reading};
ghost use Rattle.civl_frontend.specs.Texts.{limit};
ghost use Rattle.civl_explain_command.specs.Tasks.{AskForSome, AskProvers, AsksProvers, manner_of, kind_of};
ghost use Rattle.civl_explain_command.specs.Outcome.{FindsBy};
ghost use Rattle.civl_explain_command.specs.Judge.{IsJudged, Judges};

use crate::check::check_text;
use crate::conditions::survey_text;
use crate::judged::{Input, too_long, usage};
use crate::manner::Manner;
use crate::prove::prove_text;
use crate::run::{End, run_text};
use civl_expected::TextKind;
use civl_explain_words::{Command, Request, asked_of};
use civl_frontend::{Judged, LIMIT, Report, Status};
use civl_lines::Form;
use civl_outside::{Source, Whole, read_whole};
use civl_portfolio::Prover;
use std::alloc::Global;

/// What the input of a command is.
fn kind_of(command: Command) -> TextKind
    ensures { result ≡ kind_of command }
{
    match command {
        Command::Check(_) => TextKind::Program,
        Command::Conditions(_) => TextKind::Program,
        Command::RunLow => TextKind::Script,
        Command::RunTop => TextKind::Script,
        Command::Prove(_) => TextKind::Outline,
    }
}

/// The form of the lines of stories.
fn form_of(by_lines: bool) -> Form
    ensures { result ≡ if by_lines then Form.Findings else Form.Story }
{
    if by_lines {
        Form::Findings
    } else {
        Form::Story
    }
}

/// How stories are told.
fn manner_of(request: Request) -> Manner
    ensures { result ≡ manner_of request }
{
    Manner {
        form: form_of(request.by_lines),
        assumed: request.assumed,
    }
}

/// What a command finds of a text, which is no longer than an input may be.
fn judge_text(
    alloc: Global,
    command: Command,
    input: &Input<'_>,
    provers: &mut Vec<Box<dyn Prover>>,
) -> Judged
    requires { length input.now.bytes.now ≤ limit }
    ensures judged { IsJudged input.now.kind input.now.manner input.now.bytes.now (FindsBy command input.now.bytes.now) result }
    ensures unasked { (AsksProvers command → ⊥) → provers.new ≡ provers.old }
{
    match command {
        Command::Check(budget) => check_text(alloc, input, budget, provers),
        Command::Conditions(budget) => survey_text(alloc, input, budget, provers),
        Command::RunLow => run_text(alloc, input, End::Low),
        Command::RunTop => run_text(alloc, input, End::Top),
        Command::Prove(budget) => prove_text(alloc, input, budget, provers),
    }
}

/// What a request finds of bytes.
fn judge_bytes(
    alloc: Global,
    request: Request,
    bytes: &[u8],
    provers: &mut Vec<Box<dyn Prover>>,
) -> Judged
    requires { length bytes.now ≤ limit }
    ensures judged { IsJudged (kind_of request.command) (manner_of request) bytes.now (FindsBy request.command bytes.now) result }
    ensures unasked { (AsksProvers request.command → ⊥) → provers.new ≡ provers.old }
{
    let input = Input {
        kind: kind_of(request.command),
        manner: manner_of(request),
        bytes,
    };
    judge_text(alloc, request.command, &input, provers)
}

/// What a request finds of the input, which is read to its end or to one byte past the limit.
fn judge_input<S: Source>(
    alloc: Global,
    request: Request,
    source: &mut S,
    provers: &mut Vec<Box<dyn Prover>>,
) -> Judged
    ensures judges { (words : List (List ℕ)) → AreWordsOf request words → Judges words
        (reading (S.left source.old) (S.faults source.old))
        (reading (S.left source.new) (S.faults source.new))
        result.status (bytes_of result.report) }
    ensures unasked { (AsksProvers request.command → ⊥) → provers.new ≡ provers.old }
{
    match read_whole(alloc, source, LIMIT) {
        Whole::Bytes(bytes) => judge_bytes(alloc, request, bytes.as_slice(), provers),
        Whole::Long => too_long(alloc, kind_of(request.command), manner_of(request), LIMIT),
        Whole::Failed => Judged {
            status: Status::ReadFault,
            report: Report::Fixed(b""),
        },
        Whole::Memory => Judged::wanting(),
    }
}

/// What the words and the input call for. The input is read where the words ask for something of it.
pub(crate) fn judge<S: Source>(
    alloc: Global,
    words: &Vec<String>,
    source: &mut S,
    provers: &mut Vec<Box<dyn Prover>>,
) -> Judged
    ensures judges { Judges (map string_bytes words.now.items)
        (reading (S.left source.old) (S.faults source.old))
        (reading (S.left source.new) (S.faults source.new))
        result.status (bytes_of result.report) }
    ensures unread { (AskForSome (map string_bytes words.now.items) → ⊥) → source.new ≡ source.old }
    ensures unasked { (AskProvers (map string_bytes words.now.items) → ⊥) → provers.new ≡ provers.old }
{
    match asked_of(alloc, words) {
        Ok(found) => match found {
            Some(request) => judge_input(alloc, request, source, provers),
            None => usage(),
        },
        Err(_) => Judged::wanting(),
    }
}
