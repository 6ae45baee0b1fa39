// What the words and the input call for.
ghost use Rattle.std.specs.Prelude.{◌≡◌, ◌≤◌, ℕ, List, length, map, string_bytes};
ghost use Rattle.civl_words.specs.Words.{AreWordsOf, HasFitNumbers};
ghost use Rattle.civl_frontend.specs.Texts.{IsReading, IsScriptReading, limit};
ghost use Rattle.civl_frontend.specs.Streams.{reading};
ghost use Rattle.civl_frontend.specs.Report.{bytes_of};
ghost use Rattle.civl_command.specs.inner.Replay.{plain_for};
ghost use Rattle.civl_command.specs.Outcome.{Printed, Prints, Runs, Finds, FindsBy, limit_of};
ghost use Rattle.civl_command.specs.Tasks.{command_for, AskFor, AskForSome, AsksProvers, AskProvers};
ghost use Rattle.civl_command.specs.Judge.{IsJudged, Judges};

use crate::certificates::{make_text, replay_bytes};
use crate::judged::{CERTIFICATE_LIMIT, judge_fault, too_long, usage};
use crate::proving::prove_text;
use crate::replay::{End, judge_script};
use crate::survey::survey_text;
use crate::task::Task;
use crate::trial::judge_trial;
use crate::verdict::check_text;
use civl_frontend::{Judged, LIMIT, Report, Status, Text, read_program, read_script};
use civl_outside::{Source, Whole, read_whole};
use civl_portfolio::Prover;
use civl_printer::print;
use civl_tree::Program;
use civl_words::{Command, command_of};
use std::alloc::Global;

/// The canonical text of a program.
fn print_program(alloc: Global, program: &Program) -> Judged
    ensures { IsJudged (λ outcome. outcome ≡ Printed program.now) result }
{
    let Ok(text) = print(alloc, program) else {
        return Judged::wanting();
    };
    Judged {
        status: Status::Done,
        report: Report::Made(text),
    }
}

/// What `fmt` finds of a text.
fn print_text(alloc: Global, bytes: &[u8]) -> Judged
    requires { length bytes.now ≤ limit }
    ensures { IsJudged (Finds IsReading Prints bytes.now) result }
{
    match read_program(alloc, bytes) {
        Text::Spelled(program) => print_program(alloc, &program),
        Text::Unread(fault) => judge_fault(alloc, fault),
        Text::Memory => Judged::wanting(),
    }
}

/// What `run` finds of a text.
fn run_text(alloc: Global, end: End, bytes: &[u8]) -> Judged
    requires { length bytes.now ≤ limit }
    ensures { IsJudged (Finds IsScriptReading (Runs (plain_for end)) bytes.now) result }
{
    match read_script(alloc, bytes) {
        Text::Spelled(script) => judge_script(alloc, end, script),
        Text::Unread(fault) => judge_fault(alloc, fault),
        Text::Memory => Judged::wanting(),
    }
}

/// The most bytes that the input of a task may have.
fn limit_of(task: Task) -> usize
    ensures { result ≡ limit_of task }
{
    match task {
        Task::Replay => CERTIFICATE_LIMIT,
        _ => LIMIT,
    }
}

/// What a task finds of a text, which is no longer than its input may be.
fn judge_text(alloc: Global, task: Task, bytes: &[u8], provers: &mut Vec<Box<dyn Prover>>) -> Judged
    requires { length bytes.now ≤ limit_of task }
    ensures judged { IsJudged (FindsBy task bytes.now) result }
    ensures unasked { (AsksProvers (command_for task) → ⊥) → provers.new ≡ provers.old }
{
    match task {
        Task::Check(budget) => check_text(alloc, budget, bytes, provers),
        Task::Conditions(budget) => survey_text(alloc, budget, bytes, provers),
        Task::Fmt => print_text(alloc, bytes),
        Task::RunLow => run_text(alloc, End::Low, bytes),
        Task::RunTop => run_text(alloc, End::Top, bytes),
        Task::Prove(budget) => prove_text(alloc, budget, bytes, provers),
        Task::Make(at, budget) => make_text(alloc, at, budget, bytes, provers),
        Task::Replay => replay_bytes(alloc, bytes),
    }
}

/// What a task finds of the input, which is read to its end or to one byte past the limit.
fn judge_input<S: Source>(
    alloc: Global,
    task: Task,
    source: &mut S,
    provers: &mut Vec<Box<dyn Prover>>,
) -> Judged
    ensures judges { (words : List (List ℕ)) → AskFor task words → Judges words
        (reading (S.left source.old) (S.faults source.old))
        (reading (S.left source.new) (S.faults source.new))
        result.status (bytes_of result.report) }
    ensures unasked { (AsksProvers (command_for task) → ⊥) → provers.new ≡ provers.old }
{
    let most = limit_of(task);
    match read_whole(alloc, source, most) {
        Whole::Bytes(bytes) => judge_text(alloc, task, bytes.as_slice(), provers),
        Whole::Long => too_long(alloc, most),
        Whole::Failed => Judged {
            status: Status::ReadFault,
            report: Report::Fixed(b""),
        },
        Whole::Memory => Judged::wanting(),
    }
}

/// What a command calls for: what it asks of an input is found of the input, and a trial is judged by its own text.
fn judge_command<S: Source>(
    alloc: Global,
    command: Command,
    source: &mut S,
    provers: &mut Vec<Box<dyn Prover>>,
) -> Judged
    requires { HasFitNumbers command }
    ensures judges { (words : List (List ℕ)) → AreWordsOf command words → Judges words
        (reading (S.left source.old) (S.faults source.old))
        (reading (S.left source.new) (S.faults source.new))
        result.status (bytes_of result.report) }
    ensures unread { ((task : Task) → command ≡ command_for task → ⊥) → source.new ≡ source.old }
    ensures unasked { (AsksProvers command → ⊥) → provers.new ≡ provers.old }
{
    match command {
        Command::Check(budget) => judge_input(alloc, Task::Check(budget), source, provers),
        Command::Conditions(budget) => judge_input(
            alloc,
            Task::Conditions(budget),
            source,
            provers,
        ),
        Command::Fmt => judge_input(alloc, Task::Fmt, source, provers),
        Command::RunLow => judge_input(alloc, Task::RunLow, source, provers),
        Command::RunTop => judge_input(alloc, Task::RunTop, source, provers),
        Command::Trial(number) => judge_trial(alloc, number, provers),
        Command::Prove(budget) => judge_input(alloc, Task::Prove(budget), source, provers),
        Command::ProofMake(at, budget) => {
            judge_input(alloc, Task::Make(at, budget), source, provers)
        }
        Command::ProofReplay => judge_input(alloc, Task::Replay, source, provers),
    }
}

/// What the words and the input call for. The input is read where the words ask for something of it.
pub(crate) fn judge<S: Source>(
    alloc: Global,
    words: &Vec<String>,
    source: &mut S,
    provers: &mut Vec<Box<dyn Prover>>,
) -> Judged
    ensures judges { Judges (map string_bytes words.now.items)
        (reading (S.left source.old) (S.faults source.old))
        (reading (S.left source.new) (S.faults source.new))
        result.status (bytes_of result.report) }
    ensures unread { (AskForSome (map string_bytes words.now.items) → ⊥) → source.new ≡ source.old }
    ensures unasked { (AskProvers (map string_bytes words.now.items) → ⊥) → provers.new ≡ provers.old }
{
    match command_of(alloc, words) {
        Ok(found) => match found {
            Some(command) => judge_command(alloc, command, source, provers),
            None => usage(),
        },
        Err(_) => Judged::wanting(),
    }
}
