// Schedules of scripts.
ghost use Rattle.std.specs.Prelude.{◌≡◌, ◌+◌, ◌<◌, ◌^◌, length, IfOk};
ghost use Rattle.civl_tree.specs.Numbered.{IsNumbered};
ghost use Rattle.civl_script.specs.replays.Trace.{trace_of};
ghost use Rattle.civl_frontend.specs.Rules.{IsLawful};
ghost use Rattle.civl_command.specs.inner.Replay.{plain_for};
ghost use Rattle.civl_command.specs.Outcome.{Misfit, Ran, Runs};
ghost use Rattle.civl_command.specs.Judge.{IsJudged};

use crate::judged::refuse;
use crate::report::report_run;
use civl_frontend::{Judged, Report, Status, admitted, report_misfit};
use civl_layers::{Layered, low, program, top};
use civl_meaning::{Move, Plain, Store};
use civl_script::replays::run;
use civl_script::{Schedule, read_schedule};
use civl_tree::{Entry, List, Memory, Refused, Script, Told};
use civl_yields::verify::source;
use std::alloc::Global;

/// The end of the chain of layers whose program is run.
#[derive(Clone, Copy)]
pub(crate) enum End {
    Low,
    Top,
}

/// The plain program at an end.
fn plain_at(alloc: Global, end: End, src: &Layered) -> Result<Plain, Memory>
    ensures { IfOk result (λ plain. plain ≡ plain_for end src.now) }
{
    match end {
        End::Low => low(alloc, src),
        End::Top => top(alloc, src),
    }
}

/// What is written where an entry or a move doesn't fit.
fn misfit(alloc: Global, number: usize) -> Judged
    ensures { IsJudged (λ outcome. outcome ≡ Misfit number) result }
{
    let Ok(report) = report_misfit(alloc, number) else {
        return Judged::wanting();
    };
    Judged {
        status: Status::Refused,
        report: Report::Made(report),
    }
}

/// What the moves give from the store.
fn replay(alloc: Global, plain: &Plain, store: &Store, moves: &List<Move>) -> Judged
    requires { length plain.now.program.threads + length moves.now + 1 < 2 ^ 32 }
    ensures { IsJudged (λ outcome. outcome ≡ Ran plain.now.program (trace_of plain.now store.now moves.now)) result }
{
    let Ok(trace) = run(alloc, plain, store, moves) else {
        return Judged::wanting();
    };
    let Ok(report) = report_run(alloc, &plain.program, &trace) else {
        return Judged::wanting();
    };
    Judged {
        status: Status::Done,
        report: Report::Made(report),
    }
}

/// What `run` finds of a script whose program breaks no static rule.
fn judge_lawful(
    alloc: Global,
    end: End,
    src: &Layered,
    store: &List<Entry>,
    moves: &List<Told>,
) -> Judged
    requires rules { IsLawful src.now }
    requires few { length src.now.threads + length moves.now + 1 < 2 ^ 32 }
    ensures { IsJudged (Runs (plain_for end) (record { program = src.now; store = store.now; moves = moves.now })) result }
{
    match read_schedule(alloc, &program(src).globals, store, moves) {
        Ok(Schedule::Fits(store, moves)) => match plain_at(alloc, end, src) {
            Ok(plain) => replay(alloc, &plain, &store, &moves),
            Err(Memory) => Judged::wanting(),
        },
        Ok(Schedule::Wrong(number)) => misfit(alloc, number),
        Err(Memory) => Judged::wanting(),
    }
}

/// What `run` finds of a script. Its program has fewer than 2^32 items, and each procedure fewer than 2^32 statements; its
/// threads and moves are fewer than 2^32 less one.
pub(crate) fn judge_script(alloc: Global, end: End, script: Script) -> Judged
    requires numbered { IsNumbered script.program }
    requires few { length script.program.threads + length script.moves + 1 < 2 ^ 32 }
    ensures { IsJudged (Runs (plain_for end) script) result }
{
    let Script {
        program,
        store,
        moves,
    } = script;
    match admitted(alloc, program) {
        Ok(admitted) => judge_lawful(alloc, end, source(&admitted), &store, &moves),
        Err(Refused::At(refusal)) => refuse(alloc, refusal),
        Err(Refused::Memory) => Judged::wanting(),
    }
}
