// Schedules of scripts, move by move.
ghost use Rattle.std.specs.Prelude.{◌≡◌, ◌≤◌, ◌+◌, ◌<◌, ◌^◌, ◌++◌, length, IfOk, IfSome, OnOk};
ghost use Rattle.civl_tree.specs.Numbered.{IsNumbered};
ghost use Rattle.civl_tree.specs.Numbering.{item_count};
ghost use Rattle.civl_tree.specs.SpellingProgram.{spell_program};
ghost use Rattle.civl_tree.specs.SpellingScript.{spell_script};
ghost use Rattle.std.specs.Option.{option_map_or};
ghost use Rattle.civl_meaning.specs.Step.{start};
ghost use Rattle.civl_script.specs.replays.Trace.{trace_of};
ghost use Rattle.civl_history.specs.History.{last_of, stopped_thread, thread_stands};
ghost use Rattle.civl_frontend.specs.Rules.{IsLawful};
ghost use Rattle.civl_frontend.specs.Texts.{IsScriptReading, limit};
ghost use Rattle.civl_lines.specs.Tokens.{AreTokens};
ghost use Rattle.civl_explain_command.specs.Runs.{at_move, end_line, failing_text, run_lines, run_told, stand_line, stopped_lines, stopped_text};
ghost use Rattle.civl_explain_command.specs.Outcome.{Finds, Misfit, Ran, Traces};
ghost use Rattle.civl_explain_command.specs.Told.{IsTold};
ghost use Rattle.civl_explain_command.specs.Judge.{IsJudged};
ghost use Rattle.civl_explain_command.specs.inner.Read.{IsBroken, plain_for};
ghost use Rattle.civl_explain_command.specs.inner.Histories.{history_lines};

use crate::admission::admit;
use crate::judged::{Input, all_tokens, judge_fault, refused};
use crate::moves::{push_moves, stand_line};
use crate::running::{answer_name, put_run};
use civl_frontend::{Judged, Report, Status, Text as Read, read_script, report_misfit};
use civl_history::{History, Stand, tell_moves};
use civl_layers::{Layered, low, program, top};
use civl_lines::{Form, Kind, Line, Shown, Text, put_lines};
use civl_meaning::{Move, Plain, Stepped, Store};
use civl_refusals::{part_start, put_misfit};
use civl_script::{Schedule, read_schedule};
use civl_tree::{List, Memory, Program, Script};
use civl_verdicts::reports::{put, put_number};
use civl_yields::verify::source;
use std::alloc::Global;

/// The end of the chain of layers whose program is run.
#[derive(Clone, Copy)]
pub(crate) enum End {
    Low,
    Top,
}

/// The plain program at an end.
fn plain_at(alloc: Global, end: End, src: &Layered) -> Result<Plain, Memory>
    ensures { IfOk result (λ plain. plain ≡ plain_for end src.now) }
{
    match end {
        End::Low => low(alloc, src),
        End::Top => top(alloc, src),
    }
}

/// The thread of the first move that isn't made, where so many are.
fn stopped_thread(moves: &[Move], moved: usize) -> Option<u32>
    ensures is { result ≡ stopped_thread moves.now moved }
    ensures there { IfSome result (λ thread. moved < length moves.now) }
{
    if moved < moves.len() {
        Some(moves[moved].thread)
    } else {
        None
    }
}

/// The move that isn't made.
fn stopped_text(
    alloc: Global,
    thread: Option<u32>,
    stopped: Option<Stepped>,
) -> Result<List<u8>, Memory>
    ensures { IfOk result (λ text. text ≡ stopped_text thread stopped) }
{
    let mut text = Vec::new(alloc);
    if let Some(thread) = thread {
        if let Some(answer) = stopped {
            put(&mut text, b"thread ")?;
            put_number(&mut text, thread as usize)?;
            put(&mut text, b": ")?;
            put(&mut text, answer_name(answer))?;
        }
    }
    Ok(List::from_vec(text))
}

/// The thread that fails.
fn failing_text(alloc: Global, thread: Option<u32>) -> Result<List<u8>, Memory>
    ensures { IfOk result (λ text. text ≡ failing_text thread) }
{
    let mut text = Vec::new(alloc);
    if let Some(thread) = thread {
        put(&mut text, b"thread ")?;
        put_number(&mut text, thread as usize)?;
        put(&mut text, b" fails")?;
    }
    Ok(List::from_vec(text))
}

/// Adds a line at a place where a thread stands, if it does.
fn push_end(
    lines: &mut Vec<Line>,
    program: &Program,
    kind: Kind,
    stand: Option<Stand>,
    text: List<u8>,
) -> Result<(), Memory>
    requires short { length (spell_program program.now) < 2 ^ 64 }
    requires items { item_count program.now < 2 ^ 32 }
    ensures { OnOk result (lines.new.items ≡ lines.old.items ++ end_line program.now kind stand text) }
{
    if let Some(stand) = stand {
        lines.push(stand_line(program, kind, stand, text))?;
    }
    Ok(())
}

/// A line at the move with this number.
fn at_move(script: &Script, number: usize, text: List<u8>) -> Line
    requires short { length (spell_script script.now) < 2 ^ 64 }
    requires there { number < length script.now.moves }
    ensures { result ≡ at_move script.now number text }
{
    Line {
        token: part_start(script, script.store.len() + number),
        shown: Shown::Head,
        kind: Kind::Info,
        text,
    }
}

/// The line of the move with this number, which isn't made.
fn stopped_line(
    script: &Script,
    program: &Program,
    number: usize,
    stand: Option<Stand>,
    text: List<u8>,
) -> Line
    requires whole { length (spell_script script.now) < 2 ^ 64 }
    requires there { number < length script.now.moves }
    requires short { length (spell_program program.now) < 2 ^ 64 }
    requires items { item_count program.now < 2 ^ 32 }
    ensures { result ≡ option_map_or (λ s. stand_line program.now Kind.Info s text) stand (at_move script.now number text) }
{
    match stand {
        Some(stand) => stand_line(program, Kind::Info, stand, text),
        None => at_move(script, number, text),
    }
}

/// Adds it, where a move isn't made.
fn push_stopped(
    lines: &mut Vec<Line>,
    script: &Script,
    program: &Program,
    number: usize,
    thread: Option<u32>,
    stand: Option<Stand>,
    text: List<u8>,
) -> Result<(), Memory>
    requires whole { length (spell_script script.now) < 2 ^ 64 }
    requires there { IfSome thread (λ t. number < length script.now.moves) }
    requires short { length (spell_program program.now) < 2 ^ 64 }
    requires items { item_count program.now < 2 ^ 32 }
    ensures { OnOk result (lines.new.items ≡ lines.old.items ++ stopped_lines script.now program.now number thread stand text) }
{
    if let Some(_) = thread {
        lines.push(stopped_line(script, program, number, stand, text))?;
    }
    Ok(())
}

/// The lines of a run: its moves, where it stopped, and which thread fails.
fn push_run(
    alloc: Global,
    lines: &mut Vec<Line>,
    script: &Script,
    program: &Program,
    moves: &[Move],
    history: &History,
) -> Result<(), Memory>
    requires whole { length (spell_script script.now) < 2 ^ 64 }
    requires same { length moves.now ≡ length script.now.moves }
    requires short { length (spell_program program.now) < 2 ^ 64 }
    requires items { item_count program.now < 2 ^ 32 }
    ensures { OnOk result (lines.new.items ≡ lines.old.items ++ history_lines script.now program.now moves.now history.now) }
{
    let number = history.trace.moved;
    let stopped = stopped_thread(moves, number);
    push_moves(alloc, lines, program, history.moves.as_slice())?;
    let text = stopped_text(alloc, stopped, history.trace.stopped)?;
    push_stopped(
        lines,
        script,
        program,
        number,
        stopped,
        history.stopped_at,
        text,
    )?;
    let text = failing_text(alloc, history.trace.failing)?;
    push_end(lines, program, Kind::Error, history.failing_at, text)
}

/// A run as it is told: the script, and the program that is run, from a store, by moves.
#[derive(Clone, Copy)]
struct Running<'a> {
    script: &'a Script,
    plain: &'a Plain,
    store: &'a Store,
    moves: &'a List<Move>,
}

/// What is told of a run.
fn put_told(
    alloc: Global,
    out: &mut Vec<u8>,
    form: Form,
    text: &Text<'_>,
    running: &Running<'_>,
) -> Result<(), Memory>
    requires few { length running.now.plain.now.program.threads + length running.now.moves.now + 1 < 2 ^ 32 }
    requires whole { length (spell_script running.now.script.now) < 2 ^ 64 }
    requires same { length running.now.moves.now ≡ length running.now.script.now.moves }
    requires short { length (spell_program running.now.plain.now.program) < 2 ^ 64 }
    requires items { item_count running.now.plain.now.program < 2 ^ 32 }
    requires tokens { AreTokens text.now.bytes.now text.now.tokens.now }
    ensures { OnOk result (out.new.items ≡ out.old.items
        ++ run_told form text.now.bytes.now text.now.tokens.now running.now.script.now running.now.plain.now running.now.store.now running.now.moves.now) }
{
    let history = tell_moves(alloc, running.plain, running.store, running.moves)?;
    let mut lines = Vec::new(alloc);
    push_run(
        alloc,
        &mut lines,
        running.script,
        &running.plain.program,
        running.moves.as_slice(),
        &history,
    )?;
    put_lines(out, form, text, lines.as_slice())?;
    put_run(out, &running.plain.program, &history.trace)
}

/// The report of a run.
fn report_told(alloc: Global, input: &Input<'_>, running: &Running<'_>) -> Result<Vec<u8>, Memory>
    requires few { length running.now.plain.now.program.threads + length running.now.moves.now + 1 < 2 ^ 32 }
    requires whole { length (spell_script running.now.script.now) < 2 ^ 64 }
    requires same { length running.now.moves.now ≡ length running.now.script.now.moves }
    requires short { length (spell_program running.now.plain.now.program) < 2 ^ 64 }
    requires items { item_count running.now.plain.now.program < 2 ^ 32 }
    ensures { IfOk result (λ out. IsTold input.now.kind input.now.manner input.now.bytes.now
        (Ran running.now.script.now running.now.plain.now running.now.store.now running.now.moves.now) out.items) }
{
    let found = all_tokens(alloc, input.bytes)?;
    let text = Text {
        bytes: input.bytes,
        tokens: found.as_slice(),
    };
    let mut out = Vec::new(alloc);
    put_told(alloc, &mut out, input.manner.form, &text, running)?;
    Ok(out)
}

/// What is written of a run.
fn replay(alloc: Global, input: &Input<'_>, running: &Running<'_>) -> Judged
    requires few { length running.now.plain.now.program.threads + length running.now.moves.now + 1 < 2 ^ 32 }
    requires whole { length (spell_script running.now.script.now) < 2 ^ 64 }
    requires same { length running.now.moves.now ≡ length running.now.script.now.moves }
    requires short { length (spell_program running.now.plain.now.program) < 2 ^ 64 }
    requires items { item_count running.now.plain.now.program < 2 ^ 32 }
    ensures { IsJudged input.now.kind input.now.manner input.now.bytes.now
        (λ outcome. outcome ≡ Ran running.now.script.now running.now.plain.now running.now.store.now running.now.moves.now) result }
{
    let Ok(report) = report_told(alloc, input, running) else {
        return Judged::wanting();
    };
    Judged {
        status: Status::Done,
        report: Report::Made(report),
    }
}

/// The report of an entry or a move that doesn't fit.
fn report_wrong(
    alloc: Global,
    input: &Input<'_>,
    script: &Script,
    number: usize,
) -> Result<Vec<u8>, Memory>
    requires { length (spell_script script.now) < 2 ^ 64 }
    ensures { IfOk result (λ out. IsTold input.now.kind input.now.manner input.now.bytes.now (Misfit script.now number) out.items) }
{
    let found = all_tokens(alloc, input.bytes)?;
    let text = Text {
        bytes: input.bytes,
        tokens: found.as_slice(),
    };
    let mut out = report_misfit(alloc, number)?;
    put_misfit(alloc, &mut out, input.manner.form, &text, script, number)?;
    Ok(out)
}

/// What is written where an entry or a move doesn't fit.
fn misfit(alloc: Global, input: &Input<'_>, script: &Script, number: usize) -> Judged
    requires { length (spell_script script.now) < 2 ^ 64 }
    ensures { IsJudged input.now.kind input.now.manner input.now.bytes.now (λ outcome. outcome ≡ Misfit script.now number) result }
{
    let Ok(report) = report_wrong(alloc, input, script, number) else {
        return Judged::wanting();
    };
    refused(report)
}

/// What `run` finds of a script whose program breaks no static rule.
fn judge_lawful(
    alloc: Global,
    input: &Input<'_>,
    end: End,
    src: &Layered,
    script: &Script,
) -> Judged
    requires source { src.now ≡ script.now.program }
    requires rules { IsLawful src.now }
    requires few { length src.now.threads + length script.now.moves + 1 < 2 ^ 32 }
    requires whole { length (spell_script script.now) < 2 ^ 64 }
    requires short { length (spell_program src.now) < 2 ^ 64 }
    requires items { item_count src.now < 2 ^ 32 }
    ensures { IsJudged input.now.kind input.now.manner input.now.bytes.now (Traces (plain_for end) script.now) result }
{
    match read_schedule(alloc, &program(src).globals, &script.store, &script.moves) {
        Ok(Schedule::Fits(store, moves)) => match plain_at(alloc, end, src) {
            Ok(plain) => {
                let running = Running {
                    script,
                    plain: &plain,
                    store: &store,
                    moves: &moves,
                };
                replay(alloc, input, &running)
            }
            Err(Memory) => Judged::wanting(),
        },
        Ok(Schedule::Wrong(number)) => misfit(alloc, input, script, number),
        Err(Memory) => Judged::wanting(),
    }
}

/// What `run` finds of a script.
fn judge_script(alloc: Global, input: &Input<'_>, end: End, script: &Script) -> Judged
    requires numbered { IsNumbered script.now.program }
    requires few { length script.now.program.threads + length script.now.moves + 1 < 2 ^ 32 }
    requires short { length (spell_program script.now.program) < 2 ^ 64 }
    requires whole { length (spell_script script.now) < 2 ^ 64 }
    ensures { IsJudged input.now.kind input.now.manner input.now.bytes.now (Traces (plain_for end) script.now) result }
{
    match admit(alloc, input, &script.program) {
        Ok(admitted) => judge_lawful(alloc, input, end, source(&admitted), script),
        Err(judged) => judged,
    }
}

/// What `run` finds of a text.
pub(crate) fn run_text(alloc: Global, input: &Input<'_>, end: End) -> Judged
    requires { length input.now.bytes.now ≤ limit }
    ensures { IsJudged input.now.kind input.now.manner input.now.bytes.now (Finds IsScriptReading (Traces (plain_for end)) input.now.bytes.now) result }
{
    match read_script(alloc, input.bytes) {
        Read::Spelled(script) => judge_script(alloc, input, end, &script),
        Read::Unread(fault) => judge_fault(alloc, input, fault),
        Read::Memory => Judged::wanting(),
    }
}
