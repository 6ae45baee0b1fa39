// What is told of a frame: what is assumed of it, its values, what its statement does, and why its note is false.
ghost use Rattle.std.specs.Prelude.{◌≡◌, ◌++◌, ◌∷◌, [], ◌<◌, ◌^◌, length, IfOk, OnOk};
ghost use Rattle.civl_tree.specs.Numbering.{proc_item};
ghost use Rattle.civl_tree.specs.SpellingProgram.{spell_program};
ghost use Rattle.civl_outlines.specs.SpellingOutline.{spell_outline};
ghost use Rattle.civl_conditions.specs.Steps.{of_proc};
ghost use Rattle.civl_places.specs.Starts.{item_start};
ghost use Rattle.civl_verdicts.specs.models.Text.{bool_text, listed};
ghost use Rattle.civl_action_stories.specs.Actors.{with_text};
ghost use Rattle.civl_path_stories.specs.Paths.{info};
ghost use Rattle.civl_goal_stories.specs.Frames.{assumed_line, assumed_lines, change_texts, frame_line, frame_lines, frame_texts};
ghost use Rattle.civl_goal_stories.specs.Frames.{note_lines, note_parts, passage_line, passage_lines, passage_text};

use crate::lines::{info, push_error, push_info, token};
use crate::notes::{note_before, note_number, proc_item};
use crate::places::note_start;
use crate::values::{change_texts, frame_texts};
use civl_action_stories::texts::{put_listed, put_with};
use civl_assumed::plain;
use civl_bits::Value;
use civl_firing::Store;
use civl_firing::expressions::holds;
use civl_firing::setting::in_frame;
use civl_goal_losses::Moment;
use civl_lines::{Line, Shown, push_parts};
use civl_meaning::Activation;
use civl_outlines::Outline;
use civl_places::{Formula, InStatement, formula_at, item_token};
use civl_tree::{Memory, Proc, Program};
use civl_verdicts::reports::put;
use std::alloc::Global;

// ---- what is assumed

/// Puts the note that is assumed before a statement of a procedure that there is behind the others, or that there is none.
fn push_noted(
    alloc: Global,
    lines: &mut Vec<Line>,
    outline: &Outline,
    number: usize,
    statement: usize,
) -> Result<(), Memory>
    requires short { length (spell_outline outline.now) < 2 ^ 64 }
    requires there { number < length outline.now.program.procs }
    ensures { OnOk result (lines.new.items ≡ lines.old.items ++ assumed_line outline.now number statement ∷ []) }
{
    match note_number(outline, number, statement) {
        Some(found) => push_info(
            alloc,
            lines,
            note_start(outline, found),
            Shown::Head,
            b"is assumed",
        ),
        None => push_info(
            alloc,
            lines,
            token(&outline.program, number, statement),
            Shown::Nothing,
            b"no note is written here",
        ),
    }
}

/// The same, if the procedure is there.
pub(crate) fn push_assumed(
    alloc: Global,
    lines: &mut Vec<Line>,
    outline: &Outline,
    number: usize,
    statement: usize,
) -> Result<(), Memory>
    requires { length (spell_outline outline.now) < 2 ^ 64 }
    ensures { OnOk result (lines.new.items ≡ lines.old.items ++ assumed_lines outline.now number statement) }
{
    match outline.program.procs.as_slice().get(number) {
        Some(_) => push_noted(alloc, lines, outline, number, statement),
        None => Ok(()),
    }
}

// ---- its values

/// The token of a procedure that there is.
fn proc_token(program: &Program, number: usize) -> usize
    requires short { length (spell_program program.now) < 2 ^ 64 }
    requires there { number < length program.now.procs }
    ensures { result ≡ item_start program.now (proc_item program.now number) }
{
    match item_token(program, proc_item(program, number)) {
        Some(at) => at,
        None => unreachable!(),
    }
}

/// A word, and the values of a frame of a procedure.
fn frame_text(
    alloc: Global,
    program: &Program,
    word: &[u8],
    locals: &[Value],
    proc: &Proc,
) -> Result<Vec<u8>, Memory>
    ensures { IfOk result (λ text. text.items ≡ word.now ++ with_text (frame_texts program.now proc.now locals.now)) }
{
    let texts = frame_texts(alloc, program, proc, locals)?;
    let mut text = Vec::from_slice(alloc, word)?;
    put_with(&mut text, texts.as_slice())?;
    Ok(text)
}

/// Puts them behind the others, at the procedure, which has this number.
fn push_values_of(
    alloc: Global,
    lines: &mut Vec<Line>,
    program: &Program,
    word: &[u8],
    number: usize,
    locals: &[Value],
    proc: &Proc,
) -> Result<(), Memory>
    requires short { length (spell_program program.now) < 2 ^ 64 }
    requires there { number < length program.now.procs }
    ensures { OnOk result (lines.new.items ≡ lines.old.items ++ frame_line program.now word.now number locals.now proc.now ∷ []) }
{
    let text = frame_text(alloc, program, word, locals, proc)?;
    lines.push(info(proc_token(program, number), Shown::Tokens(2), text))?;
    Ok(())
}

/// The same of a frame, if its procedure is there.
pub(crate) fn push_frame(
    alloc: Global,
    lines: &mut Vec<Line>,
    program: &Program,
    word: &[u8],
    frame: &Activation,
) -> Result<(), Memory>
    requires { length (spell_program program.now) < 2 ^ 64 }
    ensures { OnOk result (lines.new.items ≡ lines.old.items ++ frame_lines program.now word.now frame.now) }
{
    match program.procs.as_slice().get(frame.procedure) {
        Some(proc) => push_values_of(
            alloc,
            lines,
            program,
            word,
            frame.procedure,
            frame.locals.as_slice(),
            proc,
        ),
        None => Ok(()),
    }
}

// ---- what its statement does

/// The word of a truth.
fn bool_text(truth: bool) -> &'static [u8]
    ensures { result.now ≡ bool_text truth }
{
    if truth { b"true" } else { b"false" }
}

/// Puts what changes behind what is there.
fn put_changes(
    alloc: Global,
    out: &mut Vec<u8>,
    program: &Program,
    proc: &Proc,
    here: &Moment,
    there: &Moment,
) -> Result<(), Memory>
    ensures { OnOk result (out.new.items ≡ out.old.items ++ listed (change_texts program.now proc.now here.now there.now)) }
{
    let texts = change_texts(alloc, program, proc, here, there)?;
    put_listed(out, texts.as_slice())
}

/// Puts whether the statement's condition is true behind what is there, where it has one, or what it changes.
fn put_passage(
    alloc: Global,
    out: &mut Vec<u8>,
    program: &Program,
    proc: &Proc,
    here: &Moment,
    there: &Moment,
) -> Result<(), Memory>
    requires { length (spell_program program.now) < 2 ^ 64 }
    ensures { OnOk result (out.new.items ≡ out.old.items ++ passage_text program.now here.now there.now proc.now) }
{
    let frame = &here.frame;
    let condition = Formula::Statement(frame.procedure, frame.place, InStatement::Condition);
    match formula_at(program, &condition) {
        Some(test) => {
            let setting = in_frame(program.globals.as_slice(), proc, frame.locals.as_slice());
            put(out, bool_text(holds(&setting, test.expr)))
        }
        None => put_changes(alloc, out, program, proc, here, there),
    }
}

/// Puts the line of the statement of a frame of this procedure behind the others.
fn push_passed(
    alloc: Global,
    lines: &mut Vec<Line>,
    program: &Program,
    proc: &Proc,
    here: &Moment,
    there: &Moment,
) -> Result<(), Memory>
    requires { length (spell_program program.now) < 2 ^ 64 }
    ensures { OnOk result (lines.new.items ≡ lines.old.items ++ passage_line program.now here.now there.now proc.now ∷ []) }
{
    let mut text = Vec::new(alloc);
    put_passage(alloc, &mut text, program, proc, here, there)?;
    let at = token(program, here.frame.procedure, here.frame.place);
    lines.push(info(at, Shown::Head, text))?;
    Ok(())
}

/// The same, if the procedure is there.
pub(crate) fn push_passage(
    alloc: Global,
    lines: &mut Vec<Line>,
    program: &Program,
    here: &Moment,
    there: &Moment,
) -> Result<(), Memory>
    requires { length (spell_program program.now) < 2 ^ 64 }
    ensures { OnOk result (lines.new.items ≡ lines.old.items ++ passage_lines program.now here.now there.now) }
{
    match program.procs.as_slice().get(here.frame.procedure) {
        Some(proc) => push_passed(alloc, lines, program, proc, here, there),
        None => Ok(()),
    }
}

// ---- its note

/// Puts the false parts of the note before which a frame of this procedure stands behind the others.
fn push_note_parts(
    alloc: Global,
    lines: &mut Vec<Line>,
    outline: &Outline,
    store: &Store,
    frame: &Activation,
    proc: &Proc,
) -> Result<(), Memory>
    requires short { length (spell_outline outline.now) < 2 ^ 64 }
    requires there { frame.now.procedure < length outline.now.program.procs }
    ensures { OnOk result (lines.new.items ≡ lines.old.items ++ note_parts outline.now store.now frame.now proc.now) }
{
    match note_before(outline, frame.procedure, frame.place) {
        Some(part) => {
            let globals = outline.program.globals.as_slice();
            let names = plain(
                globals,
                proc,
                store.values.as_slice(),
                frame.locals.as_slice(),
            );
            push_parts(alloc, lines, &names, &part)
        }
        None => Ok(()),
    }
}

/// The same, if the procedure is there.
fn push_why(
    alloc: Global,
    lines: &mut Vec<Line>,
    outline: &Outline,
    store: &Store,
    frame: &Activation,
) -> Result<(), Memory>
    requires { length (spell_outline outline.now) < 2 ^ 64 }
    ensures { OnOk result (lines.new.items ≡ lines.old.items
        ++ of_proc outline.now.program frame.now.procedure [] (note_parts outline.now store.now frame.now)) }
{
    match outline.program.procs.as_slice().get(frame.procedure) {
        Some(proc) => push_note_parts(alloc, lines, outline, store, frame, proc),
        None => Ok(()),
    }
}

/// Puts that the note before which a frame stands is false behind the others, and why.
pub(crate) fn push_note(
    alloc: Global,
    lines: &mut Vec<Line>,
    outline: &Outline,
    text: &[u8],
    store: &Store,
    frame: &Activation,
) -> Result<(), Memory>
    requires { length (spell_outline outline.now) < 2 ^ 64 }
    ensures { OnOk result (lines.new.items ≡ lines.old.items ++ note_lines outline.now text.now store.now frame.now) }
{
    let at = token(&outline.program, frame.procedure, frame.place);
    push_error(alloc, lines, at, Shown::Head, text)?;
    push_why(alloc, lines, outline, store, frame)?;
    Ok(())
}
